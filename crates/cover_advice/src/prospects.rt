//! Which terms of on a row may be able to hold.

use crate::limits::Limits;
use crate::slices::Slices;
use cover_terms::Term;
use std::alloc::{AllocError, Global};

/// Terms that a row may be able to hold whole when it is widened, and what it has to keep.
#[derive(Drop)]
pub struct Prospects {
    pub others: Vec<Term>,
    pub limits: Limits,
}

/// The number of terms of on that are few enough to be asked one by one, and the number of terms of off that are
/// looked at where they are more.
const FEW: usize = 128;

impl Prospects {
    /// The terms of on that the row may be able to hold, where it may not touch those of off.
    /// Advice: asked before it is followed.
    pub fn new(
        alloc: Global,
        row: Term,
        on: &Slices,
        off: &Slices,
    ) -> Result<Prospects, AllocError> {
        let mut limits = off.limits(alloc, row)?;
        let mut left = on.having(alloc, row, limits.literals)?;
        if count(&left) > FEW {
            off.add_nearest(alloc, row, FEW, &mut limits)?;
            on.keep_allowed(&mut left, row, &limits)?;
        }
        let others = on.terms_of(alloc, &left)?;
        Ok(Prospects { others, limits })
    }
}

/// The number of terms in a set.
fn count(words: &[u128]) -> usize {
    let mut count = 0usize;
    for word in words {
        count = count.saturating_add(word.count_ones() as usize);
    }
    count
}
