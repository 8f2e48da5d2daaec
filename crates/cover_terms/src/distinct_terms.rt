//! A list without repeated terms.
ghost use Rattle.std.specs.Prelude.{IfOk, IsTrue};
ghost use Rattle.cover_terms.specs.Lists.{HasSameValues, IsWithinOne};

use crate::term::Term;
use std::alloc::{AllocError, Global};

/// Whether the last of the terms holds each value of the given term.
fn last_includes(terms: &[Term], term: Term) -> bool
    ensures { IsTrue result → IsWithinOne terms.now term }
{
    match terms.last() {
        Some(last) => last.includes(term),
        None => false,
    }
}

/// The terms in the order of care and value, without a term whose values the term before it holds, such as an equal
/// one.
pub fn distinct(alloc: Global, terms: &[Term]) -> Result<Vec<Term>, AllocError>
    ensures { IfOk result (λ once. HasSameValues terms.now once.items) }
{
    let mut sorted = Vec::from_slice(alloc, terms)?;
    sorted.sort_unstable_by_key(|term| (term.care, term.value));
    let mut once = Vec::new(alloc);
    for term in &sorted {
        if !last_includes(&once, *term) {
            once.push(*term)?;
        }
    }
    Ok(once)
}
