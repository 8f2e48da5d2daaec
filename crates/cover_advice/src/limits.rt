//! What a row has to keep as it is widened.

use std::alloc::{AllocError, Global};

/// What a row has to keep so as to share no value with the terms that were met: its literals at the columns of
/// `literals`, and at least one literal at the columns of each set. Column c is bit c.
#[derive(Drop)]
pub struct Limits {
    pub literals: u128,
    pub sets: Vec<u128>,
}

impl Limits {
    /// The limits that keep the literals at these columns, and no more.
    /// Advice: asked before it is followed.
    pub fn new(alloc: Global, literals: u128) -> Limits {
        Limits {
            literals,
            sets: Vec::new(alloc),
        }
    }

    /// Whether a row whose literals are at exactly these columns is within the limits.
    /// Advice: asked before it is followed.
    pub fn allow(&self, care: u128) -> bool {
        self.literals & care == self.literals && self.sets.iter().all(|set| *set & care != 0)
    }

    /// A row within the limits now also has a literal at a column of `set`. Only rows with literals among the columns of
    /// `care` are spoken of.
    /// Advice: asked before it is followed.
    pub fn add(&mut self, set: u128, care: u128) -> Result<(), AllocError> {
        let left = set & care;
        if is_single(left) {
            self.literals |= left;
            return Ok(());
        }
        self.sets.push(set)?;
        Ok(())
    }

    /// The same limits for rows with literals among the columns of `care`. Where one column of a set is left, its literal
    /// is required.
    /// Advice: asked before it is followed.
    pub fn narrow(&mut self, care: u128) {
        let literals = self.kept(care);
        drop_sharing(&mut self.sets, literals);
        self.literals = literals;
    }

    /// The columns of the literals that each row within the limits has, if its literals are among the columns of `care`.
    fn kept(&self, care: u128) -> u128 {
        let mut kept = self.literals;
        for set in &self.sets {
            kept = with_last(kept, *set, care);
        }
        kept
    }
}

/// The columns, and the one that is left of a set if one alone is left.
fn with_last(columns: u128, set: u128, care: u128) -> u128 {
    let left = set & care;
    if is_single(left) {
        columns | left
    } else {
        columns
    }
}

/// Whether there is one column alone.
fn is_single(columns: u128) -> bool {
    let column = columns.trailing_zeros();
    column < 128 && columns == 1 << column
}

/// Drops each set that has one of the columns.
fn drop_sharing(sets: &mut Vec<u128>, columns: u128) {
    sets.retain(|set| *set & columns == 0);
}
