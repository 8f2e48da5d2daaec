//! Search trees of the rows of a state, one for each list of parts that its rows give together.
//!
//! Rows that share a symbol agree, so the first row that is found to give a part gives it as each other row would.
//! Trees are only a hint, as [`RowTree`] is.

use crate::row_tree::RowTree;
use kiss_file::KissRow;
use std::alloc::{AllocError, Global};

/// The number of symbols per state from which a tree of rows pays off.
const MANY_VISITS: usize = 256;

/// Some parts of a step.
#[derive(Clone, Copy)]
pub(crate) struct Parts {
    /// Whether the next state is one of them.
    pub next: bool,
    /// The outputs among them, with output b at 2^b.
    pub outputs: u64,
}

/// A tree of the rows that give these parts.
#[derive(Drop)]
pub(crate) struct PartTree {
    pub parts: Parts,
    pub rows: RowTree,
}

/// The parts that the row gives.
fn parts_of(row: &KissRow) -> Parts {
    Parts {
        next: row.to.is_some(),
        outputs: row.care,
    }
}

impl Parts {
    /// The parts that are among both.
    fn both(&self, other: &Parts) -> Parts {
        Parts {
            next: self.next && other.next,
            outputs: self.outputs & other.outputs,
        }
    }

    /// The parts that are not among the others.
    pub(crate) fn without(&self, other: &Parts) -> Parts {
        Parts {
            next: self.next && !other.next,
            outputs: self.outputs & !other.outputs,
        }
    }

    /// Whether there are no parts.
    pub(crate) fn is_empty(&self) -> bool {
        !self.next && self.outputs == 0
    }

    /// Whether some of the parts are among the others, but not all.
    fn is_cut_by(&self, other: &Parts) -> bool {
        !self.both(other).is_empty() && !self.without(other).is_empty()
    }
}

/// Splits lists of parts into what is among the given parts and what is not.
fn split_lists(alloc: Global, lists: &[Parts], given: &Parts) -> Result<Vec<Parts>, AllocError> {
    let mut split = Vec::new(alloc);
    for parts in lists {
        if parts.is_cut_by(given) {
            split.push(parts.both(given))?;
            split.push(parts.without(given))?;
        } else {
            split.push(*parts)?;
        }
    }
    Ok(split)
}

/// All parts in lists of which each row with one of these numbers gives all or none.
fn lists_of_parts(
    alloc: Global,
    rows: &[KissRow],
    numbers: &[usize],
    all: Parts,
) -> Result<Vec<Parts>, AllocError> {
    let mut lists = Vec::new(alloc);
    lists.push(all)?;
    for number in numbers {
        let given = match rows.get(*number) {
            Some(row) => parts_of(row),
            None => all,
        };
        if lists.iter().any(|parts| parts.is_cut_by(&given)) {
            lists = split_lists(alloc, &lists, &given)?;
        }
    }
    Ok(lists)
}

/// Whether the row with that number gives some of the parts.
fn gives_some(rows: &[KissRow], number: usize, parts: &Parts) -> bool {
    match rows.get(number) {
        Some(row) => !parts.both(&parts_of(row)).is_empty(),
        None => false,
    }
}

/// The tree of those of the rows that give the parts.
fn tree_of(
    alloc: Global,
    rows: &[KissRow],
    numbers: &[usize],
    parts: Parts,
) -> Result<PartTree, AllocError> {
    let mut own = Vec::new(alloc);
    for number in numbers {
        if gives_some(rows, *number, &parts) {
            own.push(*number)?;
        }
    }
    let tree = RowTree::of_rows(alloc, rows, &own, u32::MAX, 32)?;
    Ok(PartTree { parts, rows: tree })
}

/// The trees of the rows with these numbers, which are one of so many states. There are none if a word of so many
/// symbols is too short for them to pay off.
pub(crate) fn trees_of_parts(
    alloc: Global,
    rows: &[KissRow],
    numbers: &[usize],
    all: Parts,
    states: usize,
    symbols: usize,
) -> Result<Vec<PartTree>, AllocError> {
    let mut trees = Vec::new(alloc);
    if symbols / MANY_VISITS < states {
        return Ok(trees);
    }
    let lists = lists_of_parts(alloc, rows, numbers, all)?;
    if symbols / MANY_VISITS < states.wrapping_mul(lists.len()) {
        return Ok(trees);
    }
    for parts in &lists {
        trees.push(tree_of(alloc, rows, numbers, *parts)?)?;
    }
    Ok(trees)
}
