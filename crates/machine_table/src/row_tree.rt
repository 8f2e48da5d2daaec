//! A search tree of the rows of a state, to find a row that holds a symbol without looking at each.
//!
//! A tree is only a hint: a row found in it is checked, and if none is found all rows of the state are tried.

use cubes::Cube;
use kiss_file::KissRow;
use std::alloc::{AllocError, Global};

/// Up to this many rows form a leaf.
const FEW_ROWS: usize = 4;

/// Numbers of rows, split by the bits of their cubes.
#[derive(Drop)]
pub(crate) enum RowTree {
    Leaf(Vec<usize>),
    Fork {
        /// The place at which the rows are split, as a power of 2.
        at: u32,
        zero: Box<RowTree>,
        one: Box<RowTree>,
        dash: Box<RowTree>,
    },
}

/// What a cube has at a place.
#[derive(Clone, Copy, PartialEq, Eq)]
enum Side {
    Zero,
    One,
    Dash,
}

/// What the cube has at the place of the 1 in `at`.
fn side_of(cube: &Cube, at: u32) -> Side {
    if cube.care & at == 0 {
        Side::Dash
    } else if cube.value & at == 0 {
        Side::Zero
    } else {
        Side::One
    }
}

/// Whether the row with that number is on that side.
fn is_on_side(rows: &[KissRow], number: usize, at: u32, side: Side) -> bool {
    match rows.get(number) {
        Some(row) => side_of(&row.cube, at) == side,
        None => false,
    }
}

/// The numbers whose rows are on that side.
fn on_side(
    alloc: Global,
    rows: &[KissRow],
    numbers: &[usize],
    at: u32,
    side: Side,
) -> Result<Vec<usize>, AllocError> {
    numbers
        .iter()
        .copied()
        .filter(|number| is_on_side(rows, *number, at, side))
        .collect(alloc)
}

/// Among the places with a 1 in `free`, the one at which the fewest rows have a dash, if not all have one.
fn least_dashed(rows: &[KissRow], numbers: &[usize], free: u32) -> Option<u32> {
    let mut best = None;
    let mut fewest = numbers.len();
    for place in 0..32u32 {
        let at = free & (1 << place);
        let dashes = numbers
            .iter()
            .filter(|number| is_on_side(rows, **number, at, Side::Dash))
            .count();
        if dashes < fewest {
            best = Some(at);
            fewest = dashes;
        }
        if fewest == 0 {
            return best;
        }
    }
    best
}

impl RowTree {
    /// The tree of the rows with these numbers, at most `depth` deep, split at places with a 1 in `free`.
    #[cycle(branches)]
    pub(crate) fn of_rows(
        alloc: Global,
        rows: &[KissRow],
        numbers: &[usize],
        free: u32,
        depth: u8,
    ) -> Result<RowTree, AllocError> {
        if depth == 0 || numbers.len() <= FEW_ROWS {
            return Ok(RowTree::Leaf(Vec::from_slice(alloc, numbers)?));
        }
        let Some(at) = least_dashed(rows, numbers, free) else {
            return Ok(RowTree::Leaf(Vec::from_slice(alloc, numbers)?));
        };
        let rest = free & !at;
        let zero = RowTree::of_side(alloc, rows, numbers, at, Side::Zero, rest, depth - 1)?;
        let one = RowTree::of_side(alloc, rows, numbers, at, Side::One, rest, depth - 1)?;
        let dash = RowTree::of_side(alloc, rows, numbers, at, Side::Dash, rest, depth - 1)?;
        Ok(RowTree::Fork {
            at,
            zero,
            one,
            dash,
        })
    }

    /// The tree of those of the rows that are on a side of the place with a 1 in `at`.
    #[cycle(branches)]
    fn of_side(
        alloc: Global,
        rows: &[KissRow],
        numbers: &[usize],
        at: u32,
        side: Side,
        free: u32,
        depth: u8,
    ) -> Result<Box<RowTree>, AllocError> {
        let own = on_side(alloc, rows, numbers, at, side)?;
        let tree = RowTree::of_rows(alloc, rows, &own, free, depth)?;
        Ok(Box::new(alloc, tree)?)
    }
}
