//! Trees that cut the symbols of 32 inputs. A leaf is a care and a value.

use bench_cases::drawn;
use std::alloc::{AllocError, Global};

/// The leaves of a tree that cuts the symbols at random: no two hold the same symbol. Trees of other numbers have
/// other leaves.
pub(crate) fn leaves(
    alloc: Global,
    number: u64,
    count: usize,
) -> Result<Vec<(u32, u32)>, AllocError> {
    let mut leaves = Vec::new(alloc);
    leaves.push((0u32, 0u32))?;
    for made in 1..count {
        cut_leaf(&mut leaves, drawn(number, made as u64))?;
    }
    Ok(leaves)
}

/// Cuts one of the leaves in two, by the first input from a drawn one on that it does not look at.
fn cut_leaf(leaves: &mut Vec<(u32, u32)>, draw: u64) -> Result<(), AllocError> {
    let chosen = (draw >> 8) as usize % leaves.len().max(1);
    if chosen < leaves.len() {
        let (care, value) = leaves[chosen];
        let bit = open_input(care, (draw % 32) as u32);
        leaves[chosen] = (care | bit, value & !bit);
        leaves.push((care | bit, value | bit))?;
    }
    Ok(())
}

/// The first input from `start` on, and then from 0 on, that is not in `care`, as a number with its bit alone.
fn open_input(care: u32, start: u32) -> u32 {
    for step in 0..32u32 {
        let bit = 1u32 << (start.wrapping_add(step) % 32);
        if care & bit == 0 {
            return bit;
        }
    }
    1
}
