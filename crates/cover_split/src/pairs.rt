//! The pairs of a block and a state in it, and their numbers.
ghost use Rattle.std.specs.Prelude.{◌≡◌, ◌<◌, ◌≤◌, ◌++◌, Contains, IfOk, OnOk, Some, length, map, slice_get};
ghost use Rattle.cover_split.specs.StateCover.{IsInSomeBlock};
ghost use Rattle.cover_split.specs.Expansion.{IsFirstWith, pairs_of};

use crate::state_cover::{Block, has_state, states_at};
use std::alloc::{AllocError, Global};

/// All pairs, by block and then by state.
pub fn pairs_of(alloc: Global, blocks: &[Block]) -> Result<Vec<(u16, u16)>, AllocError>
    requires { length blocks.now ≤ 256 }
    ensures { IfOk result (λ pairs. pairs.items ≡ pairs_of blocks.now) }
{
    let mut pairs = Vec::new(alloc);
    for j in 0..blocks.len() {
        add_pairs(&mut pairs, j as u16, states_at(blocks, j))?;
    }
    Ok(pairs)
}

/// Adds the pairs of block j.
fn add_pairs(pairs: &mut Vec<(u16, u16)>, j: u16, states: &[u16]) -> Result<(), AllocError>
    ensures { OnOk result (pairs.new.items ≡ pairs.old.items ++ map (λ s. (j, s)) states.now) }
{
    for s in states {
        pairs.push((j, *s))?;
    }
    Ok(())
}

/// The pair with the number i.
pub(crate) fn pair_at(pairs: &[(u16, u16)], i: usize) -> (u16, u16)
    requires { i < length pairs.now }
    ensures { slice_get pairs.now i ≡ Some result }
{
    pairs[i]
}

/// The number of a pair.
pub(crate) fn number_of(pairs: &[(u16, u16)], j: u16, s: u16) -> u16
    requires among { Contains pairs.now (j, s) }
    requires few { length pairs.now ≤ 256 }
    ensures { slice_get pairs.now result ≡ Some (j, s) }
{
    for (i, pair) in pairs.iter().enumerate() {
        if pair.0 == j && pair.1 == s {
            return i as u16;
        }
    }
    unreachable!()
}

/// The first block that has the state.
pub(crate) fn first_with(blocks: &[Block], s: u16) -> u16
    requires covered { IsInSomeBlock blocks.now s }
    requires few { length blocks.now ≤ 256 }
    ensures { IsFirstWith blocks.now s result }
{
    for j in 0..blocks.len() {
        if has_state(states_at(blocks, j), s) {
            return j as u16;
        }
    }
    unreachable!()
}
