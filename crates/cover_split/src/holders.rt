//! The blocks that have each state, by which a block within another block is found.
ghost use Rattle.std.specs.Prelude.{◌≡◌, ℕ, ◌<◌, ◌≤◌, ◌↔◌, All, AllPairs, IfNone, IfOk, IfSome, IsTrue, [], length};
ghost use Rattle.cover_split.specs.StateCover.{IsBlock, IsWithin, NoneIsWithin, block_at};
ghost use Rattle.cover_split.specs.Refusal.{IsFirstWithin};
ghost use Rattle.cover_split.specs.Inner.Holders.{AreHolders, AreHoldersOf, AreIn, IsLeastAround};

use crate::state_cover::{Block, has_state, states_at};
use hs_list::Items;
use std::alloc::{AllocError, Global};

/// For each of n states the numbers of the blocks that have it, ascending.
pub(crate) fn holders_of_states(
    alloc: Global,
    blocks: &[Block],
    n: usize,
) -> Result<Vec<Items<usize>>, AllocError>
    requires { n ≤ 256 }
    ensures { IfOk result (λ lists. AreHoldersOf blocks.now n lists.items) }
{
    let mut lists = Vec::with_capacity(alloc, n)?;
    for s in 0..n {
        lists.push(holders_of(alloc, blocks, s as u16)?)?;
    }
    Ok(lists)
}

/// The numbers of the blocks that have the state.
fn holders_of(alloc: Global, blocks: &[Block], s: u16) -> Result<Items<usize>, AllocError>
    ensures { IfOk result (AreHolders blocks.now s (length blocks.now)) }
{
    let mut holders = Items::new(alloc);
    for j in 0..blocks.len() {
        if has_state(states_at(blocks, j), s) {
            holders.push(j)?;
        }
    }
    Ok(holders)
}

/// The first two blocks such that the first is within the second.
pub(crate) fn first_contained(blocks: &[Block], lists: &[Items<usize>]) -> Option<(usize, usize)>
    requires lawful { All (IsBlock (length lists.now)) blocks.now }
    requires lists { AreHoldersOf blocks.now (length lists.now) lists.now }
    ensures some { IfSome result (λ it. IsFirstWithin blocks.now it.0 it.1) }
    ensures none { IfNone result (NoneIsWithin blocks.now) }
{
    for a in 0..blocks.len() {
        if let Some(b) = least_around(blocks, a, lists) {
            return Some((a, b));
        }
    }
    None
}

/// The least other block that has all of block a. Such a block has the first state of block a.
fn least_around(blocks: &[Block], a: usize, lists: &[Items<usize>]) -> Option<usize>
    requires a { a < length blocks.now }
    requires lawful { All (IsBlock (length lists.now)) blocks.now }
    requires lists { AreHoldersOf blocks.now (length lists.now) lists.now }
    ensures some { IfSome result (IsLeastAround blocks.now a) }
    ensures none { IfNone result ((b : ℕ) → IsWithin blocks.now a b → ⊥) }
{
    let first = usize::from(states_at(blocks, a)[0]);
    for b in holders_at(lists, first) {
        if lies_within(blocks, a, *b) {
            return Some(*b);
        }
    }
    None
}

/// The holders of a state.
fn holders_at(lists: &[Items<usize>], s: usize) -> &[usize]
    requires { s < length lists.now }
    ensures { result.now ≡ block_at lists.now s }
{
    lists[s].as_slice()
}

/// Whether a and b are two blocks, and each state of the first is in the second.
fn lies_within(blocks: &[Block], a: usize, b: usize) -> bool
    requires a { a < length blocks.now }
    requires b { b < length blocks.now }
    requires lawful { (n : ℕ) × All (IsBlock n) blocks.now }
    ensures { IsTrue result ↔ IsWithin blocks.now a b }
{
    if a == b {
        return false;
    }
    is_within(states_at(blocks, a), states_at(blocks, b))
}

/// Whether each state of the first is in the second. Both are ascending, and are walked side by side.
fn is_within(first: &[u16], second: &[u16]) -> bool
    requires first { AllPairs (λ s t. s < t) first.now }
    requires second { AllPairs (λ s t. s < t) second.now }
    ensures { IsTrue result ↔ AreIn first.now second.now }
{
    let mut found = 0;
    for t in second {
        if found < first.len() && first[found] == *t {
            found += 1;
        }
    }
    found == first.len()
}

/// The least state that no block has.
pub(crate) fn first_missing(lists: &[Items<usize>]) -> Option<usize>
    ensures some { IfSome result
        (λ s. (s < length lists.now) × ((t : ℕ) → t < s → 0 < length (block_at lists.now t))
        × (block_at lists.now s ≡ [])) }
    ensures none { IfNone result ((t : ℕ) → t < length lists.now → 0 < length (block_at lists.now t)) }
{
    for (s, holders) in lists.iter().enumerate() {
        if holders.as_slice().is_empty() {
            return Some(s);
        }
    }
    None
}
