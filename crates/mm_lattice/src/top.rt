//! A right side of an Mm pair that is greatest strictly below one.
//!
//! The right sides of two states are joined, one after another, as long as the join is strictly below one. A
//! right side that could not be joined once cannot be joined later, so one pass is enough. Each right side that
//! is strictly above the grown partition is one. The next states of two states are merged in a copy of the grown
//! partition, which is then its join with their right side. The merging stops where the join is one.

ghost use Rattle.std.specs.Prelude.{◌<◌, ◌↔◌, IfOk, length};
ghost use Rattle.mm_lattice.specs.Generators.{IsRightOf};
ghost use Rattle.mm_lattice.specs.Top.{IsBelowOne, IsGreatestRight, RightsAreTrivial};
ghost use Rattle.pair_operators.specs.Growth.{GrowsOver, IsGrowth, pairs_from};
ghost use Rattle.partition.specs.Partition.{IsPartition, IsZero, zero_of};

use crate::worlds::with_right;
use machine_table::Machine;
use partition::Partition;
use std::alloc::{AllocError, Global};

/// The growth over the pairs of one state and a greater one.
fn grow_from(
    alloc: Global,
    m: &Machine,
    start: Partition,
    s: usize,
) -> Result<Partition, AllocError>
    requires lawful { IsPartition (length m.now.states) start }
    requires state { s < length m.now.states }
    ensures lawful { IfOk result (IsPartition (length m.now.states)) }
    ensures grown { IfOk result (GrowsOver (IsRightOf m.now) IsBelowOne start
        (pairs_from (length m.now.states) s)) }
{
    let mut grown = start;
    for t in s + 1..m.states() {
        let mut joined = grown.copy(alloc)?;
        m.merge_images(alloc, s, t, &mut joined)?;
        if joined.blocks() > 1 {
            grown = joined;
        }
    }
    Ok(grown)
}

/// The growth of zero over the right sides of all pairs of states.
fn grown_rights(alloc: Global, m: &Machine) -> Result<Partition, AllocError>
    ensures lawful { IfOk result (IsPartition (length m.now.states)) }
    ensures growth { IfOk result (IsGrowth (IsRightOf m.now) IsBelowOne (length m.now.states)
        (zero_of (length m.now.states))) }
{
    let mut grown = Partition::zero(alloc, m.states())?;
    for s in 0..m.states() {
        grown = grow_from(alloc, m, grown, s)?;
    }
    Ok(grown)
}

/// The growth of zero over the right sides m(hold(s, t)) strictly below one: the first part of a feedback
/// decomposition.
///
/// With one state alone it is zero, which is also one there.
pub fn top_right(alloc: Global, m: &Machine) -> Result<Partition, AllocError>
    ensures growth { IfOk result (IsGrowth (IsRightOf m.now) IsBelowOne (length m.now.states)
        (zero_of (length m.now.states))) }
    ensures greatest { IfOk result (IsGreatestRight m.now) }
    ensures zero { IfOk result (λ q. IsZero q ↔ RightsAreTrivial m.now) }
{
    let grown = grown_rights(alloc, m)?;
    let pair = with_right(alloc, m, grown)?;
    Ok(pair.right)
}
