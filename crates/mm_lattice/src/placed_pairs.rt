//! M of partitions, by the right sides of two states.
//!
//! Two states are together in M(q) exactly where their right side is below q. Each different right side is compared
//! with q once, and then the pairs of states with such a right side are merged. So the rows of the machine are gone
//! through once, and not again for each q.

ghost use Rattle.std.specs.Prelude.{◌+◌, ◌≡◌, ◌<◌, All, IfOk, IfSome, IsTrue, OnOk, Some, length, slice_get};
ghost use Rattle.mm_lattice.specs.Inner.PlacedPairs.{AreBelow, ArePlaced, HavePlaces, IsPlaced};
ghost use Rattle.pair_operators.specs.Extremes.{IsHigh};
ghost use Rattle.partition.specs.Partition.{IsPartition};

use crate::right_sides::right_of;
use machine_table::Machine;
use partition::Partition;
use std::alloc::{AllocError, Global};

/// Two states, and the place of their right side in a list.
#[derive(Clone, Copy)]
pub(crate) struct PlacedPair {
    pub s: usize,
    pub t: usize,
    pub place: usize,
}

/// The place of the partition in a list, if it is found there. It is found if the list is in ascending order.
fn place_of(rights: &[Partition], right: &Partition) -> Option<usize>
    requires { All (λ p. length p ≡ length right.now) rights.now }
    ensures { IfSome result (λ place. slice_get rights.now place ≡ Some right.now) }
{
    let mut low = 0;
    let mut high = rights.len();
    while low < high {
        let middle = low + (high - low) / 2;
        if rights[middle].before(right) {
            low = middle + 1;
        } else {
            high = middle;
        }
    }
    let found = rights.get(low)?;
    if found.equal(right) { Some(low) } else { None }
}

/// Adds the pairs of a state with each state before it. The answer is whether all their right sides are in the list.
fn add_placed(
    alloc: Global,
    m: &Machine,
    rights: &[Partition],
    t: usize,
    pairs: &mut Vec<PlacedPair>,
) -> Result<bool, AllocError>
    requires t { t < length m.now.states }
    requires lawful { All (IsPartition (length m.now.states)) rights.now }
    requires placed { All (IsPlaced m.now rights.now) pairs.old.items }
    requires before { HavePlaces t pairs.old.items }
    ensures placed { OnOk result (All (IsPlaced m.now rights.now) pairs.new.items) }
    ensures each { IfOk result (λ all. IsTrue all → HavePlaces (t + 1) pairs.new.items) }
{
    for s in 0..t {
        let right = right_of(alloc, m, s, t)?;
        let Some(place) = place_of(rights, &right) else {
            return Ok(false);
        };
        pairs.push(PlacedPair { s, t, place })?;
    }
    Ok(true)
}

/// All pairs of states with the places of their right sides, if the list has all of these.
pub(crate) fn placed_pairs(
    alloc: Global,
    m: &Machine,
    rights: &[Partition],
) -> Result<Option<Vec<PlacedPair>>, AllocError>
    requires { All (IsPartition (length m.now.states)) rights.now }
    ensures { IfOk result (λ found. IfSome found (λ pairs. ArePlaced m.now rights.now pairs.items)) }
{
    let mut pairs = Vec::new(alloc);
    for t in 0..m.states() {
        if !add_placed(alloc, m, rights, t, &mut pairs)? {
            return Ok(None);
        }
    }
    Ok(Some(pairs))
}

/// Whether each of the partitions is below q.
fn are_below(alloc: Global, rights: &[Partition], q: &Partition) -> Result<Vec<bool>, AllocError>
    requires { All (λ p. length p ≡ length q.now) rights.now }
    ensures { IfOk result (λ below. AreBelow rights.now q.now below.items) }
{
    let mut below = Vec::with_capacity(alloc, rights.len())?;
    for right in rights {
        below.push(right.le(q))?;
    }
    Ok(below)
}

/// M(q), by the places of the right sides of all pairs of states.
pub(crate) fn left_by_pairs(
    alloc: Global,
    m: &Machine,
    rights: &[Partition],
    pairs: &[PlacedPair],
    q: &Partition,
) -> Result<Partition, AllocError>
    requires q { IsPartition (length m.now.states) q.now }
    requires lawful { All (IsPartition (length m.now.states)) rights.now }
    requires pairs { ArePlaced m.now rights.now pairs.now }
    ensures { IfOk result (IsHigh m.now q.now) }
{
    let below = are_below(alloc, rights, q)?;
    let mut p = Partition::zero(alloc, m.states())?;
    for pair in pairs {
        if below[pair.place] {
            p.merge(pair.s, pair.t);
        }
    }
    Ok(p)
}
