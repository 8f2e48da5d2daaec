//! All closed partitions, and the least of them other than zero, in order.
//!
//! Joins of closed partitions are closed, and each closed partition is the join of the least closed
//! partitions of its pairs of states. So the closed partitions are the joins of these least ones. Each closed
//! partition other than zero is above one of them, so the least of these are the least of all.

ghost use Rattle.std.specs.Prelude.{
  ℕ,
  ◌≡◌,
  ◌↔◌,
  ◌≤◌,
  ◌⊎◌,
  ◌++◌,
  ◌∷◌,
  [],
  All,
  AllPairs,
  IfOk,
  IsTrue,
  List,
  OnOk,
  length,
};
ghost use Rattle.closed_lattice.specs.ClosedPartitions.{IsAtom, IsClosedPartition};
ghost use Rattle.closed_lattice.specs.Inner.Generators.{AreGenerators, IsLeastAmong};
ghost use Rattle.hs_lattice.specs.Listing.{Evidence, IfMore, IfWhole, Lists};
ghost use Rattle.partition.specs.Order.{Before};
ghost use Rattle.partition.specs.Partition.{IsPartition};

use crate::principal_list::principals_within;
use hs_lattice::{Listing, join_closure};
use machine_table::Machine;
use partition::{BitPart, BitWorld, Partition};
use std::alloc::{AllocError, Global};

/// The partitions, each as rows of bits.
fn in_rows(alloc: Global, list: &[Partition]) -> Result<Vec<BitPart>, AllocError>
    ensures { IfOk result (λ rows. rows.items ≡ list.now) }
{
    let mut rows = Vec::with_capacity(alloc, list.len())?;
    for p in list {
        rows.push(BitPart::of(alloc, p)?)?;
    }
    Ok(rows)
}

/// The least closed partitions of each two states, each once, in ascending order, or more of them than the limit.
fn generators(alloc: Global, m: &Machine, limit: usize) -> Result<Vec<Partition>, AllocError>
    ensures ascending { IfOk result (λ found. AllPairs Before found.items) }
    ensures closed { IfOk result (λ found. All (IsClosedPartition m.now) found.items) }
    ensures all { IfOk result (λ found. length found.items ≤ limit → AreGenerators m.now found.items) }
{
    let one = Partition::one(alloc, m.states())?;
    principals_within(alloc, m, &one, limit)
}

/// The closed partitions in ascending order, or limit + 1 of them, as the joins of the least ones of two states.
fn joins_of(
    alloc: Global,
    m: &Machine,
    found: &[Partition],
    limit: usize,
) -> Result<Listing<BitPart>, AllocError>
    requires ascending { AllPairs Before found.now }
    requires closed { All (IsClosedPartition m.now) found.now }
    requires all { length found.now ≤ limit → AreGenerators m.now found.now }
    requires positive { 1 ≤ limit }
    requires bounded { limit ≤ 10000 }
    ensures whole { IfOk result (λ listing. IfWhole listing (Lists Before (IsClosedPartition m.now))) }
    ensures within { IfOk result (λ listing. IfWhole listing (λ items. length items ≤ limit)) }
    ensures no_more { IfOk result (λ listing. IfWhole listing (λ _. (partitions : List (List ℕ))
        → Evidence Before (IsClosedPartition m.now) limit partitions → ⊥)) }
    ensures more { IfOk result (λ listing. IfMore listing
        (Evidence Before (IsClosedPartition m.now) limit)) }
{
    let generators = in_rows(alloc, found)?;
    let world = BitWorld { n: m.states() };
    join_closure(alloc, &world, generators.as_slice(), limit)
}

/// The closed partitions in ascending order, or where there are more than the limit, limit + 1 of them.
///
/// Any limit + 1 of them may be given as evidence.
pub fn all(alloc: Global, m: &Machine, limit: usize) -> Result<Listing<BitPart>, AllocError>
    requires positive { 1 ≤ limit }
    requires bounded { limit ≤ 10000 }
    ensures whole { IfOk result (λ listing. IfWhole listing (Lists Before (IsClosedPartition m.now))) }
    ensures within { IfOk result (λ listing. IfWhole listing (λ items. length items ≤ limit)) }
    ensures no_more { IfOk result (λ listing. IfWhole listing (λ _. (partitions : List (List ℕ))
        → Evidence Before (IsClosedPartition m.now) limit partitions → ⊥)) }
    ensures more { IfOk result (λ listing. IfMore listing
        (Evidence Before (IsClosedPartition m.now) limit)) }
{
    let found = generators(alloc, m, limit)?;
    joins_of(alloc, m, found.as_slice(), limit)
}

/// Whether no partition of the list is strictly below this one. Such a partition has more blocks, and partitions
/// with more blocks come first.
fn is_least(found: &[Partition], p: &Partition) -> bool
    requires lawful { IsPartition (length p.now) p.now }
    requires found { All (IsPartition (length p.now)) found.now }
    requires ascending { AllPairs Before found.now }
    ensures { IsTrue result ↔ IsLeastAmong found.now p.now }
{
    for q in found {
        if q.blocks() <= p.blocks() {
            return true;
        }
        if q.le(p) {
            return false;
        }
    }
    true
}

/// Adds a copy of the partition, if none of the found ones is strictly below it.
fn add_least(
    alloc: Global,
    found: &[Partition],
    p: &Partition,
    list: &mut Vec<Partition>,
) -> Result<(), AllocError>
    requires lawful { IsPartition (length p.now) p.now }
    requires found { All (IsPartition (length p.now)) found.now }
    requires ascending { AllPairs Before found.now }
    ensures { OnOk result ((IsLeastAmong found.now p.now × (list.new.items ≡ list.old.items ++ p.now ∷ []))
        ⊎ ((IsLeastAmong found.now p.now → ⊥) × (list.new.items ≡ list.old.items))) }
{
    if is_least(found, p) {
        let copy = p.copy(alloc)?;
        list.push(copy)?;
    }
    Ok(())
}

/// The partitions that none of the found ones is strictly below.
fn least_of(alloc: Global, m: &Machine, found: &[Partition]) -> Result<Vec<Partition>, AllocError>
    requires { AreGenerators m.now found.now }
    ensures { IfOk result (λ list. Lists Before (IsAtom m.now) list.items) }
{
    let mut list = Vec::new(alloc);
    for p in found {
        add_least(alloc, found, p, &mut list)?;
    }
    Ok(list)
}

/// All least closed partitions other than zero, in ascending order.
pub fn atoms(alloc: Global, m: &Machine) -> Result<Vec<Partition>, AllocError>
    ensures { IfOk result (λ list. Lists Before (IsAtom m.now) list.items) }
{
    let found = generators(alloc, m, usize::MAX)?;
    least_of(alloc, m, found.as_slice())
}
