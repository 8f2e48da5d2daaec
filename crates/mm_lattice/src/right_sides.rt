//! The right sides of all pairs of states.

ghost use Rattle.std.specs.Prelude.{◌+◌, ◌<◌, ◌≤◌, AllPairs, IfOk, OnOk, length};
ghost use Rattle.hs_lattice.specs.Collection.{IsCollection, items_in};
ghost use Rattle.mm_lattice.specs.Generators.{IsRightOf};
ghost use Rattle.mm_lattice.specs.Inner.RightSides.{AreRights, HaveRights};
ghost use Rattle.partition.specs.Order.{Before};
ghost use Rattle.partition.specs.Partition.{IsPartition};

use hs_lattice::Collection;
use machine_table::Machine;
use partition::{PartWorld, Partition};
use std::alloc::{AllocError, Global};

/// m of the partition that holds the two states together and nothing else: their right side.
///
/// It holds together what the two states go to, and nothing else.
pub(crate) fn right_of(
    alloc: Global,
    m: &Machine,
    s: usize,
    t: usize,
) -> Result<Partition, AllocError>
    requires s { s < t }
    requires t { t < length m.now.states }
    ensures { IfOk result (IsRightOf m.now s t) }
{
    let mut right = Partition::zero(alloc, m.states())?;
    m.merge_images(alloc, s, t, &mut right)?;
    Ok(right)
}

/// Adds the right sides of a state with each state before it.
fn add_rights(
    alloc: Global,
    m: &Machine,
    t: usize,
    found: &mut Collection<Partition>,
) -> Result<(), AllocError>
    requires t { t < length m.now.states }
    requires collection { IsCollection (λ p. p) (IsPartition (length m.now.states)) Before found.old }
    requires found { AreRights m.now (items_in found.old) }
    requires before { HaveRights m.now t (items_in found.old) }
    ensures collection { OnOk result (IsCollection (λ p. p) (IsPartition (length m.now.states)) Before found.new) }
    ensures found { OnOk result (AreRights m.now (items_in found.new)) }
    ensures each { OnOk result (HaveRights m.now (t + 1) (items_in found.new)) }
{
    let world = PartWorld { n: m.states() };
    for s in 0..t {
        let right = right_of(alloc, m, s, t)?;
        found.add(&world, right)?;
    }
    Ok(())
}

/// The right sides of all pairs of states, or more of them than the limit.
fn collected(alloc: Global, m: &Machine, limit: usize) -> Result<Collection<Partition>, AllocError>
    ensures collection { IfOk result (IsCollection (λ p. p) (IsPartition (length m.now.states)) Before) }
    ensures found { IfOk result (λ found. AreRights m.now (items_in found)) }
    ensures each { IfOk result (λ found. length (items_in found) ≤ limit
        → HaveRights m.now (length m.now.states) (items_in found)) }
{
    let mut found = Collection::new(alloc);
    for t in 0..m.states() {
        add_rights(alloc, m, t, &mut found)?;
        if found.len() > limit {
            return Ok(found);
        }
    }
    Ok(found)
}

/// The right sides of all pairs of states, each once, in ascending order, or more of them than the limit.
pub(crate) fn rights(alloc: Global, m: &Machine, limit: usize) -> Result<Vec<Partition>, AllocError>
    ensures ascending { IfOk result (λ found. AllPairs Before found.items) }
    ensures found { IfOk result (λ found. AreRights m.now found.items) }
    ensures each { IfOk result (λ found. length found.items ≤ limit
        → HaveRights m.now (length m.now.states) found.items) }
{
    let world = PartWorld { n: m.states() };
    let found = collected(alloc, m, limit)?;
    Ok(found.ascending(alloc, &world)?.into_vec())
}
