//! The right sides of all pairs of members.

ghost use Rattle.std.specs.Prelude.{◌+◌, ◌<◌, ◌≤◌, AllPairs, IfOk, OnOk, length};
ghost use Rattle.hs_lattice.specs.Collection.{IsCollection, items_in};
ghost use Rattle.io_pairs.specs.Inner.RightSides.{AreRights, HaveRights, IsRightOf};
ghost use Rattle.io_pairs.specs.Inner.Families.{IsFamily, functions_of};
ghost use Rattle.partition.specs.Order.{Before};
ghost use Rattle.partition.specs.Partition.{IsPartition};

use crate::family::Family;
use crate::least::tie;
use hs_lattice::Collection;
use partition::{PartWorld, Partition};
use std::alloc::{AllocError, Global};

/// The least partition of the values in which two members go together.
fn right_of(alloc: Global, family: &Family, x: usize, y: usize) -> Result<Partition, AllocError>
    requires family { IsFamily family.now }
    requires x { x < family.now.members }
    requires y { y < family.now.members }
    ensures { IfOk result (IsRightOf family.now.values (functions_of family.now) x y) }
{
    let mut right = Partition::zero(alloc, family.values)?;
    tie(family, x, y, &mut right);
    Ok(right)
}

/// Adds the right sides of a member with each member before it.
fn add_rights(
    alloc: Global,
    family: &Family,
    y: usize,
    found: &mut Collection<Partition>,
) -> Result<(), AllocError>
    requires family { IsFamily family.now }
    requires y { y < family.now.members }
    requires collection { IsCollection (λ p. p) (IsPartition family.now.values) Before found.old }
    requires found { AreRights family.now.members family.now.values (functions_of family.now) (items_in found.old) }
    requires before { HaveRights family.now.values (functions_of family.now) y (items_in found.old) }
    ensures collection { OnOk result (IsCollection (λ p. p) (IsPartition family.now.values) Before found.new) }
    ensures found { OnOk result
        (AreRights family.now.members family.now.values (functions_of family.now) (items_in found.new)) }
    ensures each { OnOk result (HaveRights family.now.values (functions_of family.now) (y + 1) (items_in found.new)) }
{
    let world = PartWorld { n: family.values };
    for x in 0..y {
        let right = right_of(alloc, family, x, y)?;
        found.add(&world, right)?;
    }
    Ok(())
}

/// The right sides of all pairs of members, or more of them than the limit.
fn collected(
    alloc: Global,
    family: &Family,
    limit: usize,
) -> Result<Collection<Partition>, AllocError>
    requires { IsFamily family.now }
    ensures collection { IfOk result (IsCollection (λ p. p) (IsPartition family.now.values) Before) }
    ensures found { IfOk result
        (λ found. AreRights family.now.members family.now.values (functions_of family.now) (items_in found)) }
    ensures each { IfOk result (λ found. length (items_in found) ≤ limit
        → HaveRights family.now.values (functions_of family.now) family.now.members (items_in found)) }
{
    let mut found = Collection::new(alloc);
    for y in 0..family.members {
        add_rights(alloc, family, y, &mut found)?;
        if found.len() > limit {
            return Ok(found);
        }
    }
    Ok(found)
}

/// The right sides of all pairs of members, each once, in ascending order, or more of them than the limit.
pub(crate) fn rights(
    alloc: Global,
    family: &Family,
    limit: usize,
) -> Result<Vec<Partition>, AllocError>
    requires { IsFamily family.now }
    ensures ascending { IfOk result (λ found. AllPairs Before found.items) }
    ensures found { IfOk result
        (λ found. AreRights family.now.members family.now.values (functions_of family.now) found.items) }
    ensures each { IfOk result (λ found. length found.items ≤ limit
        → HaveRights family.now.values (functions_of family.now) family.now.members found.items) }
{
    let world = PartWorld { n: family.values };
    let found = collected(alloc, family, limit)?;
    Ok(found.ascending(alloc, &world)?.into_vec())
}
