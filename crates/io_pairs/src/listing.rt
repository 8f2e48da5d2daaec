//! All Mm pairs of a family, in order.
//!
//! An Mm pair is decided by its right side. For each two members that are together in its left side, take the
//! least partition in which they go together: the right side is the join of these. So the right sides are
//! listed as joins, and then the left side of each is made, once.

ghost use Rattle.std.specs.Prelude.{◌≤◌, All, IfOk, List, ℕ, length, map};
ghost use Rattle.hs_lattice.specs.Listing.{Evidence, IfMore, IfWhole, Lists, items_of};
ghost use Rattle.io_pairs.specs.Inner.RightSides.{HaveLefts, IsFamilyMm, IsReached, IsRightSide, ListsRights};
ghost use Rattle.io_pairs.specs.Inner.Families.{IsFamily, functions_of};
ghost use Rattle.partition.specs.Sides.{RightBefore, Sides};
ghost use Rattle.io_pairs.specs.Sides.{sides_of};
ghost use Rattle.partition.specs.Order.{Before};
ghost use Rattle.partition.specs.Partition.{IsPartition};

use crate::IoPair;
use crate::family::Family;
use crate::greatest::greatest_partner;
use crate::right_sides::rights;
use hs_lattice::{Listing, join_closure};
use hs_list::Items;
use partition::{PartWorld, Partition};
use std::alloc::{AllocError, Global};

/// The right sides in ascending order, or limit + 1 of them if there are more than the limit.
fn right_sides(
    alloc: Global,
    family: &Family,
    limit: usize,
) -> Result<Listing<Partition>, AllocError>
    requires family { IsFamily family.now }
    requires positive { 1 ≤ limit }
    requires bounded { limit ≤ 10000 }
    ensures whole { IfOk result (λ listing. IfWhole listing
        (ListsRights family.now.members family.now.values (functions_of family.now))) }
    ensures within { IfOk result (λ listing. IfWhole listing (λ items. length items ≤ limit)) }
    ensures no_more { IfOk result (λ listing. IfWhole listing (λ _. (rights : List (List ℕ))
        → Evidence Before (IsRightSide family.now.members family.now.values (functions_of family.now)) limit rights
        → ⊥)) }
    ensures more { IfOk result (λ listing. IfMore listing
        (Evidence Before (IsReached family.now.members family.now.values (functions_of family.now)) limit)) }
    ensures fit { IfOk result (λ listing. All (IsPartition family.now.values) (items_of listing)) }
{
    let world = PartWorld { n: family.values };
    let found = rights(alloc, family, limit)?;
    join_closure(alloc, &world, found.as_slice(), limit)
}

/// The partitions, in their order, as right sides, each with its greatest partner as its left side.
fn with_lefts(
    alloc: Global,
    family: &Family,
    rights: Items<Partition>,
) -> Result<Items<IoPair>, AllocError>
    requires family { IsFamily family.now }
    requires rights { All (IsPartition family.now.values) rights }
    ensures { IfOk result
        (λ pairs. HaveLefts family.now.members (functions_of family.now) rights (map sides_of pairs)) }
{
    let mut pairs = Vec::new(alloc);
    for right in rights.into_vec() {
        let left = greatest_partner(alloc, family, &right)?;
        pairs.push(IoPair { left, right })?;
    }
    Ok(Items::from(pairs))
}

/// The Mm pairs in ascending order of their right sides, or limit + 1 of them if there are more than the limit.
pub(crate) fn listed(
    alloc: Global,
    family: &Family,
    limit: usize,
) -> Result<Listing<IoPair>, AllocError>
    requires family { IsFamily family.now }
    requires positive { 1 ≤ limit }
    requires bounded { limit ≤ 10000 }
    ensures whole { IfOk result (λ listing. IfWhole listing (λ items. Lists RightBefore
        (IsFamilyMm family.now.members family.now.values (functions_of family.now)) (map sides_of items))) }
    ensures within { IfOk result (λ listing. IfWhole listing (λ items. length items ≤ limit)) }
    ensures no_more { IfOk result (λ listing. IfWhole listing (λ _. (pairs : List Sides) → Evidence RightBefore
        (IsFamilyMm family.now.members family.now.values (functions_of family.now)) limit pairs → ⊥)) }
    ensures more { IfOk result (λ listing. IfMore listing (λ items. Evidence RightBefore
        (IsFamilyMm family.now.members family.now.values (functions_of family.now)) limit (map sides_of items))) }
{
    match right_sides(alloc, family, limit)? {
        Listing::Whole(rights) => Ok(Listing::Whole(with_lefts(alloc, family, rights)?)),
        Listing::More(rights) => Ok(Listing::More(with_lefts(alloc, family, rights)?)),
    }
}
