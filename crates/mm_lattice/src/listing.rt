//! All Mm pairs, in order.
//!
//! An Mm pair is decided by its right side, and each right side m(p) is the join of the right sides
//! m(hold(s, t)) of the states s and t that are together in p. So the right sides are listed as joins of
//! partitions, and then the left side of each is made, once.

ghost use Rattle.std.specs.Prelude.{◌≤◌, All, AllPairs, IfOk, List, ℕ, length, map};
ghost use Rattle.hs_lattice.specs.Listing.{Evidence, IfMore, IfWhole, Lists, items_of};
ghost use Rattle.mm_lattice.specs.Inner.RightSides.{AreRights, HaveLefts, HaveRights, IsReached, ListsRights};
ghost use Rattle.mm_lattice.specs.Inner.PlacedPairs.{ArePlaced};
ghost use Rattle.mm_lattice.specs.MmPairs.{IsMmPair};
ghost use Rattle.partition.specs.Sides.{RightBefore, Sides};
ghost use Rattle.mm_lattice.specs.Sides.{sides_of};
ghost use Rattle.mm_lattice.specs.Top.{IsRightSide};
ghost use Rattle.partition.specs.Order.{Before};
ghost use Rattle.partition.specs.Partition.{IsPartition};

use crate::MmPair;
use crate::placed_pairs::{PlacedPair, left_by_pairs, placed_pairs};
use crate::right_sides::rights;
use crate::worlds::with_right_beside;
use hs_lattice::{Listing, join_closure};
use hs_list::Items;
use machine_table::Machine;
use pair_operators::AskedSymbols;
use partition::{PartWorld, Partition};
use std::alloc::{AllocError, Global};

/// The right sides in ascending order, or limit + 1 of them if there are more than the limit. They are joins of the
/// right sides of two states, which are found.
fn right_sides(
    alloc: Global,
    m: &Machine,
    found: &[Partition],
    limit: usize,
) -> Result<Listing<Partition>, AllocError>
    requires positive { 1 ≤ limit }
    requires bounded { limit ≤ 10000 }
    requires ascending { AllPairs Before found.now }
    requires found { AreRights m.now found.now }
    requires each { length found.now ≤ limit → HaveRights m.now (length m.now.states) found.now }
    ensures whole { IfOk result (λ listing. IfWhole listing (ListsRights m.now)) }
    ensures within { IfOk result (λ listing. IfWhole listing (λ items. length items ≤ limit)) }
    ensures no_more { IfOk result (λ listing. IfWhole listing (λ _. (rights : List (List ℕ))
        → Evidence Before (IsRightSide m.now) limit rights → ⊥)) }
    ensures more { IfOk result (λ listing. IfMore listing (Evidence Before (IsReached m.now) limit)) }
    ensures fit { IfOk result (λ listing. All (IsPartition (length m.now.states)) (items_of listing)) }
{
    let world = PartWorld { n: m.states() };
    join_closure(alloc, &world, found, limit)
}

/// The partitions, in their order, as right sides, each with M of it as its left side. The machine is asked for each.
fn with_lefts_asked(
    alloc: Global,
    m: &Machine,
    rights: Items<Partition>,
) -> Result<Items<MmPair>, AllocError>
    requires { All (IsPartition (length m.now.states)) rights }
    ensures { IfOk result (λ pairs. HaveLefts m.now rights (map sides_of pairs)) }
{
    let mut asked = AskedSymbols::new(alloc);
    let mut pairs = Vec::new(alloc);
    for right in rights.into_vec() {
        pairs.push(with_right_beside(alloc, m, &mut asked, right)?)?;
    }
    Ok(Items::from(pairs))
}

/// The partitions, in their order, as right sides, each with M of it as its left side, by the places of the right
/// sides of all pairs of states.
fn with_lefts_by_pairs(
    alloc: Global,
    m: &Machine,
    found: &[Partition],
    places: &[PlacedPair],
    rights: Items<Partition>,
) -> Result<Items<MmPair>, AllocError>
    requires found { All (IsPartition (length m.now.states)) found.now }
    requires places { ArePlaced m.now found.now places.now }
    requires rights { All (IsPartition (length m.now.states)) rights }
    ensures { IfOk result (λ pairs. HaveLefts m.now rights (map sides_of pairs)) }
{
    let mut pairs = Vec::new(alloc);
    for right in rights.into_vec() {
        let left = left_by_pairs(alloc, m, found, places, &right)?;
        pairs.push(MmPair { left, right })?;
    }
    Ok(Items::from(pairs))
}

/// The partitions, in their order, as right sides, each with M of it as its left side.
///
/// Unless the right sides of two states are more than the limit, all are found, and the rows are not asked again.
fn with_lefts(
    alloc: Global,
    m: &Machine,
    found: &[Partition],
    limit: usize,
    rights: Items<Partition>,
) -> Result<Items<MmPair>, AllocError>
    requires found { All (IsPartition (length m.now.states)) found.now }
    requires rights { All (IsPartition (length m.now.states)) rights }
    ensures { IfOk result (λ pairs. HaveLefts m.now rights (map sides_of pairs)) }
{
    if found.len() > limit {
        return with_lefts_asked(alloc, m, rights);
    }
    match placed_pairs(alloc, m, found)? {
        Some(places) => with_lefts_by_pairs(alloc, m, found, &places, rights),
        None => with_lefts_asked(alloc, m, rights),
    }
}

/// The Mm pairs in ascending order of their right sides, or limit + 1 of them if there are more than the limit.
///
/// Which pairs are the evidence is left open.
pub fn all(alloc: Global, m: &Machine, limit: usize) -> Result<Listing<MmPair>, AllocError>
    requires positive { 1 ≤ limit }
    requires bounded { limit ≤ 10000 }
    ensures whole { IfOk result (λ listing. IfWhole listing (λ items.
        Lists RightBefore (IsMmPair m.now) (map sides_of items))) }
    ensures within { IfOk result (λ listing. IfWhole listing (λ items. length items ≤ limit)) }
    ensures no_more { IfOk result (λ listing. IfWhole listing (λ _. (pairs : List Sides)
        → Evidence RightBefore (IsMmPair m.now) limit pairs → ⊥)) }
    ensures more { IfOk result (λ listing. IfMore listing (λ items.
        Evidence RightBefore (IsMmPair m.now) limit (map sides_of items))) }
{
    let found = rights(alloc, m, limit)?;
    match right_sides(alloc, m, &found, limit)? {
        Listing::Whole(sides) => Ok(Listing::Whole(with_lefts(alloc, m, &found, limit, sides)?)),
        Listing::More(sides) => Ok(Listing::More(with_lefts(alloc, m, &found, limit, sides)?)),
    }
}
