//! All joins of lists of generators, by a pass of each generator over the values known before it.

ghost use Rattle.std.specs.Prelude.{◌≡◌, ◌+◌, ◌<◌, ◌≤◌, List, length, map, slice_index_or, IfOk, OnOk, All};
ghost use Rattle.hs_lattice.specs.Collection.{items_in, Adds, IsAscending, IsCollection, Knows};
ghost use Rattle.hs_lattice.specs.JoinWorld.{IsGenerated, HaveJoins};
ghost use Rattle.hs_lattice.specs.Listing.{Lists, Evidence, IfWhole, IfMore, items_of};
ghost use Rattle.hs_lattice.specs.Inner.Passes.{AddsJoin, Extends, IsPicked, KnowsJoins};

use crate::{Collection, JoinWorld, Listing};
use std::alloc::{AllocError, Global};

/// Makes the value of an item known, by a copy of the item.
fn keep<W: JoinWorld>(
    alloc: Global,
    world: &W,
    kept: &mut Collection<W::Item>,
    item: &W::Item,
) -> Result<(), AllocError>
    requires world { W.lawful world.now }
    requires kept { IsCollection W.meaning (W.fits world.now) (W.precedes world.now) kept.old }
    requires item { W.fits world.now (W.meaning item.now) }
    ensures kept { OnOk result (IsCollection W.meaning (W.fits world.now) (W.precedes world.now) kept.new) }
    ensures adds { OnOk result (Adds W.meaning (items_in kept.old) (W.meaning item.now) (items_in kept.new)) }
{
    if !kept.holds(world, item) {
        let copy = world.copy(alloc, item)?;
        kept.add(world, copy)?;
    }
    Ok(())
}

/// The generators in ascending order, equal ones only once; or limit + 1 of them, if there are more than the
/// limit.
fn distinct<W: JoinWorld>(
    alloc: Global,
    world: &W,
    generators: &[W::Item],
    limit: usize,
) -> Result<Listing<W::Item>, AllocError>
    requires world { W.lawful world.now }
    requires generators { All (λ x. W.fits world.now (W.meaning x)) generators.now }
    ensures picked { IfOk result (λ listing. IsPicked W.meaning (W.precedes world.now)
        generators.now (items_of listing)) }
    ensures all { IfOk result (λ listing. IfWhole listing (λ items. (z : W.Meaning)
        → Knows W.meaning generators.now z → Knows W.meaning items z)) }
    ensures more { IfOk result (λ listing. IfMore listing (λ items. length items ≡ limit + 1)) }
{
    let mut kept = Collection::new(alloc);
    for generator in generators {
        keep(alloc, world, &mut kept, generator)?;
        if kept.len() > limit {
            return Ok(Listing::More(kept.ascending(alloc, world)?));
        }
    }
    Ok(Listing::Whole(kept.ascending(alloc, world)?))
}

/// Makes the join of a generator and a known value known.
fn add_join<W: JoinWorld>(
    alloc: Global,
    world: &W,
    known: &mut Collection<W::Item>,
    place: usize,
    generator: &W::Item,
) -> Result<(), AllocError>
    requires world { W.lawful world.now }
    requires known { IsCollection W.meaning (W.fits world.now) (W.precedes world.now) known.old }
    requires place { place < length (items_in known.old) }
    requires generator { W.fits world.now (W.meaning generator.now) }
    ensures known { OnOk result (IsCollection W.meaning (W.fits world.now) (W.precedes world.now) known.new) }
    ensures adds { OnOk result (AddsJoin W.meaning (W.joins world.now) (items_in known.old)
        (W.meaning generator.now) (W.meaning (slice_index_or (items_in known.old) place generator.now))
        (items_in known.new)) }
{
    let value = &known.as_slice()[place];
    let joined = world.join(alloc, generator, value)?;
    if !world.same(&joined, value) {
        known.add(world, joined)?;
    }
    Ok(())
}

/// Makes the joins of a generator with the known values known, and stops when more values than the limit are
/// known.
fn add_joins<W: JoinWorld>(
    alloc: Global,
    world: &W,
    known: &mut Collection<W::Item>,
    generator: &W::Item,
    limit: usize,
) -> Result<(), AllocError>
    requires world { W.lawful world.now }
    requires known { IsCollection W.meaning (W.fits world.now) (W.precedes world.now) known.old }
    requires generator { W.fits world.now (W.meaning generator.now) }
    requires small { length (items_in known.old) ≤ limit }
    ensures known { OnOk result (IsCollection W.meaning (W.fits world.now) (W.precedes world.now) known.new) }
    ensures extends { OnOk result (Extends W.meaning (W.joins world.now)
        (items_in known.old) (W.meaning generator.now) (items_in known.new)) }
    ensures all { OnOk result (length (items_in known.new) ≤ limit → KnowsJoins W.meaning (W.joins world.now)
        (items_in known.old) (W.meaning generator.now) (items_in known.new)) }
    ensures few { OnOk result (length (items_in known.new) ≤ limit + 1) }
{
    for place in 0..known.len() {
        add_join(alloc, world, known, place, generator)?;
        if known.len() > limit {
            return Ok(());
        }
    }
    Ok(())
}

/// The joins of lists of these generators; or limit + 1 of them, if there are more than the limit.
fn joins_of<W: JoinWorld>(
    alloc: Global,
    world: &W,
    generators: &[W::Item],
    bottom: W::Item,
    limit: usize,
) -> Result<Listing<W::Item>, AllocError>
    requires world { W.lawful world.now }
    requires generators { All (λ x. W.fits world.now (W.meaning x)) generators.now }
    requires bottom { W.least world.now (W.meaning bottom) }
    requires positive { 1 ≤ limit }
    requires bounded { limit ≤ 10000 }
    ensures whole { IfOk result (λ listing. IfWhole listing (λ items. Lists (W.precedes world.now)
        (IsGenerated (W.least world.now) (W.joins world.now) (map W.meaning generators.now))
        (map W.meaning items))) }
    ensures joined { IfOk result (λ listing. IfWhole listing (λ _. HaveJoins (W.least world.now)
        (W.joins world.now) (map W.meaning generators.now))) }
    ensures within { IfOk result (λ listing. IfWhole listing (λ items. length items ≤ limit)) }
    ensures more { IfOk result (λ listing. IfMore listing (λ items. Evidence (W.precedes world.now)
        (IsGenerated (W.least world.now) (W.joins world.now) (map W.meaning generators.now))
        limit (map W.meaning items))) }
    ensures fit { IfOk result (λ listing. All (λ x. W.fits world.now (W.meaning x)) (items_of listing)) }
{
    let mut known = Collection::new(alloc);
    known.add(world, bottom)?;
    for generator in generators {
        if known.holds(world, generator) {
            continue;
        }
        add_joins(alloc, world, &mut known, generator, limit)?;
        if known.len() > limit {
            return Ok(Listing::More(known.ascending(alloc, world)?));
        }
    }
    Ok(Listing::Whole(known.ascending(alloc, world)?))
}

/// The joins of lists of generators in ascending order; the empty list gives the least value.
///
/// The limit is on the number of values. If there are more, the listing is [`Listing::More`] with limit + 1 of
/// them, also in ascending order; which ones is left open. More different generators than the limit are such values
/// themselves, so a caller may stop finding generators once there are more. Equal generators count once, and a
/// generator that is a join of earlier ones is joined with nothing. So the number of joins is at most the number of
/// values times the number of the other generators. The memory taken is that of the values and of the different generators,
/// of three numbers for each of them, and of what vectors keep in reserve.
pub fn join_closure<W: JoinWorld>(
    alloc: Global,
    world: &W,
    generators: &[W::Item],
    limit: usize,
) -> Result<Listing<W::Item>, AllocError>
    requires world { W.lawful world.now }
    requires generators { All (λ x. W.fits world.now (W.meaning x)) generators.now }
    requires positive { 1 ≤ limit }
    requires bounded { limit ≤ 10000 }
    ensures whole { IfOk result (λ listing. IfWhole listing (λ items. Lists (W.precedes world.now)
        (IsGenerated (W.least world.now) (W.joins world.now) (map W.meaning generators.now))
        (map W.meaning items))) }
    ensures joined { IfOk result (λ listing. IfWhole listing (λ _. HaveJoins (W.least world.now)
        (W.joins world.now) (map W.meaning generators.now))) }
    ensures within { IfOk result (λ listing. IfWhole listing (λ items. length items ≤ limit)) }
    ensures few { IfOk result
        (λ listing. IfWhole listing (λ _. IsAscending W.meaning (W.precedes world.now) generators.now
        → length generators.now ≤ limit)) }
    ensures no_more { IfOk result (λ listing. IfWhole listing (λ _. (values : List W.Meaning)
        → Evidence (W.precedes world.now) (IsGenerated (W.least world.now) (W.joins world.now)
        (map W.meaning generators.now)) limit values → ⊥)) }
    ensures more { IfOk result (λ listing. IfMore listing (λ items. Evidence (W.precedes world.now)
        (IsGenerated (W.least world.now) (W.joins world.now) (map W.meaning generators.now))
        limit (map W.meaning items))) }
    ensures fit { IfOk result (λ listing. All (λ x. W.fits world.now (W.meaning x)) (items_of listing)) }
{
    let bottom = world.bottom(alloc)?;
    match distinct(alloc, world, generators, limit)? {
        Listing::Whole(kept) => joins_of(alloc, world, kept.as_slice(), bottom, limit),
        Listing::More(some) => Ok(Listing::More(some)),
    }
}

/// A value that is generated by values of a lawful world is one of its values. This is a law: the function does
/// nothing.
pub fn generated_fit<W: JoinWorld>(world: &W)
    requires { W.lawful world.now }
    ensures { (generators : List W.Meaning) (z : W.Meaning) → All (W.fits world.now) generators
        → IsGenerated (W.least world.now) (W.joins world.now) generators z → W.fits world.now z }
{}
