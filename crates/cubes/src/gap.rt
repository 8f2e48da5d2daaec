//! The first symbol that a list of cubes leaves out.
//!
//! A region is a cube whose symbols are searched for a gap, which is a symbol that no cube of the list holds.
//! Only the cubes that touch the region matter, and of these only their bits at the dashes of the region:
//!
//! - A cube that has no bit at a dash of the region holds the whole region.
//! - If all cubes that have a bit at some dash have the same bit there, fewer cubes hold the symbols with the
//!   other bit there, so only these symbols are searched.
//! - Otherwise the region is halved at a dash: at one for which the cubes that have a bit there hold most of
//!   the region.
//!
//! The least gap is found from some gap: from the highest place on, wherever the gap has a 1, the half with a 0
//! there is searched.
ghost use Rattle.std.specs.Prelude.{
  ℕ,
  ◌≡◌,
  ◌<◌,
  ◌≤◌,
  ◌^◌,
  ◌↔◌,
  All,
  Any,
  Bool,
  IfNone,
  IfOk,
  IfSome,
  IsTrue,
  filter,
  true,
};
ghost use Rattle.cubes.specs.Cube.{HoldsNumber};
ghost use Rattle.cubes.specs.Gap.{HoldsEach, IsFirstGap, IsHeld};
ghost use Rattle.cubes.specs.Symbol.{bit};
ghost use Rattle.cubes.specs.Inner.Region.{
  AreWanted,
  HasDashesBelow,
  HoldsRegion,
  IsGapIn,
  IsLeastGapIn,
  IsNarrowed,
  IsOpen,
  looked_at,
  touches,
};

use crate::cube::Cube;
use std::alloc::{AllocError, Global};

/// The least symbol of this width that no cube of the list holds, if there is one.
pub fn first_gap(alloc: Global, list: &[Cube], width: u8) -> Result<Option<u32>, AllocError>
    requires positive { 0 < width }
    requires bound { width ≤ 32 }
    requires widths { All (λ c. c.width ≡ width) list.now }
    ensures some { IfOk result (λ gap. IfSome gap (IsFirstGap list.now width)) }
    ensures none { IfOk result (λ gap. IfNone gap (HoldsEach list.now width)) }
{
    let whole = Cube::whole(width);
    match some_gap(alloc, list, &whole)? {
        Some(gap) => Ok(Some(least_gap(alloc, list, &whole, u32::from(width), gap)?)),
        None => Ok(None),
    }
}

/// The least gap of a region whose dashes are its lowest `places` places, from a known gap of the region.
fn least_gap(
    alloc: Global,
    list: &[Cube],
    region: &Cube,
    places: u32,
    gap: u32,
) -> Result<u32, AllocError>
    requires widths { All (λ c. c.width ≡ region.now.width) list.now }
    requires within { places ≤ region.now.width }
    requires shape { HasDashesBelow region.now places }
    requires gap { IsGapIn list.now region.now gap }
    ensures { IfOk result (IsLeastGapIn list.now region.now) }
{
    if places == 0 {
        return Ok(gap);
    }
    let place = places - 1;
    let low = region.half(place, false);
    match gap_in_half(alloc, list, &low, gap)? {
        Some(lower) => least_gap(alloc, list, &low, place, lower),
        None => least_gap(alloc, list, &region.half(place, true), place, gap),
    }
}

/// Some gap of the region, if there is one: the known gap, if it is in the region.
fn gap_in_half(
    alloc: Global,
    list: &[Cube],
    region: &Cube,
    known: u32,
) -> Result<Option<u32>, AllocError>
    requires widths { All (λ c. c.width ≡ region.now.width) list.now }
    requires within { known < 2 ^ region.now.width }
    requires without { ¬ IsHeld list.now known }
    ensures some { IfOk result (λ gap. IfSome gap (IsGapIn list.now region.now)) }
    ensures none { IfOk result (λ gap. IfNone gap (HoldsRegion list.now region.now)) }
{
    if region.holds(known) {
        Ok(Some(known))
    } else {
        some_gap(alloc, list, region)
    }
}

/// A symbol of the region that no cube of the list holds, if there is one.
fn some_gap(alloc: Global, list: &[Cube], region: &Cube) -> Result<Option<u32>, AllocError>
    requires { All (λ c. c.width ≡ region.now.width) list.now }
    ensures some { IfOk result (λ gap. IfSome gap (IsGapIn list.now region.now)) }
    ensures none { IfOk result (λ gap. IfNone gap (HoldsRegion list.now region.now)) }
{
    let cubes = touching(alloc, list, region)?;
    if holds_whole(&cubes, region) {
        return Ok(None);
    }
    let Wanted { ones, zeros } = wanted_bits(&cubes, region);
    let one_sided = ones ^ zeros;
    if one_sided != 0 {
        let against = narrowed(region, one_sided, zeros & one_sided);
        return some_gap(alloc, &cubes, &against);
    }
    if ones == 0 {
        return Ok(Some(region.value));
    }
    let place = most_looked_at(ones, &shares_of(&cubes, region));
    if let Some(gap) = some_gap(alloc, &cubes, &region.half(place, false))? {
        return Ok(Some(gap));
    }
    some_gap(alloc, &cubes, &region.half(place, true))
}

/// The cubes that share a symbol with the region.
fn touching(alloc: Global, list: &[Cube], region: &Cube) -> Result<Vec<Cube>, AllocError>
    ensures { IfOk result (λ cubes. cubes.items ≡ filter (touches region.now) list.now) }
{
    list.iter()
        .copied()
        .filter(|cube| is_touching(region, cube))
        .collect(alloc)
}

/// Whether there is no place where both have a bit and the bits differ.
fn is_touching(region: &Cube, cube: &Cube) -> bool
    ensures { result ≡ touches region.now cube.now }
{
    (cube.value ^ region.value) & cube.care & region.care == 0
}

/// The places where the cube has a bit and the region has a dash.
fn looks(region: &Cube, cube: &Cube) -> u32
    ensures { result ≡ looked_at region.now cube.now }
{
    cube.care & (cube.care ^ region.care)
}

/// Whether some cube has no bit at a dash of the region.
fn holds_whole(cubes: &[Cube], region: &Cube) -> bool
    ensures { IsTrue result ↔ Any (λ c. looked_at region.now c ≡ 0) cubes.now }
{
    for cube in cubes {
        if looks(region, cube) == 0 {
            return true;
        }
    }
    false
}

/// The dashes of a region at which some cube has a 1, and those at which some cube has a 0.
#[derive(Clone, Copy)]
struct Wanted {
    ones: u32,
    zeros: u32,
}

/// The bits that the cubes have at the dashes of the region.
fn wanted_bits(cubes: &[Cube], region: &Cube) -> Wanted
    requires { All (λ c. c.width ≡ region.now.width) cubes.now }
    ensures { AreWanted cubes.now region.now result.ones result.zeros }
{
    let mut ones = 0u32;
    let mut zeros = 0u32;
    for cube in cubes {
        let looks = looks(region, cube);
        ones |= looks & cube.value;
        zeros |= looks & (looks ^ cube.value);
    }
    Wanted { ones, zeros }
}

/// The one of these places for which the cubes with a bit there hold most of the region.
fn most_looked_at(places: u32, shares: &[u64; 32]) -> u32
    requires { 0 < places }
    ensures { bit places result ≡ true }
{
    let mut best = places.ilog2();
    let mut most = 0;
    for place in 0..32 {
        let share = shares[place as usize];
        if has_bit(places, place) && most < share {
            best = place;
            most = share;
        }
    }
    best
}

/// For each place, how much of the region the cubes with a bit there hold in all, where the whole region is
/// 2^32.
fn shares_of(cubes: &[Cube], region: &Cube) -> [u64; 32] {
    let mut shares = [0u64; 32];
    for cube in cubes {
        add_share(&mut shares, looks(region, cube));
    }
    shares
}

/// Adds what a cube holds at the places where it has a bit: half for each of them.
fn add_share(shares: &mut [u64; 32], looks: u32) {
    let share = (1u64 << 32) >> looks.count_ones();
    let mut rest = looks;
    while rest != 0 {
        if let Some(sum) = shares.get_mut(rest.trailing_zeros() as usize) {
            *sum = sum.saturating_add(share);
        }
        rest &= rest - 1;
    }
}

/// Whether the number has a 1 at the place.
fn has_bit(number: u32, place: u32) -> bool
    requires { place < 32 }
    ensures { result ≡ bit number place }
{
    (number >> place) & 1 == 1
}

/// The symbols of the region that have these bits at these of its dashes.
fn narrowed(region: &Cube, places: u32, bits: u32) -> Cube
    requires dashes { (k : ℕ) → bit places k ≡ true → IsOpen region.now k }
    requires bits { (k : ℕ) → bit bits k ≡ true → bit places k ≡ true }
    ensures { IsNarrowed region.now result places bits }
{
    Cube {
        care: region.care | places,
        value: region.value | bits,
        width: region.width,
    }
}
