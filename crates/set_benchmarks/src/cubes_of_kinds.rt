//! Lists of cubes. Each kind is first made as pairs of care and value.

ghost use Rattle.std.specs.Prelude.{◌≡◌, ◌<◌, ◌≤◌, IfSome};

use bench_cases::{drawn, drawn_word};
use cubes::Cube;
use std::alloc::{AllocError, Global};

/// The care and the value of a cube.
type Pair = (u32, u32);

/// The cubes of the given kind, size and width.
///
/// - `minterms` are all symbols of the width, in a scattered order.
/// - `random` are `size` cubes, but at least 32, that leave one gap. `mirrored` are the same with their places
///   reversed: their tree cuts at the last places first.
/// - `chain` and `pairs` leave no gap, and have bits at the last places, as many as the size says. `pairs` also
///   has bits at places of the first half.
/// - `five` and `seven` are `size` cubes with bits at five or seven random places, or at fewer if a place comes
///   twice.
pub(crate) fn cubes_of(
    alloc: Global,
    kind: &str,
    size: usize,
    width: u8,
) -> Result<Vec<Cube>, AllocError>
    requires positive { 0 < width }
    requires bound { width ≤ 32 }
{
    let mut pairs = Vec::new(alloc);
    match kind {
        "minterms" => add_minterms(&mut pairs, width)?,
        "random" | "mirrored" => add_random(&mut pairs, size)?,
        "chain" => add_chain(&mut pairs, size, false)?,
        "pairs" => add_chain(&mut pairs, size.min(16), true)?,
        "five" => add_scattered(&mut pairs, size, 5)?,
        _ => add_scattered(&mut pairs, size, 7)?,
    }
    made(alloc, &pairs, width, kind == "random")
}

/// The cubes of pairs, with their places in reverse order if `turned`.
fn made(alloc: Global, pairs: &[Pair], width: u8, turned: bool) -> Result<Vec<Cube>, AllocError>
    requires positive { 0 < width }
    requires bound { width ≤ 32 }
{
    let mut cubes = Vec::new(alloc);
    for (care, value) in pairs {
        let (care, value) = if turned {
            (care.reverse_bits(), value.reverse_bits())
        } else {
            (*care, *value)
        };
        if let Some(cube) = cube_of(care, value, width) {
            cubes.push(cube)?;
        }
    }
    Ok(cubes)
}

/// The cube of a care and a value, if they fit.
fn cube_of(care: u32, value: u32, width: u8) -> Option<Cube>
    requires positive { 0 < width }
    requires bound { width ≤ 32 }
{
    if u64::from(care) < 1u64 << width && care & value == value {
        Some(Cube { care, value, width })
    } else {
        None
    }
}

/// Adds all symbols of a width, in a scattered order.
fn add_minterms(pairs: &mut Vec<Pair>, width: u8) -> Result<(), AllocError>
    requires positive { 0 < width }
    requires bound { width ≤ 32 }
{
    let care = u32::MAX >> (32 - width);
    for i in 0..=care {
        pairs.push((care, i.wrapping_mul(40_503) & care))?;
    }
    Ok(())
}

/// Adds cubes that leave no gap: one with a 1 at the last place, one with 0 there and 1 at the place before it,
/// and so on, and one with 0 at all of these places. If `two`, each cube with a 1 is replaced by two cubes:
/// they have a 0 and a 1 at a place of the first half, which no other cubes use.
fn add_chain(pairs: &mut Vec<Pair>, length: usize, two: bool) -> Result<(), AllocError> {
    let length = length.clamp(1, 32);
    for place in 0..length {
        let (care, value) = (u32::MAX >> (31 - place), 1u32 << place);
        if two {
            let first = 1u32 << (31 - place);
            pairs.push((care | first, value))?;
            pairs.push((care | first, value | first))?;
        } else {
            pairs.push((care, value))?;
        }
    }
    pairs.push((u32::MAX >> (32 - length), 0))?;
    Ok(())
}

/// Adds `count` cubes, each with bits at up to `bits` random places.
fn add_scattered(pairs: &mut Vec<Pair>, count: usize, bits: u64) -> Result<(), AllocError> {
    for number in 0..count as u64 {
        let care = scattered_care(number, bits);
        pairs.push((care, drawn_word(number, 99) & care))?;
    }
    Ok(())
}

/// Up to `bits` random places.
fn scattered_care(number: u64, bits: u64) -> u32 {
    let mut care = 0u32;
    for i in 0..bits {
        care |= 1 << (drawn(number, i) % 32);
    }
    care
}

/// Adds `count` cubes, but at least 32, that leave one gap. About half of them are the leaves of a tree that
/// cuts the symbols at random by one bit or another. Along each path of the tree the bits rise. One leaf is cut
/// down to a single symbol, which is the gap. The other cubes have bits at random places, and do not hold the
/// gap.
fn add_random(pairs: &mut Vec<Pair>, count: usize) -> Result<(), AllocError> {
    pairs.push((0, 0))?;
    for made in 1..(count / 2).saturating_sub(32) {
        cut_leaf(pairs, drawn(made as u64, 0))?;
    }
    let gap = cut_to_symbol(pairs)?;
    for made in pairs.len()..count {
        pairs.push(pair_without(gap, made as u64))?;
    }
    Ok(())
}

/// Cuts one of the leaves in two, by a bit at the next place or at the one after it.
fn cut_leaf(pairs: &mut Vec<Pair>, draw: u64) -> Result<(), AllocError> {
    let chosen = (draw >> 8) as usize % pairs.len().max(1);
    if chosen < pairs.len() {
        let (care, value) = pairs[chosen];
        let place = 32u32
            .saturating_sub(care.leading_zeros())
            .wrapping_add((draw % 2) as u32);
        if place < 32 {
            let bit = 1u32 << place;
            let (one, other) = if draw & 2 == 0 { (0, bit) } else { (bit, 0) };
            pairs[chosen] = (care | bit, value | one);
            pairs.push((care | bit, value | other))?;
        }
    }
    Ok(())
}

/// Replaces the last pair by pairs that hold all of its symbols but one, and returns that one.
fn cut_to_symbol(pairs: &mut Vec<Pair>) -> Result<u32, AllocError> {
    let (mut care, mut value) = pairs.pop().unwrap_or((0, 0));
    let draws = drawn_word(7, 7);
    for place in 0..32u32 {
        let bit = 1u32 << place;
        if care & bit == 0 {
            care |= bit;
            pairs.push((care, value | (!draws & bit)))?;
            value |= draws & bit;
        }
    }
    Ok(value)
}

/// A pair with bits at about a quarter of the places, which differs from the symbol at one of them at least.
fn pair_without(symbol: u32, number: u64) -> Pair {
    let bit = 1u32 << (drawn(number, 1) % 32);
    let care = drawn_word(number, 2) & drawn_word(number, 3) | bit;
    let value = drawn_word(number, 4) & !bit | !symbol & bit;
    (care, value & care)
}
