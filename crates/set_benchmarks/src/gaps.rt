//! Questions about lists of cubes.

ghost use Rattle.std.specs.Prelude.{◌≡◌, ◌<◌, ◌≤◌, ◌^◌, All};

use crate::cubes_of_kinds::cubes_of;
use anyhow::{Error, bail};
use bench_cases::Case;
use cubes::{Cube, first_gap};
use std::alloc::{AllocError, Global};

/// The number of cubes, and the answer about them: the first gap, or how many times a cube holds the symbol
/// that it is asked about.
pub(crate) fn answer(alloc: Global, case: Case<'_>) -> Result<(usize, usize), Error> {
    let width = if case.kind == "minterms" {
        case.size.clamp(1, 16) as u8
    } else {
        32
    };
    let cubes = cubes_of(alloc, case.kind, case.size, width)?;
    if !cubes.iter().all(|cube| cube.width == width) {
        bail!("the cubes are of several widths");
    }
    let mut found = 0;
    for _ in 0..case.times {
        found = match case.work {
            "gap" => gap(alloc, &cubes, width)?,
            "scan" => scan(&cubes, width),
            _ => bail!("no such question of cubes"),
        };
    }
    Ok((cubes.len(), found))
}

/// The first symbol that no cube holds, or the number of symbols if there is none.
fn gap(alloc: Global, cubes: &[Cube], width: u8) -> Result<usize, AllocError>
    requires positive { 0 < width }
    requires bound { width ≤ 32 }
    requires widths { All (λ c. c.width ≡ width) cubes.now }
{
    Ok(match first_gap(alloc, cubes, width)? {
        Some(x) => x as usize,
        None => 1 << width,
    })
}

/// How many times a cube holds the symbol that it is asked about. Each cube is asked once for each bit of a
/// symbol.
fn scan(cubes: &[Cube], width: u8) -> usize
    requires positive { 0 < width }
    requires widths { All (λ c. c.width ≡ width) cubes.now }
{
    let mut held = 0usize;
    for place in 0..width {
        held = held.wrapping_add(count_held(cubes, width, u32::from(place % 2)));
    }
    held
}

/// The number of cubes that hold the symbol.
fn count_held(cubes: &[Cube], width: u8, x: u32) -> usize
    requires widths { All (λ c. c.width ≡ width) cubes.now }
    requires symbol { x < 2 ^ width }
{
    let mut held = 0usize;
    for cube in cubes {
        held = held.wrapping_add(usize::from(cube.holds(x)));
    }
    held
}
