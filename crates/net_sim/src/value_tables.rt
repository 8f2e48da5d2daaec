//! Makes the table of the values of a gate by halving. The first half has the values where the first input is 0,
//! for which only the cubes without a 1 there matter. The second half has those where it is 1. The half of a half is
//! made in the same way from the next input. Where no cube is left, or one allows all that is left, all values are
//! the same.

ghost use Rattle.std.specs.Prelude.{
  ℕ,
  ◌≡◌,
  ◌++◌,
  ◌<◌,
  ◌≤◌,
  IfNone,
  IfOk,
  IfSome,
  OnOk,
  false,
  true,
  filter,
  length,
  not,
};
ghost use Rattle.std.proofs.Math.ListN.{replicate};
ghost use Rattle.std.specs.List.{list_any};
ghost use Rattle.net_sim.specs.Inner.Forms.{IsCubes, IsValueTable};
ghost use Rattle.net_sim.specs.Inner.ValueTables.{HasAdded, allows_at, holds_low, low_value};

use cubes::{Cube, bit};
use hs_list::Items;
use net_core::NumberedGate;
use std::alloc::{AllocError, Global};

/// The values of a gate, by the numbers whose bits are those of its inputs.
pub(crate) fn table_of(
    alloc: Global,
    gate: &NumberedGate,
    cubes: &[Cube],
) -> Result<Items<bool>, AllocError>
    requires few { length gate.now.inputs.items ≤ 16 }
    requires cubes { IsCubes gate.now cubes.now }
    ensures { IfOk result (IsValueTable gate.now) }
{
    let mut table = Items::new(alloc);
    add_values(alloc, gate.on, cubes, gate.inputs.len(), &mut table)?;
    Ok(table)
}

/// Adds the values at all numbers of this many bits, by the characters of the cubes at their lowest places.
fn add_values(
    alloc: Global,
    on: bool,
    cubes: &[Cube],
    places: usize,
    table: &mut Items<bool>,
) -> Result<(), AllocError>
    requires { places ≤ 16 }
    ensures { OnOk result (HasAdded on cubes.now places table.old table.new) }
{
    if let Some(value) = shared_value(on, cubes, places) {
        return push_equal(table, value, 1 << places);
    }
    let place = places - 1;
    let with_zero = cubes_with(alloc, cubes, place, false)?;
    add_values(alloc, on, &with_zero, place, table)?;
    let with_one = cubes_with(alloc, cubes, place, true)?;
    add_values(alloc, on, &with_one, place, table)
}

/// The value at all of the numbers, if there is no cube, or one with dashes alone at the places.
fn shared_value(on: bool, cubes: &[Cube], places: usize) -> Option<bool>
    requires { places ≤ 16 }
    ensures some { IfSome result (λ value. (k : ℕ) → low_value on cubes.now places k ≡ value) }
    ensures none { IfNone result (0 < places) }
{
    if cubes.is_empty() {
        Some(!on)
    } else if places == 0 || some_is_open(cubes, places) {
        Some(on)
    } else {
        None
    }
}

/// Whether some cube has dashes alone at the lowest places.
fn some_is_open(cubes: &[Cube], places: usize) -> bool
    requires { places ≤ 16 }
    ensures { result ≡ true → (k : ℕ) → list_any (holds_low places k) cubes.now ≡ true }
{
    for cube in cubes {
        if cube.care % (1 << places) == 0 {
            return true;
        }
    }
    false
}

/// Adds this many equal values.
fn push_equal(table: &mut Items<bool>, value: bool, count: usize) -> Result<(), AllocError>
    ensures { OnOk result (table.new ≡ table.old ++ replicate count value) }
{
    for _ in 0..count {
        table.push(value)?;
    }
    Ok(())
}

/// The cubes that allow the bit at the place.
fn cubes_with(
    alloc: Global,
    cubes: &[Cube],
    place: usize,
    one: bool,
) -> Result<Vec<Cube>, AllocError>
    requires { place < 16 }
    ensures { IfOk result (λ kept. kept.items ≡ filter (allows_at place one) cubes.now) }
{
    cubes
        .iter()
        .copied()
        .filter(|cube| is_allowed(cube, place, one))
        .collect(alloc)
}

/// Whether the cube allows the bit at the place.
fn is_allowed(cube: &Cube, place: usize, one: bool) -> bool
    requires { place < 16 }
    ensures { result ≡ allows_at place one cube.now }
{
    !bit(u64::from(cube.care), place) || bit(u64::from(cube.value), place) == one
}
