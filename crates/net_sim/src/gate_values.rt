//! The values of gates, by their rows, by cubes and by tables.

ghost use Rattle.std.specs.Prelude.{
  ◌≡◌,
  ◌+◌,
  ◌*◌,
  ◌<◌,
  ◌≤◌,
  ◌^◌,
  All,
  Bool,
  List,
  Some,
  false,
  true,
  length,
  slice_get,
  slice_index_or,
};
ghost use Rattle.std.specs.List.{list_any};
ghost use Rattle.cubes.specs.Cube.{holds as cube_holds};
ghost use Rattle.cubes.specs.Symbol.{number_of, symbol_of};
ghost use Rattle.net_core.specs.Step.{character_holds, row_holds};
ghost use Rattle.net_sim.specs.declared.forms.GateForm.{GateForm};
ghost use Rattle.net_sim.specs.Inner.GateValues.{bits_at, value_at, value_for};
ghost use Rattle.net_sim.specs.Inner.Forms.{IsCubes, IsForm};
ghost use Rattle.net_sim.specs.Inner.Pieces.{IsWide};

use crate::forms::GateForm;
use crate::pieces::{Pieces, holds_some, number_pieces};
use cubes::Cube;
use net_core::NumberedGate;

/// The value of a gate for the signals, by the form at this place if there is one.
pub(crate) fn value_by_any(
    forms: &[GateForm],
    place: usize,
    gate: &NumberedGate,
    signals: &[bool],
) -> bool
    requires within { All (λ s. s < length signals.now) gate.now.inputs.items }
    requires form { (form : GateForm) → slice_get forms.now place ≡ Some form → IsForm gate.now form }
    ensures { result ≡ value_at signals.now gate.now }
{
    match forms.get(place) {
        Some(form) => value_by(form, gate, signals),
        None => value_of(gate, &gate.inputs, signals),
    }
}

/// The value of a gate for the signals, by its form.
fn value_by(form: &GateForm, gate: &NumberedGate, signals: &[bool]) -> bool
    requires within { All (λ s. s < length signals.now) gate.now.inputs.items }
    requires form { IsForm gate.now form.now }
    ensures { result ≡ value_at signals.now gate.now }
{
    match form {
        GateForm::Small(small) => small.value(signals),
        GateForm::Table(table) => table.as_slice()[number_at(&gate.inputs, signals) as usize],
        GateForm::Cubes(cubes) => {
            value_of_cubes(gate, cubes.as_slice(), number_at(&gate.inputs, signals))
        }
        GateForm::Wide(rows) => value_of_pieces(gate, rows.as_slice(), signals),
        GateForm::Rows => value_of(gate, &gate.inputs, signals),
    }
}

/// The number whose bits are the signals of these numbers, the first bit the most significant.
pub(crate) fn number_at(numbers: &[usize], signals: &[bool]) -> u32
    requires few { length numbers.now ≤ 32 }
    requires within { All (λ s. s < length signals.now) numbers.now }
    ensures { result ≡ number_of (bits_at signals.now numbers.now) }
{
    let mut bits = 0;
    for number in numbers {
        bits = bits * 2 + u32::from(signals[*number]);
    }
    bits
}

/// The value of a gate for the bits of a number, by its cubes.
pub(crate) fn value_of_cubes(gate: &NumberedGate, cubes: &[Cube], number: u32) -> bool
    requires cubes { IsCubes gate.now cubes.now }
    requires number { number < 2 ^ length gate.now.inputs.items }
    ensures { result ≡ value_for gate.now (symbol_of (length gate.now.inputs.items) number) }
{
    let held = is_held(cubes, number);
    if held { gate.on } else { !gate.on }
}

/// Whether some cube holds the bits of a number.
fn is_held(cubes: &[Cube], number: u32) -> bool
    requires { All (λ cube. number < 2 ^ cube.width) cubes.now }
    ensures { result ≡ list_any (λ cube. cube_holds cube (symbol_of cube.width number)) cubes.now }
{
    for cube in cubes {
        if is_held_by(cube, number) {
            return true;
        }
    }
    false
}

/// Whether the cube holds the bits of a number.
pub(crate) fn is_held_by(cube: &Cube, number: u32) -> bool
    requires { number < 2 ^ cube.now.width }
    ensures { result ≡ cube_holds cube.now (symbol_of cube.now.width number) }
{
    cube.holds(number)
}

/// The value of a gate of many inputs, by the pieces of its rows.
fn value_of_pieces(gate: &NumberedGate, rows: &[Pieces], signals: &[bool]) -> bool
    requires few { length gate.now.inputs.items ≤ 256 }
    requires within { All (λ s. s < length signals.now) gate.now.inputs.items }
    requires wide { IsWide gate.now rows.now }
    ensures { result ≡ value_at signals.now gate.now }
{
    let mut numbers = [0u32; 8];
    number_pieces(&gate.inputs, signals, &mut numbers);
    let held = holds_some(rows, &numbers);
    if held { gate.on } else { !gate.on }
}

/// The value of a gate whose inputs are the signals of these numbers, by its rows.
fn value_of(gate: &NumberedGate, numbers: &[usize], signals: &[bool]) -> bool
    requires { All (λ s. s < length signals.now) numbers.now }
    ensures { result ≡ value_for gate.now (bits_at signals.now numbers.now) }
{
    for row in gate.rows.as_slice() {
        if holds(row.bytes(), numbers, signals) {
            return gate.on;
        }
    }
    !gate.on
}

/// Whether a row holds the signals of these numbers.
fn holds(row: &[u8], numbers: &[usize], signals: &[bool]) -> bool
    requires { All (λ s. s < length signals.now) numbers.now }
    ensures { result ≡ row_holds row.now (bits_at signals.now numbers.now) }
{
    if row.len() != numbers.len() {
        return false;
    }
    for (place, number) in numbers.iter().enumerate() {
        if !character_holds(row[place], signals[*number]) {
            return false;
        }
    }
    true
}

/// Whether a character of a row holds a bit.
fn character_holds(character: u8, bit: bool) -> bool
    ensures { result ≡ character_holds character bit }
{
    character == b'-' || character == if bit { b'1' } else { b'0' }
}
