//! Makes the forms by which gates are evaluated.

ghost use Rattle.std.specs.Prelude.{◌≡◌, ◌<◌, ◌≤◌, ◌^◌, ◌||◌, true, All, Bool, List, IfOk, OnOk, length};
ghost use Rattle.std.specs.List.{list_any};
ghost use Rattle.cubes.specs.Cube.{holds};
ghost use Rattle.net_core.specs.Step.{row_holds};
ghost use Rattle.net_sim.specs.Inner.Forms.{AreForms, HasValues, IsCubes, IsForm, IsSmall};

use crate::gate_values::value_of_cubes;
use crate::pieces::{Pieces, wide_rows};
use crate::small_gates::{MOST_SMALL, SmallGate};
use crate::value_tables::table_of;
use cubes::Cube;
use hs_list::Items;
use net_core::NumberedGate;
use std::alloc::{AllocError, Global};

/// The form by which a gate is evaluated.
#[derive(Drop)]
pub(crate) enum GateForm {
    /// The gate with its values in a word.
    Small(SmallGate),
    /// Its values, by the numbers whose bits are those of its inputs.
    Table(Items<bool>),
    /// Its rows as cubes.
    Cubes(Items<Cube>),
    /// Its rows as lists of cubes, for a gate of more inputs than a cube has places.
    Wide(Items<Pieces>),
    /// Its rows as they are.
    Rows,
}

/// The greatest number of inputs of a gate with a table.
const MOST_TABLE: usize = 16;

/// The greatest number of inputs of a gate with one cube for each row.
const MOST_CUBES: usize = 32;

/// The greatest number of inputs of a gate with cubes.
const MOST_PIECES: usize = 256;

/// A table has at most this many times as many values as the gate's rows and one more row have bytes. The text of
/// a network has these rows, and the names of a gate are no shorter than a row. So all tables of a network take at
/// most 16 bytes for each byte of its text: at most 64 MiB for a text of 4 MiB.
const MOST_SPREAD: usize = 16;

/// The form of each gate, for a run on at most this many symbols.
pub(crate) fn forms_of(
    alloc: Global,
    gates: &[NumberedGate],
    symbols: usize,
) -> Result<Items<GateForm>, AllocError>
    ensures { IfOk result (AreForms gates.now) }
{
    let mut forms = Items::new(alloc);
    for gate in gates {
        forms.push(form_of(alloc, gate, symbols)?)?;
    }
    Ok(forms)
}

/// The form of a gate, for a run on at most this many symbols.
fn form_of(alloc: Global, gate: &NumberedGate, symbols: usize) -> Result<GateForm, AllocError>
    ensures { IfOk result (IsForm gate.now) }
{
    let inputs = gate.inputs.len();
    if inputs == 0 || inputs > MOST_PIECES {
        return Ok(GateForm::Rows);
    }
    if inputs > MOST_CUBES {
        return Ok(GateForm::Wide(wide_rows(alloc, gate)?));
    }
    let cubes = cubes_of(alloc, gate, inputs as u8)?;
    if !has_table(gate, symbols) {
        Ok(GateForm::Cubes(cubes))
    } else if inputs <= MOST_SMALL {
        Ok(GateForm::Small(small_gate(gate, cubes.as_slice())))
    } else {
        Ok(GateForm::Table(table_of(alloc, gate, cubes.as_slice())?))
    }
}

/// Whether the gate gets a table: it has few inputs, and the table is neither much longer than its rows nor
/// longer than the list of symbols.
fn has_table(gate: &NumberedGate, symbols: usize) -> bool
    ensures { result ≡ true → length gate.now.inputs.items ≤ 16 }
{
    let inputs = gate.inputs.len();
    inputs <= MOST_TABLE
        && 1 << inputs <= symbols
        && (1 << inputs) / (MOST_SPREAD * (inputs + 1)) <= gate.rows.as_slice().len()
}

/// The rows of a gate as cubes. A row that is not a cube of the width holds nothing, and is left out.
fn cubes_of(alloc: Global, gate: &NumberedGate, width: u8) -> Result<Items<Cube>, AllocError>
    requires width { width ≡ length gate.now.inputs.items }
    requires positive { 0 < width }
    requires bound { width ≤ 32 }
    ensures { IfOk result (IsCubes gate.now) }
{
    let mut cubes = Items::new(alloc);
    for row in gate.rows.as_slice() {
        push_row(&mut cubes, row.bytes(), width)?;
    }
    Ok(cubes)
}

/// Adds the cube of a row, if the row is a cube.
fn push_row(cubes: &mut Items<Cube>, row: &[u8], width: u8) -> Result<(), AllocError>
    requires positive { 0 < width }
    requires bound { width ≤ 32 }
    ensures widths { OnOk result
        (All (λ cube. cube.width ≡ width) cubes.old → All (λ cube. cube.width ≡ width) cubes.new) }
    ensures held { OnOk result
        ((symbol : List Bool) → length symbol ≡ width
        → list_any (λ cube. holds cube symbol) cubes.new ≡
        (list_any (λ cube. holds cube symbol) cubes.old || row_holds row.now symbol)) }
{
    match Cube::parse(row, width) {
        Ok(cube) => cubes.push(cube),
        Err(_) => Ok(()),
    }
}

/// A gate with its values in a word.
fn small_gate(gate: &NumberedGate, cubes: &[Cube]) -> SmallGate
    requires few { length gate.now.inputs.items ≤ 6 }
    requires cubes { IsCubes gate.now cubes.now }
    ensures { IsSmall gate.now result }
{
    SmallGate::new(&gate.inputs, word_of(gate, cubes))
}

/// The values of a gate as the bits of a word, by the numbers whose bits are those of its inputs.
fn word_of(gate: &NumberedGate, cubes: &[Cube]) -> u64
    requires few { length gate.now.inputs.items ≤ 6 }
    requires cubes { IsCubes gate.now cubes.now }
    ensures { HasValues gate.now (2 ^ length gate.now.inputs.items) result }
{
    let mut values = 0;
    for number in 0..1 << gate.inputs.len() {
        if value_of_cubes(gate, cubes, number) {
            values |= 1 << number;
        }
    }
    values
}
