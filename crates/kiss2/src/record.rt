//! The record of lines without a fault, by the lines of their rows.
ghost use Rattle.std.specs.Prelude.{
  ℕ,
  ◌≡◌,
  ◌<◌,
  ◌≤◌,
  All,
  Contains,
  List,
  [],
  IfNone,
  IfOk,
  IfSome,
  None,
  OnOk,
  Some,
  false,
  true,
  length,
  slice_get,
  slice_index_or,
};
ghost use Rattle.kiss_file.specs.declared.file.KissRow.{KissRow};
ghost use Rattle.std.specs.List.{AllZip};
ghost use Rattle.cubes.specs.Cube.{text_of};
ghost use Rattle.hs_io.specs.declared.lines.Line.{Line};
ghost use Rattle.kiss2.specs.Kiss.{IsNextOf, IsRecordOf, IsRowOf, closing_fault};
ghost use Rattle.kiss2.specs.Standing.{names_in_column};
ghost use Rattle.kiss2.specs.Words.{is_character_field, is_open};
ghost use Rattle.kiss2.specs.Inner.FaultlessLines.{IsGoodRow, IsKnownRow, IsTableOf};
ghost use Rattle.kiss2.specs.Inner.ReaderState.{Keeps, Stands, once_after};

use crate::kept_lines::Kept;
use crate::standing::{ResetLine, Said, add_name};
use crate::words::{field_of, is_open_field, outputs_in_field};
use cubes::Cube;
use hs_io::Line;
use kiss_file::{KissFile, KissRow, Rows, StateNames};
use std::alloc::{AllocError, Global};

/// What the lines of the rows give.
#[derive(Drop)]
pub(crate) struct Table {
    states: StateNames,
    rows: Rows,
    /// The number of the reset state.
    reset: u16,
}

/// The record that lines without a fault give, by what is kept of them. It takes the names of inputs and outputs.
pub(crate) fn record_of(alloc: Global, kept: &mut Kept) -> Result<KissFile, AllocError>
    requires { (all : List Line) × Keeps kept.old.said kept.old.rows.items all × (closing_fault all ≡ None) }
    ensures { (all : List Line) → Keeps kept.old.said kept.old.rows.items all → closing_fault all ≡ None
        → IfOk result (λ file. IsRecordOf all file) }
{
    let counts = counts_of(&kept.said);
    let mut table = Table {
        states: StateNames::new(alloc),
        rows: Rows::new(alloc),
        reset: 0,
    };
    fill_table(&mut table, kept.rows.as_slice(), &kept.said, counts.0)?;
    Ok(file_of(counts, &mut kept.said, table))
}

/// The numbers of inputs and outputs, which were both said.
fn counts_of(said: &Said) -> (u8, u8)
    requires inputs { (inputs : ℕ) × (said.now.inputs ≡ Some inputs) }
    requires outputs { (outputs : ℕ) × (said.now.outputs ≡ Some outputs) }
    ensures inputs { said.now.inputs ≡ Some result.0 }
    ensures outputs { said.now.outputs ≡ Some result.1 }
{
    match (said.inputs, said.outputs) {
        (Some(inputs), Some(outputs)) => (inputs, outputs),
        _ => unreachable!(),
    }
}

/// Fills an empty table with what the lines of the rows give, by what is kept of all lines.
fn fill_table(table: &mut Table, lines: &[Line], said: &Said, inputs: u8) -> Result<(), AllocError>
    requires no_states { table.old.states ≡ [] }
    requires no_rows { table.old.rows ≡ [] }
    requires kept { (all : List Line) × Keeps said.now lines.now all × (closing_fault all ≡ None) }
    requires inputs { said.now.inputs ≡ Some inputs }
    ensures { (all : List Line) → Keeps said.now lines.now all → closing_fault all ≡ None
        → OnOk result (IsTableOf all table.new) }
{
    add_column(&mut table.states, lines, 1)?;
    add_column(&mut table.states, lines, 2)?;
    add_rows(&mut table.rows, lines, &table.states, inputs)?;
    table.reset = reset_of(&said.reset, &table.states, table.rows.as_slice());
    Ok(())
}

/// The record of the numbers of inputs and outputs, the names that were said and the rows.
fn file_of(counts: (u8, u8), said: &mut Said, table: Table) -> KissFile
    requires inputs { said.old.inputs ≡ Some counts.0 }
    requires outputs { said.old.outputs ≡ Some counts.1 }
    ensures { (all : List Line) → Stands said.old all → IsTableOf all table → IsRecordOf all result }
{
    KissFile {
        inputs: counts.0,
        outputs: counts.1,
        reset: table.reset,
        states: table.states,
        rows: table.rows,
        input_names: said.input_names.take(),
        output_names: said.output_names.take(),
    }
}

/// Adds the names at a place of the rows.
fn add_column(names: &mut StateNames, lines: &[Line], place: usize) -> Result<(), AllocError>
    requires few { length (once_after names.old (names_in_column place lines.now)) ≤ 256 }
    requires long { All (λ line. length line.fields ≡ 4) lines.now }
    requires place { place < 4 }
    ensures { OnOk result (names.new ≡ once_after names.old (names_in_column place lines.now)) }
{
    for line in lines {
        add_name(names, field_of(line, place))?;
    }
    Ok(())
}

/// Adds the rows to none, in order.
fn add_rows(
    rows: &mut Rows,
    lines: &[Line],
    states: &StateNames,
    inputs: u8,
) -> Result<(), AllocError>
    requires empty { rows.old ≡ [] }
    requires some_input { 1 ≤ inputs }
    requires inputs { inputs ≤ 32 }
    requires states { length states.now ≤ 256 }
    requires good { (outputs : ℕ) × (outputs ≤ 64) × All (IsGoodRow inputs outputs) lines.now }
    requires known { All (IsKnownRow states.now) lines.now }
    ensures { OnOk result (AllZip (IsRowOf states.now) lines.now rows.new) }
{
    for line in lines {
        rows.push(row_of(line, states, inputs))?;
    }
    Ok(())
}

/// The row that a line gives.
fn row_of(line: &Line, states: &StateNames, inputs: u8) -> KissRow
    requires some_input { 1 ≤ inputs }
    requires inputs { inputs ≤ 32 }
    requires states { length states.now ≤ 256 }
    requires good { (outputs : ℕ) × (outputs ≤ 64) × IsGoodRow inputs outputs line.now }
    requires known { IsKnownRow states.now line.now }
    ensures { IsRowOf states.now line.now result }
{
    let cube = cube_of(field_of(line, 0), inputs);
    let from = number_in(states, field_of(line, 1));
    let to = next_of(states, field_of(line, 2));
    let (care, value) = outputs_in_field(field_of(line, 3));
    KissRow {
        cube,
        from,
        to,
        care,
        value,
    }
}

/// The cube of an input field.
fn cube_of(field: &[u8], inputs: u8) -> Cube
    requires some_input { 1 ≤ inputs }
    requires inputs { inputs ≤ 32 }
    requires characters { is_character_field inputs field.now ≡ true }
    ensures { text_of result ≡ field.now }
{
    match Cube::parse(field, inputs) {
        Ok(cube) => cube,
        Err(_) => unreachable!(),
    }
}

/// The number of a state.
fn number_in(states: &StateNames, name: &[u8]) -> u16
    requires few { length states.now ≤ 256 }
    requires known { Contains states.now name.now }
    ensures { slice_get states.now result ≡ Some name.now }
{
    match states.number(name) {
        Some(number) => number,
        None => unreachable!(),
    }
}

/// The number of the next state, if the field names one.
fn next_of(states: &StateNames, field: &[u8]) -> Option<u16>
    requires few { length states.now ≤ 256 }
    requires known { is_open field.now ≡ false → Contains states.now field.now }
    ensures { IsNextOf states.now field.now result }
{
    if is_open_field(field) {
        return None;
    }
    Some(number_in(states, field))
}

/// The number of the reset state: the state that `.r` names, or without `.r` the first row's current state.
fn reset_of(reset: &Option<ResetLine>, states: &StateNames, rows: &[KissRow]) -> u16
    requires few { length states.now ≤ 256 }
    requires known { IfSome reset.now (λ line. Contains states.now line.name) }
    requires some_row { 0 < length rows.now }
    ensures named { IfSome reset.now (λ line. slice_get states.now result ≡ Some line.name) }
    ensures first { IfNone reset.now ((d : KissRow) → result ≡ (slice_index_or rows.now 0 d).from) }
{
    match reset {
        Some(line) => number_in(states, line.name.bytes()),
        None => rows[0].from,
    }
}
