//! The rows of a state, with what they leave open filled in.
//!
//! Together the rows of [`filled_rows`] say what the machine does in a state at each symbol.
//! `machine_table/specs/Pieces` says what such a row is, and `specs/Inner/FilledRows` what the steps on the way
//! promise.
//!
//! After the rows of the state, which `own_rows` gives, come rows for what they leave open: there the next state is the state itself,
//! and an output is 0. The symbols at which a part is open are found for one part at a time. The cube of all
//! symbols is halved until some row that says the part holds all symbols of a half, or none holds any. Only the
//! rows that share a symbol with a half are kept for it.

ghost use Rattle.std.specs.Prelude.{
  ℕ,
  ◌+◌,
  ◌≡◌,
  ◌<◌,
  ◌≤◌,
  ◌^◌,
  ◌↔◌,
  ◌⊎◌,
  All,
  Contains,
  IfNone,
  IfOk,
  IfSome,
  IsTrue,
  OnOk,
  Some,
  length,
};
ghost use Rattle.cubes.specs.Cube.{HoldsNumber, Meets};
ghost use Rattle.kiss_file.specs.declared.file.KissRow.{KissRow};
ghost use Rattle.machine_table.specs.declared.open_part.Missing.{Missing};
ghost use Rattle.machine_table.specs.Pieces.{IsRightRow, IsSaidBy};
ghost use Rattle.dependence.specs.FilledRows.{AreFilledRows, IsSpecifiedState};
ghost use Rattle.dependence.specs.Inner.FilledRows.{
  AreNear,
  AreRowsOf,
  AreThoseMet,
  Fills,
  FillsPart,
  IsFilling,
  SayNothing,
  alone_of,
};
ghost use Rattle.machine_table.specs.OpenEntries.{Says, place_of};

use crate::own_rows::own_rows;
use cubes::Cube;
use kiss_file::KissRow;
use machine_table::{Machine, Missing, all_outputs, says};
use std::alloc::{AllocError, Global};

/// Whether the row says the part and shares a symbol with the cube.
fn says_within(row: &KissRow, part: Missing, cube: &Cube) -> bool
    requires part { place_of part < 65 }
    requires width { row.now.cube.width ≡ cube.now.width }
    ensures { IsTrue result ↔ (Says part row.now × Meets cube.now row.now.cube) }
{
    says(row, part) && cube.meets(&row.cube)
}

/// The cube of a row that says the part and shares a symbol with the cube.
fn said_in(rows: &[KissRow], part: Missing, cube: &Cube) -> Option<Cube>
    requires part { place_of part < 65 }
    requires widths { All (λ row. row.cube.width ≡ cube.now.width) rows.now }
    ensures width { IfSome result (λ found. found.width ≡ cube.now.width) }
    ensures meets { IfSome result (Meets cube.now) }
    ensures some { IfSome result (λ found. (x : ℕ) → HoldsNumber found x → IsSaidBy rows.now x part) }
    ensures none { IfNone result (SayNothing rows.now cube.now part) }
{
    for row in rows {
        if says_within(row, part, cube) {
            return Some(row.cube);
        }
    }
    None
}

/// The rows that share a symbol with the cube.
fn rows_met(alloc: Global, rows: &[KissRow], cube: &Cube) -> Result<Vec<KissRow>, AllocError>
    requires { All (λ row. row.cube.width ≡ cube.now.width) rows.now }
    ensures { IfOk result (λ met. AreThoseMet rows.now cube.now met.items) }
{
    let mut met = Vec::new(alloc);
    for row in rows {
        if cube.meets(&row.cube) {
            met.push(*row)?;
        }
    }
    Ok(met)
}

/// The first, if there is no other.
fn alone(first: Option<u16>, other: Option<u16>) -> Option<u16>
    ensures { result ≡ alone_of first other }
{
    match other {
        None => first,
        Some(_) => None,
    }
}

/// The row without the parts that the other says.
fn without(added: KissRow, row: &KissRow) -> KissRow
    ensures cube { result.cube ≡ added.cube }
    ensures from { result.from ≡ added.from }
    ensures value { result.value ≡ added.value }
    ensures next { (t : ℕ) → result.to ≡ Some t → added.to ≡ Some t }
    ensures says { (part : Missing) → Says part result ↔ (Says part added × ¬ Says part row.now) }
{
    KissRow {
        cube: added.cube,
        from: added.from,
        to: alone(added.to, row.to),
        care: added.care & (added.care ^ row.care),
        value: added.value,
    }
}

/// The row of the cube that says each part that no row says at any symbol of the cube: the next state is the
/// state itself, and an output is 0.
fn filling(rows: &[KissRow], s: u16, cube: Cube, outputs: u8) -> KissRow
    requires outputs { outputs ≤ 64 }
    requires widths { All (λ row. row.cube.width ≡ cube.width) rows.now }
    ensures { IsFilling rows.now s cube outputs result }
{
    let mut added = KissRow {
        cube,
        from: s,
        to: Some(s),
        care: all_outputs(outputs),
        value: 0,
    };
    for row in rows {
        if cube.meets(&row.cube) {
            added = without(added, row);
        }
    }
    added
}

/// Rows that say what the state does at each symbol, part by part.
///
/// A part is the next state or one output. The rows of the state come first, in the order of the file. Rows for the
/// parts that they leave open follow. A row need not say all parts, and rows may share symbols.
pub fn filled_rows(alloc: Global, m: &Machine, s: usize) -> Result<Vec<KissRow>, AllocError>
    requires { s < length m.now.states }
    ensures { IfOk result (λ rows. AreFilledRows m.now s rows.items) }
{
    let mut rows = own_rows(alloc, m, s)?;
    if m.is_complete() {
        return Ok(rows);
    }
    fill(alloc, m, s, &mut rows)?;
    Ok(rows)
}

/// Adds rows that say each part where none of the rows does.
fn fill(alloc: Global, m: &Machine, s: usize, rows: &mut Vec<KissRow>) -> Result<(), AllocError>
    requires state { s < length m.now.states }
    requires rows { AreRowsOf m.now s rows.old.items }
    ensures each { OnOk result
        ((x : ℕ) (part : Missing) → place_of part < m.now.outputs + 1 → IsSaidBy rows.new.items x part) }
    ensures rows { OnOk result (AreRowsOf m.now s rows.new.items) }
    ensures own { OnOk result (IsSpecifiedState m.now s → rows.new.items ≡ rows.old.items) }
{
    fill_part(alloc, m, s, Missing::Next, rows)?;
    for b in 0..m.outputs() {
        fill_part(alloc, m, s, Missing::Output(b), rows)?;
    }
    Ok(())
}

/// Adds rows that say the part where none of the rows does.
fn fill_part(
    alloc: Global,
    m: &Machine,
    s: usize,
    part: Missing,
    rows: &mut Vec<KissRow>,
) -> Result<(), AllocError>
    requires state { s < length m.now.states }
    requires part { place_of part < m.now.outputs + 1 }
    requires rows { AreRowsOf m.now s rows.old.items }
    ensures { OnOk result (FillsPart m.now s part rows.old.items rows.new.items) }
{
    let mut added = Vec::new(alloc);
    let all = Cube::whole(m.inputs());
    fill_cube(alloc, m, s, part, all, rows.as_slice(), &mut added)?;
    rows.append(&mut added)?;
    Ok(())
}

/// Adds rows that say the part at each symbol of the cube at which none of the rows does.
fn fill_cube(
    alloc: Global,
    m: &Machine,
    s: usize,
    part: Missing,
    cube: Cube,
    rows: &[KissRow],
    added: &mut Vec<KissRow>,
) -> Result<(), AllocError>
    requires state { s < length m.now.states }
    requires part { place_of part < m.now.outputs + 1 }
    requires width { cube.width ≡ m.now.inputs }
    requires rows { AreNear m.now s cube rows.now }
    requires added { All (IsRightRow m.now s) added.old.items }
    ensures { OnOk result (Fills m.now s part cube rows.now added.old.items added.new.items) }
{
    // The proof knows what holds of every machine only after a question to this one.
    m.keeps_its_states();
    let met = rows_met(alloc, rows, &cube)?;
    let Some(said) = said_in(&met, part, &cube) else {
        let row = filling(&met, s as u16, cube, m.outputs());
        added.push(row)?;
        return Ok(());
    };
    let Some(place) = cube.free_place(&said) else {
        return Ok(());
    };
    fill_cube(alloc, m, s, part, cube.half(place, false), &met, added)?;
    fill_cube(alloc, m, s, part, cube.half(place, true), &met, added)?;
    Ok(())
}
