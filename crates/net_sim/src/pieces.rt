//! Wide rows as lists of cubes: one for each piece of 32 characters, and one for the characters that are left.

ghost use Rattle.std.specs.Prelude.{◌≡◌, ◌*◌, ◌<◌, ◌≤◌, ◌||◌, true, All, Bool, List, IfOk, OnOk, length};
ghost use Rattle.std.specs.List.{list_any};
ghost use Rattle.net_core.specs.Step.{row_holds};
ghost use Rattle.net_sim.specs.Inner.GateValues.{bits_at};
ghost use Rattle.net_sim.specs.Inner.Pieces.{
  AreBelow,
  AreNumbersOf,
  ArePieces,
  HaveWidths,
  IsWide,
  numbers_hold,
  pieces_hold,
};

use crate::gate_values::{is_held_by, number_at};
use cubes::Cube;
use hs_list::Items;
use net_core::NumberedGate;
use std::alloc::{AllocError, Global};

/// The cubes of the pieces of a row, in order.
pub(crate) type Pieces = Items<Cube>;

/// The number of characters of each piece but the last.
const PIECE: usize = 32;

/// The pieces of the rows of a gate. A row that is not a list of cubes of the right widths holds nothing, and is
/// left out.
pub(crate) fn wide_rows(alloc: Global, gate: &NumberedGate) -> Result<Items<Pieces>, AllocError>
    ensures { IfOk result (IsWide gate.now) }
{
    let mut rows = Items::new(alloc);
    for row in gate.rows.as_slice() {
        push_pieces(alloc, &mut rows, row.bytes(), gate.inputs.len())?;
    }
    Ok(rows)
}

/// Adds the pieces of a row, if the row has this width and its pieces are cubes.
fn push_pieces(
    alloc: Global,
    rows: &mut Items<Pieces>,
    row: &[u8],
    width: usize,
) -> Result<(), AllocError>
    ensures widths { OnOk result (All (HaveWidths width) rows.old → All (HaveWidths width) rows.new) }
    ensures held { OnOk result
        ((symbol : List Bool) → length symbol ≡ width
        → list_any (λ cubes. pieces_hold cubes symbol) rows.new ≡
        (list_any (λ cubes. pieces_hold cubes symbol) rows.old || row_holds row.now symbol)) }
{
    if row.len() != width {
        return Ok(());
    }
    match pieces_of(alloc, row)? {
        Some(pieces) => rows.push(pieces),
        None => Ok(()),
    }
}

/// The cubes of the pieces of a row, if all its characters are those of a cube.
fn pieces_of(alloc: Global, row: &[u8]) -> Result<Option<Pieces>, AllocError>
    ensures { IfOk result (ArePieces row.now) }
{
    let mut pieces = Items::new(alloc);
    let mut rest = row;
    while !rest.is_empty() {
        let (piece, more) = rest.split_at(rest.len().min(PIECE));
        match Cube::parse(piece, piece.len() as u8) {
            Ok(cube) => pieces.push(cube)?,
            Err(_) => return Ok(None),
        }
        rest = more;
    }
    Ok(Some(pieces))
}

/// Writes the numbers of the pieces of the inputs, whose bits are the signals of these numbers.
pub(crate) fn number_pieces(inputs: &[usize], signals: &[bool], numbers: &mut [u32])
    requires few { length inputs.now ≤ 32 * length numbers.old }
    requires within { All (λ s. s < length signals.now) inputs.now }
    ensures { AreNumbersOf (bits_at signals.now inputs.now) numbers.new }
{
    let mut rest = inputs;
    for place in 0..numbers.len() {
        let (piece, more) = rest.split_at(rest.len().min(PIECE));
        numbers[place] = number_at(piece, signals);
        rest = more;
    }
}

/// Whether some row holds the pieces of these numbers.
pub(crate) fn holds_some(rows: &[Pieces], numbers: &[u32]) -> bool
    requires { All (λ cubes. AreBelow cubes numbers.now) rows.now }
    ensures { result ≡ list_any (λ cubes. numbers_hold cubes numbers.now) rows.now }
{
    for row in rows {
        if holds_pieces(row.as_slice(), numbers) {
            return true;
        }
    }
    false
}

/// Whether each cube holds the piece of its number.
fn holds_pieces(cubes: &[Cube], numbers: &[u32]) -> bool
    requires { AreBelow cubes.now numbers.now }
    ensures { result ≡ numbers_hold cubes.now numbers.now }
{
    let mut others = numbers;
    for cube in cubes {
        let [number, more @ ..] = others else {
            return false;
        };
        if !is_held_by(cube, *number) {
            return false;
        }
        others = more;
    }
    true
}
