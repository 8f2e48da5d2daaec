//! Pieces: cubes at whose symbols a state has one next state and one set of outputs.
//!
//! If each row gives every part and no symbol is without a row, the rows are the pieces. Otherwise the cube of
//! all symbols is halved until each row holds all symbols of a cube or none.
ghost use Rattle.std.specs.Prelude.{ℕ, ◌≡◌, ◌<◌, ◌^◌, All, IfNone, IfOk, IfSome, IsSome, OnOk, Some, false, length};
ghost use Rattle.cubes.specs.Symbol.{bit, symbol_of, lowest_bits};
ghost use Rattle.cubes.specs.Cube.{HoldsNumber};
ghost use Rattle.kiss_file.specs.Machine.{Specified, next, out};
ghost use Rattle.machine_table.specs.declared.pieces.Piece.{Piece};
ghost use Rattle.machine_table.specs.Pieces.{IsPiece, IsHeldByPiece};
ghost use Rattle.machine_table.specs.Inner.OpenSymbol.{SaysAll};
ghost use Rattle.machine_table.specs.Inner.SettledCubes.{AddsPieces, IsAllOrNone, IsSettledIn};

use crate::Machine;
use cubes::Cube;
use kiss_file::KissRow;
use std::alloc::{AllocError, Global};

/// Symbols at which a state has the same next state and the same outputs.
#[derive(Clone, Copy, PartialEq, Eq)]
pub struct Piece {
    /// The symbols.
    pub cube: Cube,
    /// The next state at each of them.
    pub next: u16,
    /// The outputs at each of them, with output b at 2^b.
    pub outputs: u64,
}

/// A place at which to halve the cube, if the other cube holds some of its symbols but not all.
fn halving_place(cube: &Cube, other: &Cube) -> Option<u32>
    requires { cube.now.width ≡ other.now.width }
    ensures within { IfSome result (λ place. place < cube.now.width) }
    ensures dash { IfSome result (λ place. bit cube.now.care place ≡ false) }
    ensures none { IfNone result (IsAllOrNone cube.now other.now) }
{
    if cube.meets(other) {
        cube.free_place(other)
    } else {
        None
    }
}

/// The least symbol of the cube.
fn least_symbol(cube: &Cube) -> u32
    ensures held { HoldsNumber cube.now result }
    ensures within { result < 2 ^ cube.now.width }
{
    cube.value
}

/// The row as a piece; the row names a next state and gives every output.
fn piece_of_row(row: &KissRow) -> Piece
    requires { IsSome row.now.to }
    ensures cube { result.cube ≡ row.now.cube }
    ensures next { row.now.to ≡ Some result.next }
    ensures outputs { result.outputs ≡ row.now.value }
{
    Piece {
        cube: row.cube,
        next: row.to.unwrap_or(0),
        outputs: row.value,
    }
}

impl Machine {
    /// Pieces of the state that together hold all symbols.
    pub fn pieces(&self, alloc: Global, s: usize) -> Result<Vec<Piece>, AllocError>
        requires { s < length self.now.states }
        ensures each { IfOk result (λ pieces. (x : ℕ) → x < 2 ^ self.now.inputs → IsHeldByPiece pieces.items x) }
        ensures right { IfOk result (λ pieces. All (IsPiece self.now s) pieces.items) }
    {
        if self.is_complete() && self.says_all(s) {
            return self.pieces_of_rows(alloc, s);
        }
        let mut pieces = Vec::new(alloc);
        self.add_pieces(s, Cube::whole(self.inputs()), &mut pieces)?;
        Ok(pieces)
    }

    /// The rows of the state as pieces; each gives every part, and no symbol is without a row.
    fn pieces_of_rows(&self, alloc: Global, s: usize) -> Result<Vec<Piece>, AllocError>
        requires state { s < length self.now.states }
        requires specified { Specified self.now }
        requires all { SaysAll self.now s }
        ensures each { IfOk result (λ pieces. (x : ℕ) → x < 2 ^ self.now.inputs → IsHeldByPiece pieces.items x) }
        ensures right { IfOk result (λ pieces. All (IsPiece self.now s) pieces.items) }
    {
        let numbers = self.numbers_of(s);
        let mut pieces = Vec::with_capacity(alloc, numbers.len())?;
        for number in numbers {
            pieces.push(piece_of_row(self.row(*number)))?;
        }
        Ok(pieces)
    }

    /// Adds pieces that together hold the symbols of the cube.
    fn add_pieces(&self, s: usize, cube: Cube, pieces: &mut Vec<Piece>) -> Result<(), AllocError>
        requires s { s < length self.now.states }
        requires width { cube.width ≡ self.now.inputs }
        ensures { OnOk result (AddsPieces self.now s cube pieces.old.items pieces.new.items) }
    {
        let Some(place) = self.unsettled_place(s, &cube) else {
            let next = self.one_next(s, &cube);
            let outputs = self.one_word(s, &cube);
            pieces.push(Piece {
                cube,
                next,
                outputs,
            })?;
            return Ok(());
        };
        self.add_pieces(s, cube.half(place, false), pieces)?;
        self.add_pieces(s, cube.half(place, true), pieces)?;
        Ok(())
    }

    /// The next state at each symbol of the cube.
    fn one_next(&self, s: usize, cube: &Cube) -> u16
        requires s { s < length self.now.states }
        requires width { cube.now.width ≡ self.now.inputs }
        requires settled { IsSettledIn self.now s cube.now }
        ensures { (y : ℕ) → HoldsNumber cube.now y → next self.now s (symbol_of self.now.inputs y) ≡ result }
    {
        self.keeps_its_states();
        self.next(s, least_symbol(cube)) as u16
    }

    /// The outputs at each symbol of the cube, with output b at 2^b.
    fn one_word(&self, s: usize, cube: &Cube) -> u64
        requires s { s < length self.now.states }
        requires width { cube.now.width ≡ self.now.inputs }
        requires settled { IsSettledIn self.now s cube.now }
        ensures outputs { (y : ℕ) → HoldsNumber cube.now y
            → out self.now s (symbol_of self.now.inputs y) ≡ lowest_bits self.now.outputs result }
        ensures below { result < 2 ^ self.now.outputs }
    {
        self.keeps_its_states();
        self.output_word(s, least_symbol(cube))
    }

    /// A place at which to halve the cube, if some row of the state holds some of its symbols but not all.
    fn unsettled_place(&self, s: usize, cube: &Cube) -> Option<u32>
        requires s { s < length self.now.states }
        requires width { cube.now.width ≡ self.now.inputs }
        ensures within { IfSome result (λ place. place < cube.now.width) }
        ensures dash { IfSome result (λ place. bit cube.now.care place ≡ false) }
        ensures none { IfNone result (IsSettledIn self.now s cube.now) }
    {
        for number in self.numbers_of(s) {
            if let Some(place) = halving_place(cube, &self.row(*number).cube) {
                return Some(place);
            }
        }
        None
    }
}
