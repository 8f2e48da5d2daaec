//! The data of a machine, and the questions about one state and one symbol.
ghost use Rattle.std.specs.Prelude.{ℕ, ◌≡◌, ◌<◌, ◌≤◌, ◌^◌, All, Contains, IsTrue, Some, length, slice_get};
ghost use Rattle.cubes.specs.Symbol.{symbol_of};
ghost use Rattle.kiss_file.specs.LawfulFile.{IsLawfulRow};
ghost use Rattle.kiss_file.specs.Machine.{Conflicting, Specified, next, output_bit};
ghost use Rattle.kiss_file.specs.Names.{AreDistinct};
ghost use Rattle.kiss_file.specs.declared.file.KissRow.{KissRow};
ghost use Rattle.state_rows.specs.Places.{IsNumberOf};
ghost use Rattle.state_pairs.specs.NextStates.{NeverLeaves};
ghost use Rattle.state_pairs.specs.Table.{IsTable};

use kiss_file::KissRow;
use state_pairs::{RowsByState, given};
use std::marker::Model;

/// The machine of a file. Contracts see it as that file.
///
/// A symbol is given by its number: its text read in binary, the first input being the most significant bit.
#[derive(Drop)]
pub struct Machine {
    pub(crate) rows: RowsByState,
    /// If set, the rows leave nothing open. If not set, they may or may not.
    pub(crate) complete: bool,
}

impl Model for Machine {
    ghost use Rattle.std.specs.Prelude.{IsTrue};
    ghost use Rattle.kiss_file.specs.declared.file.KissFile.{KissFile};
    ghost use Rattle.kiss_file.specs.Machine.{Conflicting, Specified};
    ghost use Rattle.state_pairs.specs.Table.{IsTable};

    ghost Value = { KissFile };

    ghost view = { λ m. m.rows };

    ghost invariant = { λ m. IsTable m.rows × (Conflicting m.rows → ⊥) × (IsTrue m.complete → Specified m.rows) };
}

impl Machine {
    /// The number of states.
    pub fn states(&self) -> usize
        ensures count { result ≡ length self.now.states }
        ensures some { 0 < result }
        ensures limit { result ≤ 256 }
        ensures inside { NeverLeaves self.now }
    {
        self.rows.states()
    }

    /// The number of input bits.
    pub fn inputs(&self) -> u8
        ensures count { result ≡ self.now.inputs }
        ensures some { 0 < result }
        ensures limit { result ≤ 32 }
    {
        self.rows.inputs()
    }

    /// The number of outputs.
    pub fn outputs(&self) -> u8
        ensures count { result ≡ self.now.outputs }
        ensures some { 0 < result }
        ensures limit { result ≤ 64 }
    {
        self.rows.outputs()
    }

    /// The number of the reset state.
    pub fn reset(&self) -> usize
        ensures number { result ≡ self.now.reset }
        ensures state { result < length self.now.states }
    {
        self.rows.reset()
    }

    /// The next state at the symbol with that number: the one that a row names, or the state itself if no
    /// row names one.
    pub fn next(&self, s: usize, x: u32) -> usize
        requires s { s < length self.now.states }
        requires x { x < 2 ^ self.now.inputs }
        ensures next { result ≡ next self.now s (symbol_of self.now.inputs x) }
        ensures state { result < length self.now.states }
    {
        for number in self.numbers_of(s) {
            let row = self.row(*number);
            if row.cube.holds(x)
                && let Some(t) = row.to
            {
                return usize::from(t);
            }
        }
        s
    }

    /// Output `b` at the symbol with number `x`: the bit that a row gives, or 0 if no row gives one.
    pub fn output_bit(&self, s: usize, x: u32, b: u8) -> bool
        requires s { s < length self.now.states }
        requires x { x < 2 ^ self.now.inputs }
        requires b { b < self.now.outputs }
        ensures { result ≡ output_bit self.now s (symbol_of self.now.inputs x) b }
    {
        for number in self.numbers_of(s) {
            let row = self.row(*number);
            if row.cube.holds(x)
                && let Some(bit) = given(row, b)
            {
                return bit;
            }
        }
        false
    }

    /// Whether the rows are known to leave nothing open.
    pub fn is_complete(&self) -> bool
        ensures specified { IsTrue result → Specified self.now }
        ensures table { IsTable self.now }
        ensures no_conflict { Conflicting self.now → ⊥ }
    {
        self.complete
    }

    /// The numbers of the rows of a state, in the order of their cubes.
    pub fn numbers_of(&self, s: usize) -> &[usize]
        requires { s < length self.now.states }
        ensures inside { All (λ i. i < length self.now.rows) result.now }
        ensures own { (i : ℕ) → Contains result.now i → IsNumberOf self.now s i }
        ensures each { (i : ℕ) (row : KissRow) → slice_get self.now.rows i ≡ Some row → row.from ≡ s
            → Contains result.now i }
        ensures table { IsTable self.now }
        ensures no_conflict { Conflicting self.now → ⊥ }
    {
        self.rows.numbers_of(s)
    }

    /// The row with that number.
    pub fn row(&self, number: usize) -> &KissRow
        requires { number < length self.now.rows }
        ensures row { slice_get self.now.rows number ≡ Some result.now }
        ensures lawful { IsLawfulRow self.now.inputs self.now.outputs (length self.now.states) result.now }
    {
        self.rows.row(number)
    }

    /// Facts about the file of every machine. The function does nothing.
    pub fn keeps_its_states(&self)
        ensures table { IsTable self.now }
        ensures no_conflict { Conflicting self.now → ⊥ }
        ensures names { AreDistinct self.now.states }
        ensures next { NeverLeaves self.now }
    {
        let _ = self.rows.states();
    }
}
