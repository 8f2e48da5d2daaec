//! What rows leave open.
ghost use Rattle.std.specs.Prelude.{ℕ, ◌+◌, ◌-◌, ◌≡◌, ◌<◌, ◌≤◌, ◌^◌, ◌↔◌, All, IfNone, IfOk, IfSome, IsTrue, length};
ghost use Rattle.cubes.specs.Gap.{IsHeld};
ghost use Rattle.kiss_file.specs.declared.file.KissFile.{KissFile};
ghost use Rattle.machine_table.specs.declared.open_part.Missing.{Missing};
ghost use Rattle.machine_table.specs.Inner.OpenSymbol.{
  AreFullCubes,
  IsFirstAmong,
  IsFirstOf,
  IsFull,
  IsSaidEverywhere,
  SaysAll,
};
ghost use Rattle.state_pairs.specs.Table.{IsTable};
ghost use Rattle.machine_table.specs.OpenEntries.{IsEntry, IsFirstOpen, IsSaid, Says, place_of};

use crate::{Machine, Missing};
use cubes::{Cube, first_gap};
use kiss_file::KissRow;
use state_pairs::given;
use std::alloc::{AllocError, Global};

/// A part at a state and a symbol.
#[derive(Clone, Copy)]
pub struct Entry {
    pub state: u16,
    pub symbol: u32,
    pub part: Missing,
}

/// Whether the row says the part.
pub fn says(row: &KissRow, part: Missing) -> bool
    requires { place_of part < 65 }
    ensures { IsTrue result ↔ Says part row.now }
{
    match part {
        Missing::Next => row.to.is_some(),
        Missing::Output(b) => given(row, b).is_some(),
    }
}

/// The care of a row that gives each of so many outputs.
pub fn all_outputs(outputs: u8) -> u64
    requires { outputs ≤ 64 }
    ensures { result ≡ 2 ^ outputs - 1 }
{
    if outputs < 64 {
        (1 << outputs) - 1
    } else {
        u64::MAX
    }
}

/// Whether the row names a next state and gives each of so many outputs.
fn is_full(row: &KissRow, outputs: u8) -> bool
    requires { outputs ≤ 64 }
    ensures { IsTrue result → IsFull outputs row.now }
{
    if row.to.is_none() || row.care != all_outputs(outputs) {
        return false;
    }
    true
}

/// The earlier of two open parts: the one of the lesser symbol, and the first where they are at one symbol.
fn earlier(first: Option<(u32, Missing)>, gap: Option<u32>, part: Missing) -> Option<(u32, Missing)>
    ensures { (F : KissFile) (s : ℕ) → IsFirstAmong F s (place_of part) first → IsFirstOf F s part gap
        → IsFirstAmong F s (place_of part + 1) result }
{
    let Some(other) = gap else {
        return first;
    };
    match first {
        Some((symbol, kept)) if symbol <= other => Some((symbol, kept)),
        _ => Some((other, part)),
    }
}

impl Machine {
    /// The first entry that no row says.
    pub(crate) fn first_open(&self, alloc: Global) -> Result<Option<Entry>, AllocError>
        ensures some { IfOk result
            (λ found. IfSome found (λ entry. IsFirstOpen self.now entry.state entry.symbol entry.part)) }
        ensures none { IfOk result
            (λ found. IfNone found
            ((s number : ℕ) (part : Missing) → IsEntry self.now s number part → IsSaid self.now s number part)) }
    {
        for s in 0..self.states() {
            if let Some((symbol, part)) = self.first_open_at(alloc, s)? {
                let state = s as u16;
                return Ok(Some(Entry {
                    state,
                    symbol,
                    part,
                }));
            }
        }
        Ok(None)
    }

    /// The first symbol of a state at which a part is open, and the first such part there.
    fn first_open_at(&self, alloc: Global, s: usize) -> Result<Option<(u32, Missing)>, AllocError>
        requires { s < length self.now.states }
        ensures { IfOk result (IsFirstAmong self.now s (self.now.outputs + 1)) }
    {
        if self.is_full_everywhere(alloc, s)? {
            return Ok(None);
        }
        let gap = self.first_open_of(alloc, s, Missing::Next)?;
        let mut first = earlier(None, gap, Missing::Next);
        if self.says_all(s) {
            return Ok(first);
        }
        for b in 0..self.outputs() {
            let part = Missing::Output(b);
            let gap = self.first_open_of(alloc, s, part)?;
            first = earlier(first, gap, part);
        }
        Ok(first)
    }

    /// Whether each row of the state names a next state and gives each output.
    pub(crate) fn says_all(&self, s: usize) -> bool
        requires { s < length self.now.states }
        ensures { IsTrue result → SaysAll self.now s }
    {
        for number in self.numbers_of(s) {
            let row = self.row(*number);
            if !is_full(row, self.outputs()) {
                return false;
            }
        }
        true
    }

    /// Whether each symbol is held by a row of the state that says all.
    fn is_full_everywhere(&self, alloc: Global, s: usize) -> Result<bool, AllocError>
        requires { s < length self.now.states }
        ensures { IfOk result (λ full. IsTrue full → IsSaidEverywhere self.now s (self.now.outputs + 1)) }
    {
        let cubes = self.full_cubes(alloc, s)?;
        let gap = first_gap(alloc, &cubes, self.inputs())?;
        Ok(gap.is_none())
    }

    /// The cubes of the rows of a state that say all.
    fn full_cubes(&self, alloc: Global, s: usize) -> Result<Vec<Cube>, AllocError>
        requires { s < length self.now.states }
        ensures widths { IfOk result (λ cubes. All (λ c. c.width ≡ self.now.inputs) cubes.items) }
        ensures full { IfOk result (λ cubes. AreFullCubes self.now s cubes.items) }
        ensures table { IsTable self.now }
    {
        let mut cubes = Vec::new(alloc);
        for number in self.numbers_of(s) {
            let row = self.row(*number);
            if is_full(row, self.outputs()) {
                cubes.push(row.cube)?;
            }
        }
        Ok(cubes)
    }

    /// The first symbol at which no row of the state says the part.
    fn first_open_of(
        &self,
        alloc: Global,
        s: usize,
        part: Missing,
    ) -> Result<Option<u32>, AllocError>
        requires state { s < length self.now.states }
        requires part { place_of part < self.now.outputs + 1 }
        ensures { IfOk result (IsFirstOf self.now s part) }
    {
        let cubes = self.cubes_that_say(alloc, s, part)?;
        first_gap(alloc, &cubes, self.inputs())
    }

    /// The cubes of the rows of a state that say the part.
    fn cubes_that_say(
        &self,
        alloc: Global,
        s: usize,
        part: Missing,
    ) -> Result<Vec<Cube>, AllocError>
        requires state { s < length self.now.states }
        requires part { place_of part < self.now.outputs + 1 }
        ensures widths { IfOk result (λ cubes. All (λ c. c.width ≡ self.now.inputs) cubes.items) }
        ensures held { IfOk result (λ cubes. (number : ℕ) → IsHeld cubes.items number ↔ IsSaid self.now s number part) }
    {
        let mut cubes = Vec::new(alloc);
        for number in self.numbers_of(s) {
            let row = self.row(*number);
            if says(row, part) {
                cubes.push(row.cube)?;
            }
        }
        Ok(cubes)
    }
}
