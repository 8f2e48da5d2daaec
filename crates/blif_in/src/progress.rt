//! What is kept of the lines so far to judge the next one.
ghost use Rattle.std.specs.Prelude.{◌≡◌, ◌∷◌, [], IfOk, List, None, OnOk};
ghost use Rattle.std.specs.Option.{option_copied, option_map, option_or};
ghost use Rattle.hs_io.specs.declared.lines.Line.{Line};
ghost use Rattle.blif_in.specs.Text as text;
ghost use Rattle.blif_in.specs.Inner.Standing.{IsSmall};
ghost use Rattle.blif_in.specs.Inner.ShortFields.{AreMeasurable};
ghost use Rattle.blif_in.specs.Inner.Progress.{IsReadTo, Tells, clock_at, clock_name};
ghost use Rattle.blif_in.specs.Inner.LineStatements.{numbered};

use crate::fault::{BlifFail, BlifFault, BlifKind};
use crate::standing::{Standing, Summary};
use hs_io::{Line, Name};
use std::alloc::{AllocError, Global};

/// The clock, and the number of the line that names it first.
#[derive(Drop)]
pub(crate) struct FirstClock {
    pub name: Name,
    pub line: u32,
}

/// What is kept of the lines so far to judge the next one.
#[derive(Drop)]
pub(crate) struct Progress {
    pub summary: Summary,
    pub clock: Option<FirstClock>,
}

impl Progress {
    /// Before the first line.
    pub fn new() -> Progress
        ensures read { (lines : List Line) → IsReadTo lines lines result }
        ensures small { IsSmall result.summary }
    {
        Progress {
            summary: Summary::new(),
            clock: None,
        }
    }

    /// Takes up one line more, or gives the fault of that line.
    pub fn take(&mut self, alloc: Global, line: &Line) -> Result<(), BlifFail>
        requires measurable { AreMeasurable line.now.fields }
        requires small { IsSmall self.old.summary }
        ensures read { (lines rest : List Line) → IsReadTo lines (line.now ∷ rest) self.old
            → Tells result (text.first_fault [] (numbered lines)) (λ _. IsReadTo lines rest self.new) }
        ensures small { OnOk result (IsSmall self.new.summary) }
    {
        let standing = Standing {
            summary: self.summary,
            clock: name_of(&self.clock),
        };
        let next = match standing.after_line(line) {
            Ok(next) => next,
            Err(kind) => return Err(fault_at(line.number, kind)),
        };
        let summary = next.summary;
        let named = newly_named(alloc, &self.clock, next.clock)?;
        self.summary = summary;
        self.clock = first_clock(self.clock.take(), named, line.number);
        Ok(())
    }
}

/// The name of the clock, if there is one.
fn name_of(clock: &Option<FirstClock>) -> Option<&Name>
    ensures { option_copied result ≡ clock_name clock.now }
{
    match clock {
        Some(first) => Some(&first.name),
        None => None,
    }
}

/// The fault of a line.
fn fault_at(line: u32, kind: BlifKind) -> BlifFail
    ensures { result ≡ BlifFail.Refused (record { line = line; kind = kind }) }
{
    BlifFail::Refused(BlifFault { line, kind })
}

/// A copy of the clock's name, if there was no clock before.
fn newly_named(
    alloc: Global,
    before: &Option<FirstClock>,
    name: Option<&Name>,
) -> Result<Option<Name>, AllocError>
    ensures { IfOk result (λ named. before.now ≡ None → named ≡ option_copied name.entry) }
{
    match (before, name) {
        (None, Some(name)) => Ok(Some(Name::new(alloc, name.bytes())?)),
        _ => Ok(None),
    }
}

/// The clock that was there before, or else the one that the line of this number names.
fn first_clock(before: Option<FirstClock>, named: Option<Name>, line: u32) -> Option<FirstClock>
    ensures { result ≡ option_or before (option_map (clock_at line) named) }
{
    match (before, named) {
        (Some(first), _) => Some(first),
        (None, Some(name)) => Some(FirstClock { name, line }),
        (None, None) => None,
    }
}
