//! Building a machine, and the reasons why a file has none.
ghost use Rattle.std.specs.Prelude.{◌≡◌, ◌^◌, ◌<◌, IfOk, IfErr, OnOk, length};
ghost use Rattle.kiss_file.specs.Machine.{Accepted, Conflicting};
ghost use Rattle.machine_table.specs.Cause.{Caused, IsConflictOf};
ghost use Rattle.state_pairs.specs.Table.{IsTable};

use crate::{Machine, Missing};
use kiss_file::{Fill, KissFile};
use state_pairs::RowsByState;
use state_rows::{bundles_of_states, first_conflict, places_of_states};
use std::alloc::{AllocError, AllocFailed, Global};

/// Why a file has no machine.
#[derive(Clone, Copy, Debug, PartialEq, Eq)]
pub enum BuildFail {
    /// Two rows of one state share a symbol, and name different next states or give 0 and 1 at one output.
    /// Rows are counted from 1. Among all such pairs the later row comes first, and then the earlier row.
    Conflict {
        row_a: u32,
        row_b: u32,
    },
    /// Only with `Fill::Refuse`: no row gives this part at this state and the symbol with this number. It is
    /// the least such state, then the least symbol; the next state comes before the outputs, in order.
    Unspecified {
        state: u16,
        symbol: u32,
        part: Missing,
    },
    /// Memory ran out.
    NoMemory,
}

impl From<AllocError> for BuildFail {
    ghost use Rattle.std.specs.Prelude.{◌≡◌};
    ghost use Rattle.machine_table.specs.declared.builder.BuildFail.TheVariants.{NoMemory};

    ghost from_gives = { λ _ fail. fail ≡ NoMemory };

    fn from(_: AllocError) -> Self {
        BuildFail::NoMemory
    }
}

impl Machine {
    /// The machine of a file. Conflicts are looked for first, then open entries. With `Fill::Hold` open
    /// entries are allowed.
    pub fn build(alloc: Global, file: &KissFile, fill: Fill) -> Result<Machine, BuildFail>
        requires table { IsTable file.now }
        requires numbered { Conflicting file.now → length file.now.rows < 2 ^ 32 }
        ensures machine { IfOk result (λ machine. machine ≡ file.now) }
        ensures accepted { IfOk result (λ machine. Accepted file.now fill) }
        ensures caused { IfErr result (Caused file.now fill) }
    {
        let mut machine = Machine::of_rows(alloc, file)?;
        machine.judge_open(alloc, fill)?;
        Ok(machine)
    }

    /// Refuses open entries, unless they are allowed. Marks the machine if it leaves nothing open.
    fn judge_open(&mut self, alloc: Global, fill: Fill) -> Result<(), BuildFail>
        ensures same { self.new ≡ self.old }
        ensures accepted { OnOk result (Accepted self.old fill) }
        ensures caused { IfErr result (Caused self.old fill) }
    {
        let Some(entry) = self.first_open(alloc)? else {
            self.complete = true;
            return Ok(());
        };
        match fill {
            Fill::Hold => Ok(()),
            Fill::Refuse => Err(BuildFail::Unspecified {
                state: entry.state,
                symbol: entry.symbol,
                part: entry.part,
            }),
        }
    }

    /// The machine of an accepted file.
    pub fn of_accepted(alloc: Global, file: &KissFile, fill: Fill) -> Result<Machine, AllocError>
        requires table { IsTable file.now }
        requires accepted { Accepted file.now fill }
        ensures { IfOk result (λ machine. machine ≡ file.now) }
    {
        match Machine::build(alloc, file, fill) {
            Ok(machine) => Ok(machine),
            Err(BuildFail::NoMemory) => Err(AllocError),
            Err(BuildFail::Conflict { .. }) => unreachable!(),
            Err(BuildFail::Unspecified { .. }) => unreachable!(),
        }
    }

    /// The machine of a file without conflicts, whatever its rows leave open.
    fn of_rows(alloc: Global, file: &KissFile) -> Result<Machine, BuildFail>
        requires table { IsTable file.now }
        requires numbered { Conflicting file.now → length file.now.rows < 2 ^ 32 }
        ensures machine { IfOk result (λ machine. machine ≡ file.now) }
        ensures caused { IfErr result (IsConflictOf file.now) }
    {
        let rows = file.rows.as_slice();
        let places = places_of_states(alloc, rows, file.states.count())?;
        let bundles = bundles_of_states(alloc, rows, &places)?;
        if let Some((earlier, later)) = first_conflict(rows, &bundles) {
            return Err(BuildFail::Conflict {
                row_a: earlier as u32 + 1,
                row_b: later as u32 + 1,
            });
        }
        let rows = RowsByState::of_lists(alloc, file, &places, bundles)?;
        Ok(Machine {
            rows,
            complete: false,
        })
    }
}
