//! The rows of all cells.

ghost use Rattle.std.specs.Prelude.{◌+◌, ◌≡◌, ◌<◌, ◌≤◌, All, IfOk, length};
ghost use Rattle.part_machines.specs.PartRows.{AreCellRows, ArePartRows};
ghost use Rattle.part_rows.specs.Inner.Shown.{IsShown};

use crate::distinct::rows_once;
use crate::part_row::{is_taken, part_row};
use crate::shown::{Shown, shown_cells};
use dependence::{ReadSet, filled_rows};
use kiss_file::KissRow;
use machine_table::Machine;
use partition::Partition;
use state_codes::{Codes, Which};
use std::alloc::{AllocError, Global};

/// The rows of the machine of a part, or of the machine of the outputs.
///
/// The partition is that of the part, and for the outputs the one with a single block. The set has what the part
/// reads.
pub fn rows_of_part(
    alloc: Global,
    machine: &Machine,
    codes: &Codes,
    p: &Partition,
    set: &ReadSet,
    which: Which,
) -> Result<Vec<KissRow>, AllocError>
    requires states { length p.now ≡ length machine.now.states }
    requires words { length codes.now.words ≡ length machine.now.states }
    requires owner { length codes.now.owner ≡ codes.now.bits }
    requires short { codes.now.bits ≤ 64 }
    requires inputs { All (λ a. a < machine.now.inputs) set.now.inputs }
    requires latches { All (λ c. c < 64) set.now.latches }
    requires some { 0 < length set.now.inputs + length set.now.latches }
    requires few { length set.now.inputs + length set.now.latches ≤ 32 }
    ensures { IfOk result (λ rows. ArePartRows machine.now codes.now p.now set.now which rows.items) }
{
    let cells = shown_cells(alloc, codes, p, set, which)?;
    let mut rows = Vec::new(alloc);
    for cell in &cells {
        let mut own = cell_rows(alloc, machine, p, set, which, cell)?;
        rows.append(&mut own)?;
    }
    Ok(rows)
}

/// The rows of a cell.
fn cell_rows(
    alloc: Global,
    machine: &Machine,
    p: &Partition,
    set: &ReadSet,
    which: Which,
    cell: &Shown,
) -> Result<Vec<KissRow>, AllocError>
    requires states { length p.now ≡ length machine.now.states }
    requires state { cell.now.state < length p.now }
    requires inputs { All (λ a. a < machine.now.inputs) set.now.inputs }
    requires some { 0 < length set.now.inputs + length set.now.latches }
    requires few { length set.now.inputs + length set.now.latches ≤ 32 }
    requires shown { (codes : Codes) × IsShown codes p.now set.now.latches which cell.now }
    ensures { IfOk result (λ made. (codes : Codes) → IsShown codes p.now set.now.latches which cell.now
        → AreCellRows machine.now codes p.now set.now which cell.now.state made.items) }
{
    let filled = filled_rows(alloc, machine, usize::from(cell.state))?;
    let mut made = Vec::new(alloc);
    for row in &filled {
        if is_taken(row, which) {
            made.push(part_row(p, set, which, cell, row))?;
        }
    }
    rows_once(alloc, &made)
}
