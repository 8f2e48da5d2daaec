//! The reports of `closed`, `output` and `pairs`.

ghost use Rattle.std.specs.Prelude.{◌≡◌, ◌≤◌, IfOk, map};
ghost use Rattle.answers.specs.Outcome.{IsReported};
ghost use Rattle.closed_lattice.specs.ClosedPartitions.{IsClosedPartition};
ghost use Rattle.mm_lattice.specs.MmPairs.{IsMmPair};
ghost use Rattle.partition.specs.Sides.{RightBefore};
ghost use Rattle.mm_lattice.specs.Sides.{sides_of};
ghost use Rattle.output_consistent.specs.Outputs.{IsClosedAndConsistent};
ghost use Rattle.partition.specs.Order.{Before};
ghost use Rattle.machine_reports.specs.Causes.{MoreThan};
ghost use Rattle.machine_reports.specs.ListTexts.{IsEvidenceText, IsListText, lines_of};
ghost use Rattle.machine_reports.specs.StateTexts.{state_line, state_pair_line};

use crate::lines::lines_of_parts;
use crate::state_texts::{Shown, append_state_line, append_state_pair};
use answers::{Bytes, Refusal, Report};
use hs_lattice::Listing;
use kiss_file::{KissFile, StateNames};
use machine_table::Machine;
use mm_lattice::MmPair;
use partition::BitPart;
use std::alloc::{AllocError, Global};

/// The closed partitions, or evidence that there are more than the limit.
pub fn closed(
    alloc: Global,
    file: &KissFile,
    machine: &Machine,
    limit: usize,
    shown: Shown,
) -> Result<Report, Refusal>
    requires machine { machine.now ≡ file.now }
    requires positive { 1 ≤ limit }
    requires bounded { limit ≤ 10000 }
    ensures { IsReported (MoreThan Before (IsClosedPartition machine.now) limit)
        (IsListText (state_line shown machine.now.states) Before (IsClosedPartition machine.now) limit)
        (IsEvidenceText (state_line shown machine.now.states) Before (IsClosedPartition machine.now) limit) result }
{
    match closed_lattice::all(alloc, machine, limit)? {
        Listing::Whole(all) => Ok(Report::Whole(Bytes::from(bit_lines(
            alloc,
            shown,
            &file.states,
            all.as_slice(),
        )?))),
        Listing::More(some) => Ok(Report::Evidence {
            text: Bytes::from(bit_lines(alloc, shown, &file.states, some.as_slice())?),
            limit,
        }),
    }
}

/// The closed partitions that the outputs respect, or evidence that there are more than the limit.
pub fn output(
    alloc: Global,
    file: &KissFile,
    machine: &Machine,
    limit: usize,
    shown: Shown,
) -> Result<Report, Refusal>
    requires machine { machine.now ≡ file.now }
    requires positive { 1 ≤ limit }
    requires bounded { limit ≤ 10000 }
    ensures { IsReported (MoreThan Before (IsClosedAndConsistent machine.now) limit)
        (IsListText (state_line shown machine.now.states) Before (IsClosedAndConsistent machine.now) limit)
        (IsEvidenceText (state_line shown machine.now.states) Before (IsClosedAndConsistent machine.now) limit) result }
{
    match output_consistent::all(alloc, machine, limit)? {
        Listing::Whole(all) => Ok(Report::Whole(Bytes::from(lines_of_parts(
            alloc,
            shown,
            &file.states,
            all.as_slice(),
        )?))),
        Listing::More(some) => Ok(Report::Evidence {
            text: Bytes::from(lines_of_parts(alloc, shown, &file.states, some.as_slice())?),
            limit,
        }),
    }
}

/// The Mm pairs, or evidence that there are more than the limit.
pub fn pairs(
    alloc: Global,
    file: &KissFile,
    machine: &Machine,
    limit: usize,
    shown: Shown,
) -> Result<Report, Refusal>
    requires machine { machine.now ≡ file.now }
    requires positive { 1 ≤ limit }
    requires bounded { limit ≤ 10000 }
    ensures { IsReported (MoreThan RightBefore (IsMmPair machine.now) limit)
        (IsListText (state_pair_line shown machine.now.states) RightBefore (IsMmPair machine.now) limit)
        (IsEvidenceText (state_pair_line shown machine.now.states) RightBefore (IsMmPair machine.now) limit) result }
{
    match mm_lattice::all(alloc, machine, limit)? {
        Listing::Whole(all) => Ok(Report::Whole(Bytes::from(pair_lines(
            alloc,
            shown,
            &file.states,
            all.as_slice(),
        )?))),
        Listing::More(some) => Ok(Report::Evidence {
            text: Bytes::from(pair_lines(alloc, shown, &file.states, some.as_slice())?),
            limit,
        }),
    }
}

/// The lines of partitions that are kept as rows of bits.
fn bit_lines(
    alloc: Global,
    shown: Shown,
    names: &StateNames,
    parts: &[BitPart],
) -> Result<Vec<u8>, AllocError>
    ensures { IfOk result (λ text. text.items ≡ lines_of (state_line shown names.now) parts.now) }
{
    let mut text = Vec::new(alloc);
    for part in parts {
        append_state_line(alloc, shown, names, &part.labels(alloc)?, &mut text)?;
    }
    Ok(text)
}

/// The lines of pairs.
fn pair_lines(
    alloc: Global,
    shown: Shown,
    names: &StateNames,
    pairs: &[MmPair],
) -> Result<Vec<u8>, AllocError>
    ensures { IfOk result (λ text. text.items ≡ lines_of (state_pair_line shown names.now) (map sides_of pairs.now)) }
{
    let mut text = Vec::new(alloc);
    for pair in pairs {
        append_state_pair(alloc, shown, names, &pair.left, &pair.right, &mut text)?;
    }
    Ok(text)
}
