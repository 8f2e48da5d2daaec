//! The report of `ispairs`.

ghost use Rattle.std.specs.Prelude.{◌≤◌};
ghost use Rattle.answers.specs.Outcome.{IsReported};
ghost use Rattle.io_pairs.specs.Inputs.{IsInMmPair};
ghost use Rattle.partition.specs.Sides.{RightBefore};
ghost use Rattle.machine_reports.specs.Causes.{MoreThan, RefusesInputPairs};
ghost use Rattle.machine_reports.specs.ListTexts.{IsEvidenceText, IsListText, pair_line};

use crate::bounds::few_inputs;
use crate::lines::append_io_pairs;
use answers::{Bytes, Refusal, Report};
use hs_lattice::Listing;
use io_pairs::input_pairs;
use machine_table::Machine;
use std::alloc::Global;

/// The Mm pairs of partitions of the symbols and of the states, or evidence that there are more than the limit.
pub fn ispairs(alloc: Global, machine: &Machine, limit: usize) -> Result<Report, Refusal>
    requires positive { 1 ≤ limit }
    requires bounded { limit ≤ 10000 }
    ensures { IsReported (RefusesInputPairs machine.now limit)
        (IsListText pair_line RightBefore (IsInMmPair machine.now) limit)
        (IsEvidenceText pair_line RightBefore (IsInMmPair machine.now) limit) result }
{
    few_inputs(machine)?;
    listed(alloc, machine, limit)
}

/// The pairs of a machine of few inputs.
fn listed(alloc: Global, machine: &Machine, limit: usize) -> Result<Report, Refusal>
    requires inputs { machine.now.inputs ≤ 8 }
    requires positive { 1 ≤ limit }
    requires bounded { limit ≤ 10000 }
    ensures { IsReported (MoreThan RightBefore (IsInMmPair machine.now) limit)
        (IsListText pair_line RightBefore (IsInMmPair machine.now) limit)
        (IsEvidenceText pair_line RightBefore (IsInMmPair machine.now) limit) result }
{
    let mut text = Vec::new(alloc);
    match input_pairs(alloc, machine, limit)? {
        Listing::Whole(all) => {
            append_io_pairs(alloc, all.as_slice(), &mut text)?;
            Ok(Report::Whole(Bytes::from(text)))
        }
        Listing::More(some) => {
            append_io_pairs(alloc, some.as_slice(), &mut text)?;
            Ok(Report::Evidence {
                text: Bytes::from(text),
                limit,
            })
        }
    }
}
