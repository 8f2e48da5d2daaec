//! The report of `sopairs`.

ghost use Rattle.std.specs.Prelude.{◌≤◌};
ghost use Rattle.answers.specs.Outcome.{IsReported};
ghost use Rattle.io_pairs.specs.Outputs.{AreOutputs, IsOutMmPair};
ghost use Rattle.partition.specs.Sides.{RightBefore};
ghost use Rattle.machine_reports.specs.Causes.{MoreThan, RefusesOutputPairs};
ghost use Rattle.machine_reports.specs.OutputTexts.{IsOutputEvidence, IsOutputText};

use crate::bounds::{few_inputs, few_outputs};
use crate::lines::append_io_pairs;
use crate::output_lines::output_lines;
use answers::{Bytes, Refusal, Report};
use hs_lattice::Listing;
use io_pairs::{Outs, output_pairs};
use machine_table::Machine;
use std::alloc::Global;

/// The outputs that occur, and after them the Mm pairs of partitions of the states and of the outputs, or
/// evidence that there are more pairs than the limit.
pub fn sopairs(alloc: Global, machine: &Machine, limit: usize) -> Result<Report, Refusal>
    requires positive { 1 ≤ limit }
    requires bounded { limit ≤ 10000 }
    ensures { IsReported (RefusesOutputPairs machine.now limit)
        (IsOutputText machine.now limit) (IsOutputEvidence machine.now limit) result }
{
    few_inputs(machine)?;
    let outs = few_outputs(alloc, machine)?;
    listed(alloc, machine, &outs, limit)
}

/// The outputs and the pairs of a machine of few inputs and outputs.
fn listed(alloc: Global, machine: &Machine, outs: &Outs, limit: usize) -> Result<Report, Refusal>
    requires inputs { machine.now.inputs ≤ 8 }
    requires outs { AreOutputs machine.now outs.now }
    requires positive { 1 ≤ limit }
    requires bounded { limit ≤ 10000 }
    ensures { IsReported (MoreThan RightBefore (IsOutMmPair machine.now) limit)
        (IsOutputText machine.now limit) (IsOutputEvidence machine.now limit) result }
{
    let mut text = output_lines(alloc, machine.outputs(), outs.as_slice())?;
    match output_pairs(alloc, machine, outs, limit)? {
        Listing::Whole(all) => {
            append_io_pairs(alloc, all.as_slice(), &mut text)?;
            Ok(Report::Whole(Bytes::from(text)))
        }
        Listing::More(some) => {
            append_io_pairs(alloc, some.as_slice(), &mut text)?;
            Ok(Report::Evidence {
                text: Bytes::from(text),
                limit,
            })
        }
    }
}
