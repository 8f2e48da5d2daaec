//! Why a part has no machine, and what it reads if it may have one.

ghost use Rattle.std.specs.Prelude.{◌≡◌, ◌↔◌, ◌≤◌, [], Contains, IsTrue, length};
ghost use Rattle.answers.specs.Cause.{FirstOf};
ghost use Rattle.answers.specs.Outcome.{IsJudged};
ghost use Rattle.kiss_file.specs.declared.file.KissFile.{KissFile};
ghost use Rattle.machine_table.specs.Table.{IsTable};
ghost use Rattle.part_texts.specs.Inner.PartHere.{HasNoSet, IsMissing, IsSmallSet, IsThere};
ghost use Rattle.part_texts.specs.Inner.SplitHere.{IsSplitHere};

use crate::split_machine::SplitMachine;
use answers::{PartFlaw, Refusal};
use dependence::ReadSet;
use part_machines::inputs_of_part;
use state_codes::{Codes, Part, Which};
use std::alloc::Global;

/// The greatest number of inputs of a machine.
const MOST_INPUTS: usize = 32;

/// The inputs of the machine of the part.
pub(crate) fn set_of_part(
    alloc: Global,
    made: &SplitMachine,
    which: Which,
) -> Result<ReadSet, Refusal>
    requires { (F : KissFile) × (W : KissFile) × IsTable W × IsSplitHere F W made.now }
    ensures { IsJudged (HasNoSet which made.now.split.parts made.now.codes made.now.reads)
        (IsSmallSet made.now.split.parts made.now.codes made.now.reads which) result }
{
    check(made.split.parts.as_slice(), &made.codes, which)?;
    let set = inputs_of_part(alloc, &made.codes, &made.reads, which)?;
    let inputs = set.inputs.as_slice().len() + set.latches.as_slice().len();
    if inputs > MOST_INPUTS {
        return Err(Refusal::NoPart(PartFlaw::ManyInputs { which, inputs }));
    }
    Ok(set)
}

/// Refuses a part that is not there, and one that has no bits.
fn check(parts: &[Part], codes: &Codes, which: Which) -> Result<(), Refusal>
    requires { length codes.now.owner ≡ codes.now.bits }
    ensures { IsJudged (IsMissing which parts.now codes.now) (λ _. IsThere parts.now codes.now which) result }
{
    let Which::Part(part) = which else {
        return Ok(());
    };
    if part >= parts.len() {
        return Err(Refusal::NoPart(PartFlaw::Missing { part }));
    }
    if !has_bits(codes.owner.as_slice(), part) {
        return Err(Refusal::NoPart(PartFlaw::NoBits { part }));
    }
    Ok(())
}

/// Whether the part with that number owns a bit.
fn has_bits(owners: &[u16], part: usize) -> bool
    ensures { IsTrue result ↔ Contains owners.now part }
{
    owners.iter().any(|owner| usize::from(*owner) == part)
}
