//! The names of the inputs and outputs of the machine of a part.

ghost use Rattle.std.specs.Prelude.{◌≡◌, ◌<◌, ◌≤◌, ◌++◌, All, IfOk, find, length, option_map};
ghost use Rattle.answers.specs.Outcome.{IsJudged};
ghost use Rattle.part_machines.specs.PartMachine as machines;
ghost use Rattle.part_machines.specs.Which as bits;
ghost use Rattle.state_codes.specs.declared.which.Which.TheVariants as whichs;
ghost use Rattle.part_texts.specs.Inner.PartHere.{ArePartNames, all_names};
ghost use Rattle.part_texts.specs.PartCauses.{IsFirstLong, is_long};

use crate::split_machine::SplitMachine;
use answers::{PartFlaw, Refusal};
use dependence::ReadSet;
use gate_rows::listed_names;
use hs_io::{Name, Names, copied_names};
use net_core::SignalNames;
use state_codes::{Codes, Which};
use std::alloc::{AllocError, Global};

/// The greatest number of bytes of a name that a text gives.
const MOST_BYTES: usize = 64;

/// The names of the inputs and of the outputs.
#[derive(Drop)]
pub(crate) struct PartNames {
    pub inputs: Names,
    pub outputs: Names,
}

/// The names of the machine of the part that reads the set, if none of them is too long.
pub(crate) fn names_of_part(
    alloc: Global,
    made: &SplitMachine,
    set: &ReadSet,
    which: Which,
) -> Result<PartNames, Refusal>
    requires inputs { All (λ a. a < length made.now.names.inputs) set.now.inputs }
    requires latches { All (λ c. c < length made.now.names.latch_outputs) set.now.latches }
    requires owner { length made.now.codes.owner ≡ made.now.codes.bits }
    requires bits { made.now.codes.bits ≡ length made.now.names.latch_outputs }
    requires short { made.now.codes.bits ≤ 64 }
    ensures { IsJudged (IsFirstLong which (all_names made.now set.now which)) (ArePartNames made.now set.now which) result }
{
    let names = signals(alloc, made, set, which)?;
    match first_long(&names) {
        Some(bytes) => Err(Refusal::NoPart(PartFlaw::LongName { which, bytes })),
        None => Ok(names),
    }
}

/// The names of the machine of the part that reads the set.
fn signals(
    alloc: Global,
    made: &SplitMachine,
    set: &ReadSet,
    which: Which,
) -> Result<PartNames, AllocError>
    requires inputs { All (λ a. a < length made.now.names.inputs) set.now.inputs }
    requires latches { All (λ c. c < length made.now.names.latch_outputs) set.now.latches }
    requires owner { length made.now.codes.owner ≡ made.now.codes.bits }
    requires bits { made.now.codes.bits ≡ length made.now.names.latch_outputs }
    requires short { made.now.codes.bits ≤ 64 }
    ensures { IfOk result (ArePartNames made.now set.now which) }
{
    let read = listed_names(
        alloc,
        &made.names,
        set.inputs.as_slice(),
        set.latches.as_slice(),
    )?;
    let outputs = output_names(alloc, &made.names, &made.codes, which)?;
    Ok(PartNames {
        inputs: read,
        outputs,
    })
}

/// The names of the outputs.
fn output_names(
    alloc: Global,
    names: &SignalNames,
    codes: &Codes,
    which: Which,
) -> Result<Names, AllocError>
    requires owner { length codes.now.owner ≡ codes.now.bits }
    requires bits { codes.now.bits ≡ length names.now.latch_outputs }
    requires short { codes.now.bits ≤ 64 }
    ensures { IfOk result (λ given. given ≡ machines.output_names names.now codes.now which) }
{
    match which {
        Which::Part(part) => {
            let own = own_bits(alloc, codes, part)?;
            listed_names(alloc, names, &[], &own)
        }
        Which::Outputs => copied_names(alloc, names.outputs.as_slice()),
    }
}

/// The bits of the part with that number.
fn own_bits(alloc: Global, codes: &Codes, part: usize) -> Result<Vec<u8>, AllocError>
    requires owner { length codes.now.owner ≡ codes.now.bits }
    requires short { codes.now.bits ≤ 64 }
    ensures { IfOk result (λ own. own.items ≡ bits.own_bits codes.now (whichs.Part part)) }
{
    let mut own = Vec::new(alloc);
    for (c, owner) in codes.owner.as_slice().iter().enumerate() {
        if usize::from(*owner) == part {
            own.push(c as u8)?;
        }
    }
    Ok(own)
}

/// The number of bytes of the first name that is too long, of the inputs and then of the outputs.
fn first_long(names: &PartNames) -> Option<usize>
    ensures { result ≡ option_map length (find is_long (names.now.inputs ++ names.now.outputs)) }
{
    match long_among(names.inputs.as_slice()) {
        Some(bytes) => Some(bytes),
        None => long_among(names.outputs.as_slice()),
    }
}

/// The number of bytes of the first of the names that is too long.
fn long_among(names: &[Name]) -> Option<usize>
    ensures { result ≡ option_map length (find is_long names.now) }
{
    for name in names {
        let bytes = name.bytes().len();
        if bytes > MOST_BYTES {
            return Some(bytes);
        }
    }
    None
}
