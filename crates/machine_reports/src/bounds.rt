//! The bounds on the inputs and outputs of a machine whose pairs of symbols or of outputs are listed.

ghost use Rattle.std.specs.Prelude.{◌≤◌};
ghost use Rattle.answers.specs.Outcome.{IsJudged};
ghost use Rattle.io_pairs.specs.Outputs.{AreOutputs};
ghost use Rattle.machine_reports.specs.Causes.{TooManyInputsRow, TooManyOutputsRow};

use answers::Refusal;
use io_pairs::{Outs, OutsFail, outputs};
use machine_table::Machine;
use std::alloc::Global;

/// The greatest number of inputs.
const MOST_INPUTS: u8 = 8;

/// Judges whether the machine has few enough inputs.
pub fn few_inputs(machine: &Machine) -> Result<(), Refusal>
    ensures { IsJudged (TooManyInputsRow machine.now) (λ _. machine.now.inputs ≤ 8) result }
{
    let inputs = machine.inputs();
    if inputs > MOST_INPUTS {
        return Err(Refusal::TooManyInputs { inputs });
    }
    Ok(())
}

/// The outputs that occur, if there are not too many.
pub fn few_outputs(alloc: Global, machine: &Machine) -> Result<Outs, Refusal>
    requires { machine.now.inputs ≤ 8 }
    ensures { IsJudged (TooManyOutputsRow machine.now) (AreOutputs machine.now) result }
{
    match outputs(alloc, machine) {
        Ok(outs) => Ok(outs),
        Err(OutsFail::TooMany) => Err(Refusal::TooManyOutputs),
        Err(OutsFail::NoMemory) => Err(Refusal::NoMemory),
    }
}
