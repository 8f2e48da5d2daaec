//! The order of a machine whose register has few bits.

ghost use Rattle.std.specs.Prelude.{Bool};
ghost use Rattle.answers.specs.Outcome.{IsJudged};
ghost use Rattle.state_reduce.specs.Work.{IsWork};
ghost use Rattle.shift_real.specs.Register.{HasShortOrder};
ghost use Rattle.shift_texts.specs.Causes.{HasNoShortOrder};

use answers::Refusal;
use machine_reports::order_of;
use state_reduce::WorkMachine;
use std::alloc::Global;

/// The greatest number of bits of a register.
const MOST_BITS: usize = 12;

/// The order of the machine that is worked on, if its register has few bits.
pub(crate) fn short_order(alloc: Global, work: &WorkMachine) -> Result<usize, Refusal>
    requires work { (reduce : Bool) × IsWork reduce work.now.file.now work.now }
    ensures { IsJudged (HasNoShortOrder work.now.machine) (HasShortOrder work.now.machine) result }
{
    let k = order_of(alloc, work)?;
    work.machine.keeps_its_states();
    let bits = k * usize::from(work.machine.inputs());
    if bits > MOST_BITS {
        return Err(Refusal::CodeTooLong { bits });
    }
    Ok(k)
}
