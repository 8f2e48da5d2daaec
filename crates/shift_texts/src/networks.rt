//! The network of the register of a machine that is worked on.

ghost use Rattle.std.specs.Prelude.{ℕ, Bool, IfOk};
ghost use Rattle.answers.specs.Outcome.{IsJudged};
ghost use Rattle.state_reduce.specs.Work.{IsWork};
ghost use Rattle.kiss_file.specs.LawfulFile.{IsLawful};
ghost use Rattle.kiss_file.specs.Machine.{Conflicting};
ghost use Rattle.shift_real.specs.DefiniteMachine.{IsOrder};
ghost use Rattle.shift_real.specs.Register.{HasShortOrder, IsNotReached};
ghost use Rattle.shift_texts.specs.Causes.{NeverInReset};
ghost use Rattle.shift_texts.specs.Inner.Registers.{IsRegisterOf};

use answers::Refusal;
use hs_io::Name;
use net_core::Network;
use realise::names;
use shift_real::{RegisterFail, register};
use state_reduce::{WorkMachine, state_name};
use std::alloc::{AllocError, Global};

/// The network of the register of the machine that is worked on, which is definite and has this order. The
/// signals have the names of the file.
pub(crate) fn register_of(
    alloc: Global,
    work: &WorkMachine,
    order: usize,
) -> Result<Network, Refusal>
    requires lawful { IsLawful work.now.file.now }
    requires no_conflict { Conflicting work.now.file.now → ⊥ }
    requires work { (reduce : Bool) × IsWork reduce work.now.file.now work.now }
    requires order { HasShortOrder work.now.machine order }
    ensures { IsJudged (NeverInReset work.now.machine) (IsRegisterOf work.now.file.now work.now.machine order) result }
{
    let bits = order * usize::from(work.machine.inputs());
    let signals = names(alloc, work.file, bits)?;
    match register(alloc, &work.machine, order, &signals) {
        Ok(net) => Ok(net),
        Err(RegisterFail::NotReached) => Err(not_reached(alloc, work)?),
        Err(RegisterFail::NoMemory) => Err(Refusal::NoMemory),
    }
}

/// The refusal of a machine in whose reset state no word of as many symbols as its order ends.
fn not_reached(alloc: Global, work: &WorkMachine) -> Result<Refusal, AllocError>
    requires work { (reduce : Bool) × IsWork reduce work.now.file.now work.now }
    requires none { (k : ℕ) × IsOrder work.now.machine k × IsNotReached work.now.machine k }
    ensures { IfOk result (NeverInReset work.now.machine) }
{
    let reset = state_name(work, work.machine.reset());
    Ok(Refusal::NotReached {
        reset: Name::new(alloc, reset)?,
    })
}
