//! The order of a machine, or the refusal that it has none.

ghost use Rattle.std.specs.Prelude.{◌<◌, ◌≤◌, Bool, IfOk, length};
ghost use Rattle.answers.specs.Outcome.{IsJudged};
ghost use Rattle.state_reduce.specs.Work.{IsWork};
ghost use Rattle.shift_real.specs.Chain.{AreTogetherAfter, IsChain};
ghost use Rattle.shift_real.specs.DefiniteMachine.{AreFirstApart, IsOrder};
ghost use Rattle.machine_reports.specs.Causes.{KeepsApart};

use answers::Refusal;
use hs_io::Name;
use shift_real::{Chain, StatesApart, chain, order_of_chain};
use state_reduce::{WorkMachine, state_name};
use std::alloc::{AllocError, Global};

/// The order of the machine that is worked on; or the refusal that names two states that, for every length,
/// some word of that length keeps apart.
pub fn order_of(alloc: Global, work: &WorkMachine) -> Result<usize, Refusal>
    requires work { (reduce : Bool) × IsWork reduce work.now.file.now work.now }
    ensures judged { IsJudged (KeepsApart work.now.machine) (IsOrder work.now.machine) result }
    ensures few { IfOk result (λ k. k < length work.now.machine.states) }
{
    let members = chain(alloc, &work.machine)?;
    order_by_chain(alloc, work, &members)
}

/// The order of the machine that is worked on, which has this chain; or the refusal that names such states.
pub(crate) fn order_by_chain(
    alloc: Global,
    work: &WorkMachine,
    members: &Chain,
) -> Result<usize, Refusal>
    requires work { (reduce : Bool) × IsWork reduce work.now.file.now work.now }
    requires chain { IsChain work.now.machine members.now }
    requires together { AreTogetherAfter work.now.machine members.now }
    requires size { length members.now ≤ length work.now.machine.states }
    ensures judged { IsJudged (KeepsApart work.now.machine) (IsOrder work.now.machine) result }
    ensures few { IfOk result (λ k. k < length work.now.machine.states) }
{
    match order_of_chain(&work.machine, members) {
        Ok(k) => Ok(k),
        Err(StatesApart { s, t }) => Err(kept_apart(alloc, work, usize::from(s), usize::from(t))?),
    }
}

/// The refusal of a machine that keeps two states apart.
fn kept_apart(
    alloc: Global,
    work: &WorkMachine,
    state: usize,
    other: usize,
) -> Result<Refusal, AllocError>
    requires work { (reduce : Bool) × IsWork reduce work.now.file.now work.now }
    requires apart { AreFirstApart work.now.machine state other }
    ensures { IfOk result (KeepsApart work.now.machine) }
{
    Ok(Refusal::NotDefinite {
        state: Name::new(alloc, state_name(work, state))?,
        other: Name::new(alloc, state_name(work, other))?,
    })
}
