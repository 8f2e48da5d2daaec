//! The report of `definite`.

ghost use Rattle.std.specs.Prelude.{◌≡◌, Bool};
ghost use Rattle.answers.specs.Outcome.{IsJudged};
ghost use Rattle.kiss_file.specs.LawfulFile.{IsLawful};
ghost use Rattle.kiss_file.specs.Machine.{Accepted};
ghost use Rattle.state_reduce.specs.Work.{IsWork};
ghost use Rattle.machine_reports.specs.Causes.{NotDefiniteRow};
ghost use Rattle.machine_reports.specs.DefiniteText.{IsChainText};

use crate::lines::lines_of_parts;
use crate::orders::order_by_chain;
use crate::state_texts::{Shown, work_names};
use answers::Refusal;
use kiss_file::{Fill, KissFile};
use machine_table::Machine;
use shift_real::chain;
use state_reduce::{WorkMachine, work_machine};
use std::alloc::Global;

/// How the states of the machine that is worked on come together symbol by symbol; or the refusal that names
/// two states that, for every length, some word of that length keeps apart. The machine is that of the file
/// under the fill.
pub fn definite(
    alloc: Global,
    file: &KissFile,
    machine: Machine,
    fill: Fill,
    reduce: bool,
    shown: Shown,
) -> Result<Vec<u8>, Refusal>
    requires lawful { IsLawful file.now }
    requires accepted { Accepted file.now fill }
    requires machine { machine ≡ file.now }
    ensures { IsJudged (NotDefiniteRow reduce file.now) (λ text. IsChainText shown reduce file.now text.items) result }
{
    let work = work_machine(alloc, file, machine, fill, reduce)?;
    chain_text(alloc, &work, shown)
}

/// How the states of a machine that is worked on come together; or the same refusal.
fn chain_text(alloc: Global, work: &WorkMachine, shown: Shown) -> Result<Vec<u8>, Refusal>
    requires { (reduce : Bool) × IsWork reduce work.now.file.now work.now }
    ensures { (reduce : Bool) → IsWork reduce work.now.file.now work.now
        → IsJudged (NotDefiniteRow reduce work.now.file.now)
        (λ text. IsChainText shown reduce work.now.file.now text.items) result }
{
    work.machine.keeps_its_states();
    let members = chain(alloc, &work.machine)?;
    order_by_chain(alloc, work, &members)?;
    let names = work_names(work);
    Ok(lines_of_parts(alloc, shown, names, members.as_slice())?)
}
