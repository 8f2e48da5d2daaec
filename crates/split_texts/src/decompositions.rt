//! A decomposition of the machine of a file.

ghost use Rattle.std.specs.Prelude.{◌≡◌, Bool};
ghost use Rattle.answers.specs.Outcome.{IsJudged};
ghost use Rattle.blif_out.specs.NetworkText.{CanBeHeaded};
ghost use Rattle.kiss_file.specs.LawfulFile.{IsLawful};
ghost use Rattle.kiss_file.specs.Machine.{Accepted, Conflicting};
ghost use Rattle.split_texts.specs.GivenParts.{HasFewParts};
ghost use Rattle.split_texts.specs.Causes.{IsNotWritten};
ghost use Rattle.split_texts.specs.SplitText.{IsOfKind};
ghost use Rattle.state_reduce.specs.Work.{IsWork};
ghost use Rattle.state_codes.specs.declared.split.Kind.TheVariants as kinds;

use crate::networks::network_of_plan;
use crate::plans::plan;
use answers::Refusal;
use blif_out::HeadedNetwork;
use kiss_file::{Fill, KissFile};
use machine_table::Machine;
use state_codes::Kind;
use state_reduce::{WorkMachine, work_machine};
use std::alloc::Global;

/// The network of the decomposition of a kind, with its header. `text` is the operand PARTS, which only the kind
/// `Assign` reads. With `reduce` the machine that is split is the machine of the classes of alike states.
pub fn decompose(
    alloc: Global,
    kind: Kind,
    text: &[u8],
    file: &KissFile,
    machine: Machine,
    fill: Fill,
    reduce: bool,
) -> Result<HeadedNetwork, Refusal>
    requires few { kind ≡ kinds.Assign → HasFewParts text.now }
    requires lawful { IsLawful file.now }
    requires accepted { Accepted file.now fill }
    requires machine { machine ≡ file.now }
    ensures { IsJudged (IsNotWritten kind text.now reduce file.now)
        (λ made. CanBeHeaded made × IsOfKind kind text.now reduce file.now made) result }
{
    let work = work_machine(alloc, file, machine, fill, reduce)?;
    decompose_work(alloc, kind, text, &work)
}

/// The network of the decomposition of a kind, with its header, of a machine that `work_machine` gives.
/// The machine can serve for further kinds.
pub fn decompose_work(
    alloc: Global,
    kind: Kind,
    text: &[u8],
    work: &WorkMachine,
) -> Result<HeadedNetwork, Refusal>
    requires few { kind ≡ kinds.Assign → HasFewParts text.now }
    requires lawful { IsLawful work.now.file.now }
    requires no_conflict { Conflicting work.now.file.now → ⊥ }
    requires work { (reduce : Bool) × IsWork reduce work.now.file.now work.now }
    ensures { (reduce : Bool) → IsWork reduce work.now.file.now work.now
        → IsJudged (IsNotWritten kind text.now reduce work.now.file.now)
        (λ made. CanBeHeaded made × IsOfKind kind text.now reduce work.now.file.now made) result }
{
    let split = plan(alloc, kind, text, &work.machine)?;
    network_of_plan(alloc, work, split)
}
