//! The split of a job, with all that its network is made of.

ghost use Rattle.std.specs.Prelude.{◌≡◌, ℕ, Bool, IfOk, List, length};
ghost use Rattle.answers.specs.Outcome.{IsJudged};
ghost use Rattle.kiss_file.specs.LawfulFile.{IsLawful};
ghost use Rattle.kiss_file.specs.Machine.{Conflicting};
ghost use Rattle.part_texts.specs.Inner.SplitHere.{IsReadSplit, IsSplitHere};
ghost use Rattle.part_texts.specs.SplitMachine.{IsSplitMachine};
ghost use Rattle.split_texts.specs.Causes.{IsNotWritten};
ghost use Rattle.split_texts.specs.GivenParts.{HasFewParts};
ghost use Rattle.split_texts.specs.Splits.{IsPlanned};
ghost use Rattle.split_texts.specs.SplitText.{AreCodes};
ghost use Rattle.state_codes.specs.declared.split.Kind.TheVariants as kinds;
ghost use Rattle.state_reduce.specs.Work.{IsWork};

use answers::Refusal;
use decomposition::reads_are_enough;
use dependence::{Reads, reads};
use net_core::SignalNames;
use realise::names;
use split_texts::{codes_of, plan};
use state_codes::{Codes, Kind, Split};
use state_reduce::WorkMachine;
use std::alloc::{AllocError, Global};

/// A split, its codes, what the gates of its network read, and the names of the signals there.
#[derive(Drop)]
pub(crate) struct SplitMachine {
    pub split: Split,
    pub codes: Codes,
    pub reads: Reads,
    pub names: SignalNames,
}

/// The split of a machine that `work_machine` gives.
pub(crate) fn split_machine(
    alloc: Global,
    kind: Kind,
    text: &[u8],
    work: &WorkMachine,
) -> Result<SplitMachine, Refusal>
    requires few { kind ≡ kinds.Assign → HasFewParts text.now }
    requires lawful { IsLawful work.now.file.now }
    requires no_conflict { Conflicting work.now.file.now → ⊥ }
    requires work { (reduce : Bool) × IsWork reduce work.now.file.now work.now }
    ensures here { IfOk result (IsSplitHere work.now.file.now work.now.machine) }
    ensures judged { (reduce : Bool) → IsWork reduce work.now.file.now work.now
        → IsJudged (IsNotWritten kind text.now reduce work.now.file.now)
        (λ made. IsSplitMachine kind text.now reduce work.now.file.now work.now.machine
        made.split.parts made.codes made.reads made.names) result }
{
    let split = plan(alloc, kind, text, &work.machine)?;
    let codes = codes_of(alloc, work, &split)?;
    Ok(with_reads(alloc, work, split, codes)?)
}

/// A split with its codes, what the gates read, and the names of the signals.
fn with_reads(
    alloc: Global,
    work: &WorkMachine,
    split: Split,
    codes: Codes,
) -> Result<SplitMachine, AllocError>
    requires lawful { IsLawful work.now.file.now }
    requires planned { (text : List ℕ) × IsPlanned split.kind text work.now.machine split }
    requires codes { AreCodes (length work.now.machine.states) split.parts codes }
    ensures { IfOk result (IsReadSplit work.now.file.now work.now.machine split codes) }
{
    reads_are_enough();
    work.machine.keeps_its_states();
    let reads = reads(alloc, &work.machine, &split, &codes)?;
    let names = names(alloc, work.file, codes.bits)?;
    Ok(SplitMachine {
        split,
        codes,
        reads,
        names,
    })
}
