//! The codes of a split, and its network with the header that explains it.

ghost use Rattle.std.specs.Prelude.{ℕ, ◌<◌, Bool, IfOk, List, length};
ghost use Rattle.answers.specs.Outcome.{IsJudged};
ghost use Rattle.blif_out.specs.NetworkText.{CanBeHeaded};
ghost use Rattle.state_reduce.specs.Work.{IsWork};
ghost use Rattle.kiss_file.specs.LawfulFile.{IsLawful};
ghost use Rattle.kiss_file.specs.Machine.{Conflicting};
ghost use Rattle.split_texts.specs.Splits.{IsPlanned};
ghost use Rattle.split_texts.specs.Causes.{HasNoCode};
ghost use Rattle.split_texts.specs.Inner.NamedStates.{NamesStates};
ghost use Rattle.split_texts.specs.SplitText.{AreCodes, IsOfParts};
ghost use Rattle.state_codes.specs.Fault.{AreApart};

use answers::Refusal;
use blif_out::HeadedNetwork;
use decomposition::headed_network;
use hs_io::Name;
use state_codes::{CodeFail, Codes, Split, encode};
use state_reduce::{WorkMachine, state_name};
use std::alloc::{AllocError, Global};

/// The network of a split that `plan` gives for a machine that `work_machine` gives.
pub fn network_of_plan(
    alloc: Global,
    work: &WorkMachine,
    split: Split,
) -> Result<HeadedNetwork, Refusal>
    requires lawful { IsLawful work.now.file.now }
    requires no_conflict { Conflicting work.now.file.now → ⊥ }
    requires work { (reduce : Bool) × IsWork reduce work.now.file.now work.now }
    requires planned { (text : List ℕ) × IsPlanned split.kind text work.now.machine split }
    ensures { IsJudged (HasNoCode work.now.machine split.parts)
        (λ made. AreApart (length work.now.machine.states) split.parts × CanBeHeaded made
        × IsOfParts work.now split.kind split.parts made) result }
{
    let codes = codes_of(alloc, work, &split)?;
    Ok(network_of_codes(alloc, work, split, &codes)?)
}

/// The codes of a split that `plan` gives.
pub fn codes_of(alloc: Global, work: &WorkMachine, split: &Split) -> Result<Codes, Refusal>
    requires work { (reduce : Bool) × IsWork reduce work.now.file.now work.now }
    requires planned { (text : List ℕ) × IsPlanned split.now.kind text work.now.machine split.now }
    ensures { IsJudged (HasNoCode work.now.machine split.now.parts)
        (AreCodes (length work.now.machine.states) split.now.parts) result }
{
    match encode(alloc, split, work.machine.states()) {
        Ok(codes) => Ok(codes),
        Err(CodeFail::NotApart { s, t }) => {
            Err(not_apart(alloc, work, usize::from(s), usize::from(t))?)
        }
        Err(CodeFail::CodeTooLong { bits }) => Err(Refusal::CodeTooLong { bits }),
        Err(CodeFail::NoMemory) => Err(Refusal::NoMemory),
    }
}

/// The refusal of parts that leave two states together.
fn not_apart(
    alloc: Global,
    work: &WorkMachine,
    state: usize,
    other: usize,
) -> Result<Refusal, AllocError>
    requires work { (reduce : Bool) × IsWork reduce work.now.file.now work.now }
    requires state { state < length work.now.machine.states }
    requires other { other < length work.now.machine.states }
    ensures { IfOk result (NamesStates work.now.machine state other) }
{
    Ok(Refusal::NotApart {
        state: Name::new(alloc, state_name(work, state))?,
        other: Name::new(alloc, state_name(work, other))?,
    })
}

/// The network of a split with the codes that `codes_of` gives for it.
pub fn network_of_codes(
    alloc: Global,
    work: &WorkMachine,
    split: Split,
    codes: &Codes,
) -> Result<HeadedNetwork, AllocError>
    requires lawful { IsLawful work.now.file.now }
    requires no_conflict { Conflicting work.now.file.now → ⊥ }
    requires work { (reduce : Bool) × IsWork reduce work.now.file.now work.now }
    requires planned { (text : List ℕ) × IsPlanned split.kind text work.now.machine split }
    requires codes { AreCodes (length work.now.machine.states) split.parts codes.now }
    ensures ready { IfOk result CanBeHeaded }
    ensures made { IfOk result (IsOfParts work.now split.kind split.parts) }
{
    work.machine.keeps_its_states();
    headed_network(alloc, work, split, codes)
}
