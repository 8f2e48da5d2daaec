//! The network of a trial, with its comments.

ghost use Rattle.std.specs.Prelude.{◌≡◌, ◌≤◌, ◌++◌, IfOk, false};
ghost use Rattle.answers.specs.Outcome.{IsJudged};
ghost use Rattle.blif_out.specs.Comments.{IsPrintable};
ghost use Rattle.blif_out.specs.Head.{header_text};
ghost use Rattle.blif_out.specs.NetworkText.{CanBeText};
ghost use Rattle.state_reduce.specs.Work.{IsWork};
ghost use Rattle.kiss_file.specs.LawfulFile.{IsLawful};
ghost use Rattle.kiss_file.specs.Machine.{Accepted, Conflicting};
ghost use Rattle.machine_gen.specs.WordMachine.{AreSizes};
ghost use Rattle.generated_texts.specs.SeedMachine.{IsGenerated, OfGenerated};
ghost use Rattle.generated_texts.specs.Trial.{IsTrialNetwork, LongCodeRow};
ghost use Rattle.generated_texts.specs.Inner.CodedSplit.{IsCodedSplit, IsSummary};
ghost use Rattle.state_codes.specs.Code.{IsLength};

use crate::figures::{Numbers, figures_of};
use answers::{Bytes, Refusal};
use blif_out::{CommentedNetwork, HeadedNetwork, header_comments};
use hs_texts::reports;
use kiss_file::{Fill, KissFile};
use machine_gen::make;
use machine_table::Machine;
use split_texts::{codes_of, network_of_codes, plan};
use state_codes::{Codes, Kind, Split};
use state_reduce::{WorkMachine, work_machine};
use std::alloc::{AllocError, Global};

/// A split with its codes.
#[derive(Drop)]
struct CodedSplit {
    split: Split,
    codes: Codes,
}

/// Makes the machine of the numbers, and gives the network of its parallel decomposition, with a summary and the
/// header as comments.
pub fn trial(alloc: Global, seed: u64, a: u16, b: u16, k: u8) -> Result<CommentedNetwork, Refusal>
    requires { AreSizes a b k }
    ensures { IsJudged (LongCodeRow seed a b k)
        (λ made. CanBeText made × OfGenerated seed a b k (λ F. IsTrialNetwork seed a b k F made)) result }
{
    let file = make(alloc, seed, a, b, k)?;
    trial_of(alloc, Numbers { seed, a, b, k }, &file)
}

/// The network of the parallel decomposition of the machine of the numbers, which this file is, with a summary and the
/// header as comments.
fn trial_of(alloc: Global, numbers: Numbers, file: &KissFile) -> Result<CommentedNetwork, Refusal>
    requires sizes { AreSizes numbers.a numbers.b numbers.k }
    requires made { IsGenerated numbers.seed numbers.a numbers.b numbers.k file.now }
    requires lawful { IsLawful file.now }
    requires accepted { Accepted file.now Fill.Refuse }
    ensures { IsJudged (LongCodeRow numbers.seed numbers.a numbers.b numbers.k)
        (λ made. CanBeText made × IsTrialNetwork numbers.seed numbers.a numbers.b numbers.k file.now made) result }
{
    let work = machine_of(alloc, file)?;
    trial_on(alloc, numbers, &work)
}

/// The network of the parallel decomposition of a machine that `work_machine` gives, with a summary and the header as
/// comments.
fn trial_on(
    alloc: Global,
    numbers: Numbers,
    work: &WorkMachine,
) -> Result<CommentedNetwork, Refusal>
    requires sizes { AreSizes numbers.a numbers.b numbers.k }
    requires made { IsGenerated numbers.seed numbers.a numbers.b numbers.k work.now.machine }
    requires lawful { IsLawful work.now.file.now }
    requires no_conflict { Conflicting work.now.file.now → ⊥ }
    requires work { IsWork false work.now.file.now work.now }
    ensures { IsJudged (LongCodeRow numbers.seed numbers.a numbers.b numbers.k)
        (λ made. CanBeText made × IsTrialNetwork numbers.seed numbers.a numbers.b numbers.k work.now.file.now made)
        result }
{
    let coded = split_of(alloc, numbers, work)?;
    Ok(network_of(alloc, numbers, work, coded)?)
}

/// The machine of a file that is accepted as it is.
fn machine_of(alloc: Global, file: &KissFile) -> Result<WorkMachine<'_>, AllocError>
    requires lawful { IsLawful file.now }
    requires accepted { Accepted file.now Fill.Refuse }
    ensures { IfOk result (IsWork false file.now) }
{
    let machine = Machine::of_accepted(alloc, file, Fill::Refuse)?;
    work_machine(alloc, file, machine, Fill::Refuse, false)
}

/// The parallel split of a machine of the numbers, and its codes.
fn split_of(alloc: Global, numbers: Numbers, work: &WorkMachine) -> Result<CodedSplit, Refusal>
    requires sizes { AreSizes numbers.a numbers.b numbers.k }
    requires made { IsGenerated numbers.seed numbers.a numbers.b numbers.k work.now.machine }
    requires work { IsWork false work.now.file.now work.now }
    ensures { IsJudged (LongCodeRow numbers.seed numbers.a numbers.b numbers.k) (IsCodedSplit work.now.machine) result }
{
    let split = plan(alloc, Kind::Parallel, b"", &work.machine)?;
    let codes = codes_of(alloc, work, &split)?;
    Ok(CodedSplit { split, codes })
}

/// The network of the split, with a summary and its header as comments.
fn network_of(
    alloc: Global,
    numbers: Numbers,
    work: &WorkMachine,
    coded: CodedSplit,
) -> Result<CommentedNetwork, AllocError>
    requires sizes { AreSizes numbers.a numbers.b numbers.k }
    requires made { IsGenerated numbers.seed numbers.a numbers.b numbers.k work.now.machine }
    requires lawful { IsLawful work.now.file.now }
    requires no_conflict { Conflicting work.now.file.now → ⊥ }
    requires work { IsWork false work.now.file.now work.now }
    requires coded { IsCodedSplit work.now.machine coded }
    ensures ready { IfOk result CanBeText }
    ensures trial { IfOk result (IsTrialNetwork numbers.seed numbers.a numbers.b numbers.k work.now.file.now) }
{
    let summary = summary_of(alloc, numbers, &work.machine, &coded)?;
    let made = network_of_codes(alloc, work, coded.split, &coded.codes)?;
    with_summary(alloc, summary, made)
}

/// The summary of a machine and its coded split.
fn summary_of(
    alloc: Global,
    numbers: Numbers,
    machine: &Machine,
    coded: &CodedSplit,
) -> Result<Vec<u8>, AllocError>
    requires inputs { machine.now.inputs ≤ 8 }
    requires outputs { machine.now.outputs ≡ 2 }
    requires latches { IsLength coded.now.split.parts coded.now.codes.bits }
    ensures { IfOk result (λ text. IsSummary numbers machine.now coded.now.split text.items) }
{
    let parts = coded.split.parts.as_slice();
    let figures = figures_of(alloc, numbers, machine, parts, coded.codes.bits)?;
    reports::trial(alloc, &figures)
}

/// A network with a summary and its header as comments.
fn with_summary(
    alloc: Global,
    summary: Vec<u8>,
    made: HeadedNetwork,
) -> Result<CommentedNetwork, AllocError>
    requires { IsPrintable made.header }
    ensures comments { IfOk result (λ commented. commented.comments ≡ summary.items ++ header_text made.header) }
    ensures network { IfOk result (λ commented. commented.network ≡ made.network) }
{
    let HeadedNetwork { header, network } = made;
    let mut comments = summary;
    comments.extend_from_slice(&header_comments(alloc, &header)?)?;
    Ok(CommentedNetwork {
        comments: Bytes::from(comments),
        network,
    })
}
