//! The commands that work on the machine of FILE alone.

ghost use Rattle.std.specs.Prelude.{◌≡◌, ◌≤◌, ◌↔◌, ◌⊎◌, ℕ, Err, IfOk, List, MatchResult, Ok};
ghost use Rattle.hs_io.specs.Counts.{Rose};
ghost use Rattle.answers.specs.declared.refusals.Refusal.TheVariants.{NoMemory};
ghost use Rattle.answers.specs.declared.reports.Report.TheVariants.{Network, Whole};
ghost use Rattle.answers.specs.Outcome.{IsJudged, IsReported};
ghost use Rattle.blif_out.specs.NetworkText.{CanBeHeaded};
ghost use Rattle.hsdec_core.specs.declared.tasks.MachineTask.TheVariants.{OfWork};
ghost use Rattle.hsdec_core.specs.declared.tasks.Task.TheVariants.{OnMachine};
ghost use Rattle.hsdec_core.specs.declared.tasks.WorkTask.TheVariants as works;
ghost use Rattle.operands.specs.Fill.{fill_of};
ghost use Rattle.hsdec_core.specs.Clocks.{design_of};
ghost use Rattle.hsdec_core.specs.Inner.HeadedReport.{IsReportOf, NamesSignal};
ghost use Rattle.hsdec_core.specs.Inner.JobOutcome.{IsOutcomeOfJob};
ghost use Rattle.hsdec_core.specs.Judgement.{file_cause, list_cause, own_cause, work_cause};
ghost use Rattle.hsdec_core.specs.Operands.{AreGranted};
ghost use Rattle.hsdec_core.specs.Promise.{
  IsFileText,
  IsListEvidence,
  IsListing,
  IsReport,
  IsShown,
  IsWorkText,
  shown_of,
};
ghost use Rattle.hsdec_core.specs.SplitOperands.{split_kind, which_of};
ghost use Rattle.hsdec_core.specs.Task.{task_of};
ghost use Rattle.job_words.specs.Job.{HasFewSlashes, HasGivenNames, IsLimit, TakesParts};
ghost use Rattle.kiss_file.specs.LawfulFile.{IsLawful};
ghost use Rattle.kiss_file.specs.Machine.{Accepted};
ghost use Rattle.part_texts.specs.PartCauses.{HasNoPart};
ghost use Rattle.part_texts.specs.PartText.{IsPartText};
ghost use Rattle.state_codes.specs.declared.split.Kind.TheVariants as kinds;

use crate::designs::designed;
use crate::split_operands::{kind_of_split, which};
use crate::tasks::{FileTask, ListTask, MachineTask, WorkTask};
use answers::{Bytes, Refusal, Report};
use blif_out::{CommentedNetwork, HeadedNetwork, header_comments};
use comparisons::compare;
use cover_texts::cover;
use hs_io::Shelf;
use job_words::Job;
use kiss_file::KissFile;
use machine_reports::{
    Shown, check, closed, definite, high, ispairs, low, output, pairs, reduce, sopairs,
};
use machine_table::Machine;
use operands::{OpenedMachine, fill, open_machine};
use part_texts::part;
use shift_texts::shift;
use split_texts::decompose;
use std::alloc::{AllocError, Global};

/// Makes what a job asks for of the machine of FILE.
pub fn on_machine<F: Shelf>(
    alloc: Global,
    job: &Job,
    task: MachineTask,
    shelf: &mut F,
) -> Result<Report, Refusal>
    requires task { task_of job.now.command ≡ OnMachine task }
    requires few { TakesParts job.now.command → HasFewSlashes job.now.second }
    requires limited { IsLimit job.now.limit }
    requires named { HasGivenNames job.now }
    requires granted { AreGranted (F.grants shelf.old) job.now }
    ensures made { IsOutcomeOfJob
        job.now (F.holds shelf.old) (Rose (F.faults shelf.old) (F.faults shelf.new)) result }
    ensures holds_the_same { (other : List ℕ) → F.holds shelf.new other ≡ F.holds shelf.old other }
    ensures grants_the_same { (other : List ℕ) → F.grants shelf.new other ↔ F.grants shelf.old other }
    ensures never_falls { F.faults shelf.old ≤ F.faults shelf.new }
{
    let OpenedMachine { file, machine } = open_machine(alloc, job, shelf)?;
    report(alloc, job, task, &file, machine)
}

/// Makes what a task asks for of the machine of a file.
fn report(
    alloc: Global,
    job: &Job,
    task: MachineTask,
    file: &KissFile,
    machine: Machine,
) -> Result<Report, Refusal>
    requires few { (task ≡ OfWork (works.Decompose kinds.Assign)) ⊎ (task ≡ OfWork works.Part)
        → HasFewSlashes job.now.second }
    requires limited { IsLimit job.now.limit }
    requires named { HasGivenNames job.now }
    requires lawful { IsLawful file.now }
    requires accepted { Accepted file.now (fill_of job.now) }
    requires machine { machine ≡ file.now }
    ensures { IsReported (own_cause task job.now file.now) (IsReport task job.now file.now)
        (IsShown task job.now file.now) result }
{
    match task {
        MachineTask::Listing(listed) => listing(
            alloc,
            listed,
            file,
            &machine,
            job.limit,
            shown(job),
        ),
        MachineTask::OfFile(task) => on_file(alloc, job, task, file, &machine),
        MachineTask::OfWork(task) => on_work(alloc, job, task, file, machine),
    }
}

/// Makes a text on the machine of a file itself.
fn on_file(
    alloc: Global,
    job: &Job,
    task: FileTask,
    file: &KissFile,
    machine: &Machine,
) -> Result<Report, Refusal>
    requires named { HasGivenNames job.now }
    requires lawful { IsLawful file.now }
    requires accepted { Accepted file.now (fill_of job.now) }
    requires machine { machine.now ≡ file.now }
    ensures { IsReported (file_cause task job.now file.now) (IsFileText task job.now file.now) (λ _. ⊥) result }
{
    match task {
        FileTask::Check => whole(check(alloc, file)),
        FileTask::Reduce => whole(reduce(alloc, file, machine, fill(job))),
        FileTask::Low => judged(low(alloc, file, machine, job.second.bytes(), shown(job))),
        FileTask::High => judged(high(alloc, file, machine, job.second.bytes(), shown(job))),
        FileTask::Cover => drawn(alloc, job, cover(alloc, file, machine, job.second.bytes())),
    }
}

/// Makes a text on the machine that a job works on.
fn on_work(
    alloc: Global,
    job: &Job,
    task: WorkTask,
    file: &KissFile,
    machine: Machine,
) -> Result<Report, Refusal>
    requires few { (task ≡ works.Decompose kinds.Assign) ⊎ (task ≡ works.Part) → HasFewSlashes job.now.second }
    requires named { HasGivenNames job.now }
    requires lawful { IsLawful file.now }
    requires accepted { Accepted file.now (fill_of job.now) }
    requires machine { machine ≡ file.now }
    ensures { IsReported (work_cause task job.now file.now) (IsWorkText task job.now file.now) (λ _. ⊥) result }
{
    match task {
        WorkTask::Definite => {
            let made = definite(alloc, file, machine, fill(job), job.reduce, shown(job));
            judged(made)
        }
        WorkTask::Compare => whole(compare(alloc, file, machine, fill(job), job.reduce)),
        WorkTask::Shift => {
            let made = shift(alloc, file, machine, fill(job), job.reduce);
            drawn(alloc, job, made)
        }
        WorkTask::Part => judged(part_of_split(alloc, job, file, machine)),
        WorkTask::Decompose(kind) => {
            let made = decompose(
                alloc,
                kind,
                job.second.bytes(),
                file,
                machine,
                fill(job),
                job.reduce,
            );
            headed(alloc, job, made)
        }
    }
}

/// Makes the text of one of the machines of a split.
fn part_of_split(
    alloc: Global,
    job: &Job,
    file: &KissFile,
    machine: Machine,
) -> Result<Vec<u8>, Refusal>
    requires few { HasFewSlashes job.now.second }
    requires lawful { IsLawful file.now }
    requires accepted { Accepted file.now (fill_of job.now) }
    requires machine { machine ≡ file.now }
    ensures { let kind = split_kind job.now.second in
        let which = which_of job.now.part in
        IsJudged (HasNoPart kind job.now.second which job.now.reduce file.now)
        (λ written. IsPartText kind job.now.second which job.now.reduce file.now written.items) result }
{
    let split = job.second.bytes();
    part(
        alloc,
        kind_of_split(split),
        split,
        which(job),
        file,
        machine,
        fill(job),
        job.reduce,
    )
}

/// Makes a list, or the evidence that it has more than the limit.
fn listing(
    alloc: Global,
    listed: ListTask,
    file: &KissFile,
    machine: &Machine,
    limit: usize,
    shown: Shown,
) -> Result<Report, Refusal>
    requires limited { IsLimit limit }
    requires machine { machine.now ≡ file.now }
    ensures { IsReported (list_cause listed limit machine.now) (IsListing listed shown limit machine.now)
        (IsListEvidence listed shown limit machine.now) result }
{
    match listed {
        ListTask::Closed => closed(alloc, file, machine, limit, shown),
        ListTask::Output => output(alloc, file, machine, limit, shown),
        ListTask::Pairs => pairs(alloc, file, machine, limit, shown),
        ListTask::InputPairs => ispairs(alloc, machine, limit),
        ListTask::OutputPairs => sopairs(alloc, machine, limit),
    }
}

/// The report of a text that only a lack of memory can prevent.
fn whole(text: Result<Vec<u8>, AllocError>) -> Result<Report, Refusal>
    ensures { MatchResult text (λ written. result ≡ Ok (Whole written.items)) (λ _. result ≡ Err NoMemory) }
{
    let text = text?;
    Ok(Report::Whole(Bytes::from(text)))
}

/// The report of a text, or its refusal.
fn judged(text: Result<Vec<u8>, Refusal>) -> Result<Report, Refusal>
    ensures { MatchResult text (λ written. result ≡ Ok (Whole written.items)) (λ refusal. result ≡ Err refusal) }
{
    let text = text?;
    Ok(Report::Whole(Bytes::from(text)))
}

/// The report of a network with its comments, or its refusal.
fn drawn(
    alloc: Global,
    job: &Job,
    made: Result<CommentedNetwork, Refusal>,
) -> Result<Report, Refusal>
    ensures { MatchResult made
        (λ network. IsJudged (NamesSignal job.now.clock network.network)
        (λ report. report ≡ Network (design_of job.now) network) result)
        (λ refusal. result ≡ Err refusal) }
{
    let made = made?;
    designed(alloc, job, made)
}

/// The report of a network with its header, or its refusal.
fn headed(alloc: Global, job: &Job, made: Result<HeadedNetwork, Refusal>) -> Result<Report, Refusal>
    requires { IfOk made CanBeHeaded }
    ensures { MatchResult made
        (λ headed. IsJudged (NamesSignal job.now.clock headed.network) (IsReportOf (design_of job.now) headed) result)
        (λ refusal. result ≡ Err refusal) }
{
    let HeadedNetwork { header, network } = made?;
    let comments = Bytes::from(header_comments(alloc, &header)?);
    designed(alloc, job, CommentedNetwork { comments, network })
}

/// How a job has partitions of states printed.
fn shown(job: &Job) -> Shown
    ensures { result ≡ shown_of job.now }
{
    if job.names {
        Shown::Names
    } else {
        Shown::Labels
    }
}
