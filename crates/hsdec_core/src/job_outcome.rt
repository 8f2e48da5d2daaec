//! From words to what is made in memory.

ghost use Rattle.std.specs.Prelude.{◌≡◌, ◌-◌, ◌^◌, ◌<◌, ◌≤◌, ◌↔◌, ◌⊎◌, ℕ, List, IfOk, IsErr, false, length};
ghost use Rattle.hs_io.specs.Counts.{Rose};
ghost use Rattle.hsdec_core.specs.Inner.JobOutcome.{IsOutcomeOfJob, IsOutcomeOfWords};
ghost use Rattle.hsdec_core.specs.Operands.{AreGranted, takes_file};
ghost use Rattle.hsdec_core.specs.Task.{task_of};
ghost use Rattle.job_words.specs.declared.command.Command.TheVariants as commands;
ghost use Rattle.job_words.specs.Job.{HasFewSlashes, HasGivenNames, HasSizes, IsLimit, JobOf, TakesParts};

use crate::machine_tasks::on_machine;
use crate::pages::page_of;
use crate::symbol_tasks::{sim, walk};
use crate::tasks::{Task, task_of_command};
use answers::{Bytes, Page, Refusal, Report};
use blif_out::Design;
use generated_texts::{generate, trial};
use hs_io::Shelf;
use job_words::{Job, JobFail, Words, job};
use std::alloc::Global;

/// Makes in memory what is put for the words: judges the words, passes their job to its command, and writes the
/// network that the command may give.
pub fn perform<F: Shelf>(alloc: Global, words: &Words, shelf: &mut F) -> Result<Page, Refusal>
    requires few { length words.now < 2 ^ 32 - 1 }
    requires granted { IfOk (JobOf words.now) (AreGranted (F.grants shelf.old)) }
    ensures made { IsOutcomeOfWords
        (JobOf words.now) (F.holds shelf.old) (Rose (F.faults shelf.old) (F.faults shelf.new)) result }
    ensures unloaded { IsErr (JobOf words.now) → shelf.new ≡ shelf.old }
    ensures no_operand { IfOk (JobOf words.now)
        (λ job. takes_file (task_of job.command) ≡ false → shelf.new ≡ shelf.old) }
    ensures holds_the_same { (other : List ℕ) → F.holds shelf.new other ≡ F.holds shelf.old other }
    ensures grants_the_same { (other : List ℕ) → F.grants shelf.new other ↔ F.grants shelf.old other }
    ensures never_falls { F.faults shelf.old ≤ F.faults shelf.new }
{
    match job(alloc, words) {
        Ok(job) => {
            let report = perform_job(alloc, &job, shelf)?;
            Ok(page_of(alloc, report)?)
        }
        Err(JobFail::Usage { word }) => Err(Refusal::Usage { word }),
        Err(JobFail::NoMemory) => Err(Refusal::NoMemory),
    }
}

/// Makes what a job asks for.
fn perform_job<F: Shelf>(alloc: Global, job: &Job, shelf: &mut F) -> Result<Report, Refusal>
    requires few { TakesParts job.now.command → HasFewSlashes job.now.second }
    requires limited { IsLimit job.now.limit }
    requires named { HasGivenNames job.now }
    requires sizes { (job.now.command ≡ commands.Gen) ⊎ (job.now.command ≡ commands.Trial) → HasSizes job.now }
    requires granted { AreGranted (F.grants shelf.old) job.now }
    ensures made { IsOutcomeOfJob
        job.now (F.holds shelf.old) (Rose (F.faults shelf.old) (F.faults shelf.new)) result }
    ensures no_operand { takes_file (task_of job.now.command) ≡ false → shelf.new ≡ shelf.old }
    ensures holds_the_same { (other : List ℕ) → F.holds shelf.new other ≡ F.holds shelf.old other }
    ensures grants_the_same { (other : List ℕ) → F.grants shelf.new other ↔ F.grants shelf.old other }
    ensures never_falls { F.faults shelf.old ≤ F.faults shelf.new }
{
    match task_of_command(job.command) {
        Task::OnMachine(task) => on_machine(alloc, job, task, shelf),
        Task::Walk => walk(alloc, job, shelf),
        Task::Sim => sim(alloc, job, shelf),
        Task::Gen => {
            let text = generate(alloc, job.seed, job.a, job.b, job.k)?;
            Ok(Report::Whole(Bytes::from(text)))
        }
        Task::Trial => {
            let made = trial(alloc, job.seed, job.a, job.b, job.k)?;
            let design = Design::plain(alloc)?;
            Ok(Report::Network { design, made })
        }
    }
}
