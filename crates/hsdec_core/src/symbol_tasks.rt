//! The commands that load symbols: `walk` and `sim`.

ghost use Rattle.std.specs.Prelude.{◌≡◌, ◌≤◌, ◌↔◌, ℕ, List};
ghost use Rattle.hs_io.specs.Counts.{Rose};
ghost use Rattle.hsdec_core.specs.declared.tasks.Task.TheVariants as tasks;
ghost use Rattle.operands.specs.Fill.{fill_of};
ghost use Rattle.hsdec_core.specs.Inner.JobOutcome.{IsOutcomeOfJob};
ghost use Rattle.hsdec_core.specs.Operands.{AreGranted};
ghost use Rattle.hsdec_core.specs.Task.{task_of};
ghost use Rattle.net_core.specs.Order.{IsOrderOf};
ghost use Rattle.operands.specs.OpenedOperands.{HoldsMachine, HoldsNetwork};

use answers::{Bytes, Refusal, Report};
use blif_in::OrderedNetwork;
use hs_io::Shelf;
use job_words::Job;
use machine_table::Machine;
use operands::{load_operand, open_machine, open_network};
use std::alloc::Global;

/// The command `walk`: the answers of the machine of FILE, from its reset state on, to the symbols of SYMBOLS.
pub fn walk<F: Shelf>(alloc: Global, job: &Job, shelf: &mut F) -> Result<Report, Refusal>
    requires task { task_of job.now.command ≡ tasks.Walk }
    requires granted { AreGranted (F.grants shelf.old) job.now }
    ensures made { IsOutcomeOfJob
        job.now (F.holds shelf.old) (Rose (F.faults shelf.old) (F.faults shelf.new)) result }
    ensures holds_the_same { (other : List ℕ) → F.holds shelf.new other ≡ F.holds shelf.old other }
    ensures grants_the_same { (other : List ℕ) → F.grants shelf.new other ↔ F.grants shelf.old other }
    ensures never_falls { F.faults shelf.old ≤ F.faults shelf.new }
{
    let opened = open_machine(alloc, job, shelf)?;
    run_machine(alloc, job, &opened.machine, shelf)
}

/// Runs a machine on the symbols of SYMBOLS.
fn run_machine<F: Shelf>(
    alloc: Global,
    job: &Job,
    machine: &Machine,
    shelf: &mut F,
) -> Result<Report, Refusal>
    requires task { task_of job.now.command ≡ tasks.Walk }
    requires granted { F.grants shelf.old job.now.second }
    requires held { (bytes : List ℕ)
        × HoldsMachine (F.holds shelf.old job.now.file) (fill_of job.now) bytes machine.now }
    ensures made { IsOutcomeOfJob
        job.now (F.holds shelf.old) (Rose (F.faults shelf.old) (F.faults shelf.new)) result }
    ensures holds_the_same { (other : List ℕ) → F.holds shelf.new other ≡ F.holds shelf.old other }
    ensures grants_the_same { (other : List ℕ) → F.grants shelf.new other ↔ F.grants shelf.old other }
    ensures never_falls { F.faults shelf.old ≤ F.faults shelf.new }
{
    let symbols = load_operand(alloc, job.second.bytes(), shelf)?;
    let text = symbol_runs::walk(alloc, machine, symbols.as_slice())?;
    Ok(Report::Whole(Bytes::from(text)))
}

/// The command `sim`: the answers of the network of NET, from its start on, to the symbols of SYMBOLS. The
/// start is judged before SYMBOLS is loaded.
pub fn sim<F: Shelf>(alloc: Global, job: &Job, shelf: &mut F) -> Result<Report, Refusal>
    requires task { task_of job.now.command ≡ tasks.Sim }
    requires granted { AreGranted (F.grants shelf.old) job.now }
    ensures made { IsOutcomeOfJob
        job.now (F.holds shelf.old) (Rose (F.faults shelf.old) (F.faults shelf.new)) result }
    ensures holds_the_same { (other : List ℕ) → F.holds shelf.new other ≡ F.holds shelf.old other }
    ensures grants_the_same { (other : List ℕ) → F.grants shelf.new other ↔ F.grants shelf.old other }
    ensures never_falls { F.faults shelf.old ≤ F.faults shelf.new }
{
    let opened = open_network(alloc, job, shelf)?;
    run_network(alloc, job, &opened, shelf)
}

/// Judges the start of a network, and runs it on the symbols of SYMBOLS.
fn run_network<F: Shelf>(
    alloc: Global,
    job: &Job,
    opened: &OrderedNetwork,
    shelf: &mut F,
) -> Result<Report, Refusal>
    requires task { task_of job.now.command ≡ tasks.Sim }
    requires granted { F.grants shelf.old job.now.second }
    requires held { (bytes : List ℕ) × HoldsNetwork (F.holds shelf.old job.now.file) bytes opened.now.net }
    requires order { IsOrderOf opened.now.net opened.now.order }
    ensures made { IsOutcomeOfJob
        job.now (F.holds shelf.old) (Rose (F.faults shelf.old) (F.faults shelf.new)) result }
    ensures holds_the_same { (other : List ℕ) → F.holds shelf.new other ≡ F.holds shelf.old other }
    ensures grants_the_same { (other : List ℕ) → F.grants shelf.new other ↔ F.grants shelf.old other }
    ensures never_falls { F.faults shelf.old ≤ F.faults shelf.new }
{
    symbol_runs::judge_start(alloc, &opened.net, &opened.order, &job.start)?;
    let symbols = load_operand(alloc, job.second.bytes(), shelf)?;
    let text = symbol_runs::sim(
        alloc,
        &opened.net,
        &opened.order,
        &job.start,
        symbols.as_slice(),
    )?;
    Ok(Report::Whole(Bytes::from(text)))
}
