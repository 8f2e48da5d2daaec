//! How the network of a job is written.

ghost use Rattle.std.specs.Prelude.{◌≡◌, ⊤, IfOk, codes, unwrap_or};
ghost use Rattle.answers.specs.declared.reports.Report.TheVariants as reports;
ghost use Rattle.answers.specs.Outcome.{IsJudged};
ghost use Rattle.hsdec_core.specs.Clocks.{design_of};
ghost use Rattle.hsdec_core.specs.Inner.HeadedReport.{NamesSignal};

use answers::{Refusal, Report};
use blif_out::{CommentedNetwork, Design, is_signal};
use hs_io::Name;
use job_words::Job;
use net_core::Network;
use std::alloc::{AllocError, Global};

/// The report of a network in the design that a job asks for.
pub fn designed(alloc: Global, job: &Job, made: CommentedNetwork) -> Result<Report, Refusal>
    ensures { IsJudged (NamesSignal job.now.clock made.network)
        (λ report. report ≡ reports.Network (design_of job.now) made) result }
{
    refuse_signal(alloc, &job.clock, &made.network)?;
    let design = asked_design(alloc, job)?;
    Ok(Report::Network { design, made })
}

/// Refuses a clock that is the name of a signal.
fn refuse_signal(alloc: Global, asked: &Option<Name>, network: &Network) -> Result<(), Refusal>
    ensures { IsJudged (NamesSignal asked.now network.now) (λ _. ⊤) result }
{
    match asked {
        Some(clock) if is_signal(network, clock.bytes()) => Err(Refusal::ClockIsSignal {
            clock: Name::new(alloc, clock.bytes())?,
        }),
        _ => Ok(()),
    }
}

/// The design that a job asks for.
fn asked_design(alloc: Global, job: &Job) -> Result<Design, AllocError>
    ensures { IfOk result (λ design. design ≡ design_of job.now) }
{
    let model = asked_model(alloc, &job.model)?;
    let clock = asked_clock(alloc, &job.clock)?;
    Ok(Design { model, clock })
}

/// The name of the model that a job asks for.
fn asked_model(alloc: Global, asked: &Option<Name>) -> Result<Name, AllocError>
    ensures { IfOk result (λ model. model ≡ unwrap_or asked.now (codes "hsdec")) }
{
    match asked {
        Some(model) => Name::new(alloc, model.bytes()),
        None => Name::new(alloc, b"hsdec"),
    }
}

/// The clock that a job asks for, if it asks for one.
fn asked_clock(alloc: Global, asked: &Option<Name>) -> Result<Option<Name>, AllocError>
    ensures { IfOk result (λ clock. clock ≡ asked.now) }
{
    match asked {
        Some(clock) => Ok(Some(Name::new(alloc, clock.bytes())?)),
        None => Ok(None),
    }
}
