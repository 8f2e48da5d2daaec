//! The split of a kind, or the refusal that there is none.

ghost use Rattle.std.specs.Prelude.{◌≡◌, ℕ, IfOk, List};
ghost use Rattle.answers.specs.Outcome.{IsJudged};
ghost use Rattle.state_codes.specs.declared.split.Kind.TheVariants as kinds;
ghost use Rattle.split_texts.specs.GivenParts.{HasFewParts};
ghost use Rattle.split_texts.specs.Inner.SearchResult.{IsFound};
ghost use Rattle.split_texts.specs.Splits.{HasNoPlan, IsPlanned, Refuses};

use answers::Refusal;
use machine_table::Machine;
use operands::read_parts;
use state_codes::{Kind, Split, given, one_part};
use std::alloc::{AllocError, Global};

/// The split that a kind makes of a machine. `text` is the operand PARTS, which only the kind `Assign` reads.
pub fn plan(alloc: Global, kind: Kind, text: &[u8], machine: &Machine) -> Result<Split, Refusal>
    requires { kind ≡ kinds.Assign → HasFewParts text.now }
    ensures { IsJudged (HasNoPlan kind text.now machine.now) (IsPlanned kind text.now machine.now) result }
{
    match found(alloc, kind, text, machine)? {
        Some(split) => Ok(split),
        None => Err(Refusal::NoSplit { kind }),
    }
}

/// The split of a kind, if the machine has one.
fn found(
    alloc: Global,
    kind: Kind,
    text: &[u8],
    machine: &Machine,
) -> Result<Option<Split>, Refusal>
    requires { kind ≡ kinds.Assign → HasFewParts text.now }
    ensures { IsJudged (Refuses kind text.now machine.now) (IsFound kind text.now machine.now) result }
{
    match kind {
        Kind::Code => Ok(Some(natural(alloc, machine)?)),
        Kind::Assign => Ok(Some(assigned(alloc, text, machine)?)),
        Kind::Parallel => Ok(parallel_split::split(alloc, machine)?),
        Kind::Serial => Ok(serial_split::split(alloc, machine)?),
        Kind::Cascade => Ok(serial_split::cascade(alloc, machine)?),
        Kind::Feedback => Ok(feedback_split::split(alloc, machine)?),
        Kind::Least => Ok(Some(least(alloc, machine)?)),
    }
}

/// The split into one part, which distinguishes all states.
fn natural(alloc: Global, machine: &Machine) -> Result<Split, AllocError>
    ensures { (text : List ℕ) → IfOk result (IsPlanned kinds.Code text machine.now) }
{
    one_part(alloc, machine.states())
}

/// The split into the partitions of PARTS.
fn assigned(alloc: Global, text: &[u8], machine: &Machine) -> Result<Split, Refusal>
    requires { HasFewParts text.now }
    ensures { IsJudged (Refuses kinds.Assign text.now machine.now)
        (IsPlanned kinds.Assign text.now machine.now) result }
{
    let parts = read_parts(alloc, text, machine.states())?;
    Ok(given(alloc, parts)?)
}

/// The split of the least code, which is sought for 3 to 8 states.
fn least(alloc: Global, machine: &Machine) -> Result<Split, Refusal>
    ensures { (text : List ℕ)
        → IsJudged (Refuses kinds.Least text machine.now) (IsPlanned kinds.Least text machine.now) result }
{
    let states = machine.states();
    if states < 3 || states > 8 {
        return Err(Refusal::StateCount { states });
    }
    Ok(least_codes::split(alloc, machine)?)
}
