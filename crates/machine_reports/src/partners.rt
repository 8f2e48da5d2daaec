//! The reports of `low` and `high`.

ghost use Rattle.std.specs.Prelude.{◌≡◌, length};
ghost use Rattle.answers.specs.Outcome.{IsJudged};
ghost use Rattle.operands.specs.PartFaults.{BadPart};
ghost use Rattle.machine_reports.specs.PartnerTexts.{IsHighText, IsLowText};

use crate::lines::line_of;
use crate::state_texts::Shown;
use answers::Refusal;
use kiss_file::KissFile;
use machine_table::Machine;
use operands::read_part;
use std::alloc::Global;

/// The least partner of the partition of a text.
pub fn low(
    alloc: Global,
    file: &KissFile,
    machine: &Machine,
    part: &[u8],
    shown: Shown,
) -> Result<Vec<u8>, Refusal>
    requires { machine.now ≡ file.now }
    ensures { IsJudged (BadPart (length machine.now.states) part.now)
        (λ text. IsLowText shown machine.now part.now text.items) result }
{
    let given = read_part(alloc, part, machine.states())?;
    let least = pair_operators::low(alloc, machine, &given)?;
    Ok(line_of(alloc, shown, &file.states, &least)?)
}

/// The greatest partner of the partition of a text.
pub fn high(
    alloc: Global,
    file: &KissFile,
    machine: &Machine,
    part: &[u8],
    shown: Shown,
) -> Result<Vec<u8>, Refusal>
    requires { machine.now ≡ file.now }
    ensures { IsJudged (BadPart (length machine.now.states) part.now)
        (λ text. IsHighText shown machine.now part.now text.items) result }
{
    let given = read_part(alloc, part, machine.states())?;
    let greatest = pair_operators::high(alloc, machine, &given)?;
    Ok(line_of(alloc, shown, &file.states, &greatest)?)
}
