//! The report of `reduce`.

ghost use Rattle.std.specs.Prelude.{◌≡◌, IfOk};
ghost use Rattle.kiss_file.specs.LawfulFile.{IsLawful};
ghost use Rattle.kiss_file.specs.Machine.{Accepted};
ghost use Rattle.machine_reports.specs.ReducedText.{IsReducedText};

use kiss_file::{Fill, KissFile};
use kiss2::write;
use machine_table::Machine;
use state_reduce::{QuotientFail, equivalence, quotient};
use std::alloc::{AllocError, Global};

/// The machine of the classes of alike states, as a text. The machine is that of the file under the fill.
pub fn reduce(
    alloc: Global,
    file: &KissFile,
    machine: &Machine,
    fill: Fill,
) -> Result<Vec<u8>, AllocError>
    requires lawful { IsLawful file.now }
    requires accepted { Accepted file.now fill }
    requires machine { machine.now ≡ file.now }
    ensures { IfOk result (λ text. IsReducedText file.now fill text.items) }
{
    let alike = equivalence(alloc, machine)?;
    match quotient(alloc, file, machine, &alike) {
        Ok(reduced) => write(alloc, &reduced),
        Err(QuotientFail::NoMemory) => Err(AllocError),
        Err(QuotientFail::NotClosed { .. }) => unreachable!(),
        Err(QuotientFail::NotConsistent { .. }) => unreachable!(),
    }
}
