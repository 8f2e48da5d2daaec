//! Files and machines of cases.

ghost use Rattle.std.specs.Prelude.{IfOk};
ghost use Rattle.kiss_file.specs.LawfulFile.{IsLawful};

use crate::shapes::{shape_of, text_of};
use anyhow::{Error, bail};
use bench_cases::Case;
use kiss_file::{Fill, KissFile};
use kiss2::read;
use machine_table::Machine;
use std::alloc::Global;

/// The file of a case.
pub(crate) fn file_of(alloc: Global, case: Case<'_>) -> Result<KissFile, Error>
    ensures { IfOk result IsLawful }
{
    let Some(shape) = shape_of(case.kind, case.size) else {
        bail!("no machine of this kind and size");
    };
    let text = text_of(alloc, shape)?;
    file_in(alloc, text.as_slice())
}

/// The file of a text.
fn file_in(alloc: Global, text: &[u8]) -> Result<KissFile, Error>
    ensures { IfOk result IsLawful }
{
    if text.len() >= 1 << 32 {
        bail!("the text is too long");
    }
    match read(alloc, text) {
        Ok(file) => Ok(file),
        Err(_) => bail!("the text is no file"),
    }
}

/// The machine of a file.
pub(crate) fn machine_of(alloc: Global, file: &KissFile) -> Result<Machine, Error>
    requires { IsLawful file.now }
{
    match Machine::build(alloc, file, Fill::Refuse) {
        Ok(machine) => Ok(machine),
        Err(_) => bail!("the file has no machine"),
    }
}
