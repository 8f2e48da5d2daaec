//! The report of `check`.

ghost use Rattle.std.specs.Prelude.{◌<◌, IfOk, length};
ghost use Rattle.machine_reports.specs.CheckText.{IsChecked};

use hs_texts::reports;
use kiss_file::KissFile;
use std::alloc::{AllocError, Global};

/// The counts of a file, and the name of its reset state.
pub fn check(alloc: Global, file: &KissFile) -> Result<Vec<u8>, AllocError>
    requires { file.now.reset < length file.now.states }
    ensures { IfOk result (λ text. IsChecked file.now text.items) }
{
    let states = file.states.count();
    let rows = file.rows.as_slice().len();
    let reset = file.states.name(usize::from(file.reset));
    reports::counts(alloc, states, file.inputs, file.outputs, rows, reset)
}
