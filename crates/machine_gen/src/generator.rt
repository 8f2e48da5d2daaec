//! The file.

ghost use Rattle.std.specs.Prelude.{IfOk};
ghost use Rattle.kiss_file.specs.LawfulFile.{IsLawful};
ghost use Rattle.kiss_file.specs.Machine.{Accepted};
ghost use Rattle.machine_gen.specs.WordMachine.{AreSizes, IsMachineOf};
ghost use Rattle.machine_gen.specs.Words.{word};

use crate::rows::rows;
use kiss_file::{Fill, KissFile, numbered_names};
use std::alloc::{AllocError, Global};

/// The machine of a seed with a times b states and k inputs. The same numbers give the same file everywhere.
pub fn make(alloc: Global, seed: u64, a: u16, b: u16, k: u8) -> Result<KissFile, AllocError>
    requires { AreSizes a b k }
    ensures machine { IfOk result (IsMachineOf (word seed) a b k) }
    ensures lawful { IfOk result IsLawful }
    ensures accepted { IfOk result (λ F. Accepted F Fill.Refuse) }
{
    Ok(KissFile {
        inputs: k,
        outputs: 2,
        reset: 0,
        states: numbered_names(alloc, a * b)?,
        rows: rows(alloc, seed, a, b, k)?,
        input_names: None,
        output_names: None,
    })
}
