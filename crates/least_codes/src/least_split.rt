//! The split of the least code.

ghost use Rattle.std.specs.Prelude.{◌≡◌, ◌≤◌, All, IfOk, length};
ghost use Rattle.least_codes.specs.Kind.{GiveLeastCode, IsLeastSplit};
ghost use Rattle.state_codes.specs.Code.{need};
ghost use Rattle.state_codes.specs.Split.{IsPart};

use crate::bit_parts::bit_partitions;
use crate::code::{bits_for, least_code};
use machine_table::Machine;
use state_codes::{Kind, Split, given};
use std::alloc::{AllocError, Global};

/// The split of the least code of a machine: the partition of each bit of the code is a part, in order. The
/// bits of state 0 are 0. For 8 states 5,040 codes are tried.
pub fn split(alloc: Global, m: &Machine) -> Result<Split, AllocError>
    requires some { 3 ≤ length m.now.states }
    requires most { length m.now.states ≤ 8 }
    ensures kind { IfOk result (λ split. split.kind ≡ Kind.Least) }
    ensures least { IfOk result (λ split. IsLeastSplit split.parts) }
    ensures code { IfOk result (λ split. GiveLeastCode m.now split.parts) }
    ensures bits { IfOk result (λ split. length split.parts ≡ need (length m.now.states)) }

    ensures few { IfOk result (λ split. length split.parts ≤ 256) }
    ensures lawful { IfOk result (λ split. All (IsPart (length m.now.states)) split.parts) }
{
    let words = least_code(alloc, m)?;
    let partitions = bit_partitions(alloc, words.as_slice(), bits_for(m.states()))?;
    Ok(Split {
        kind: Kind::Least,
        parts: given(alloc, partitions)?.parts,
    })
}
