//! The serial split.

ghost use Rattle.std.specs.Prelude.{◌≡◌, ◌≤◌, ◌↔◌, All, IfOk, IfSome, IsNone, length};
ghost use Rattle.serial_split.specs.Best.{IsBestSerial};
ghost use Rattle.serial_split.specs.Choice.{IsSerialChoice};
ghost use Rattle.serial_split.specs.Kind.{HasNoneNontrivial, IsSerial};
ghost use Rattle.state_codes.specs.Split.{IsPart};

use crate::part::part_after;
use closed_lattice::below;
use machine_table::Machine;
use partition::Partition;
use state_codes::{Kind, Parts, Split};
use std::alloc::{AllocError, Global};

/// A greatest closed partition other than one, and its complement, which reads it. None where no closed partition is
/// nontrivial.
pub fn split(alloc: Global, m: &Machine) -> Result<Option<Split>, AllocError>
    ensures none { IfOk result (λ found. IsNone found ↔ HasNoneNontrivial m.now) }

    ensures kind { IfOk result (λ found. IfSome found (λ split. split.kind ≡ Kind.Serial)) }
    ensures serial { IfOk result (λ found. IfSome found (λ split. IsSerial m.now split.parts)) }
    ensures best { IfOk result (λ found. IfSome found (λ split. IsBestSerial m.now split.parts)) }
    ensures choice { IfOk result (λ found. IfSome found (λ split. IsSerialChoice m.now split.parts)) }

    ensures few { IfOk result (λ found. IfSome found (λ split. length split.parts ≤ 256)) }
    ensures lawful { IfOk result (λ found. IfSome found (λ split. All (IsPart (length m.now.states)) split.parts)) }
{
    let one = Partition::one(alloc, m.states())?;
    let first = below(alloc, m, &one)?;
    if first.blocks() == m.states() {
        return Ok(None);
    }
    let second = first.complement(alloc)?;
    let mut parts = Parts::new(alloc);
    parts.push(part_after(alloc, first, 0)?)?;
    parts.push(part_after(alloc, second, 1)?)?;
    Ok(Some(Split {
        kind: Kind::Serial,
        parts,
    }))
}
