//! The cascade.

ghost use Rattle.std.specs.Prelude.{ℕ, ◌≡◌, ◌≤◌, ◌↔◌, All, IfOk, IfSome, IsNone, List, length};
ghost use Rattle.partition.specs.Partition.{IsZero};
ghost use Rattle.serial_split.specs.Best.{IsBestCascade};
ghost use Rattle.serial_split.specs.Choice.{IsCascadeChoice};
ghost use Rattle.serial_split.specs.Inner.Chain.{IsChain};
ghost use Rattle.serial_split.specs.Kind.{HasNoneNontrivial, IsCascade};
ghost use Rattle.state_codes.specs.Split.{IsPart};

use crate::part::part_after;
use closed_lattice::Principals;
use machine_table::Machine;
use partition::Partition;
use state_codes::{Kind, Parts, Split};
use std::alloc::{AllocError, Global};

/// The parts of a chain of closed partitions from one down to zero.
fn chain(alloc: Global, m: &Machine) -> Result<Parts, AllocError>
    ensures { IfOk result (λ parts. (zero : List ℕ) × IsZero zero × IsChain m.now parts zero) }
{
    let n = m.states();
    let mut top = Partition::one(alloc, n)?;
    let mut parts = Parts::new(alloc);
    let mut kept = Principals::new(alloc)?;
    while top.blocks() < n {
        let next = kept.below(alloc, m, &top)?;
        let inside = top.inside(alloc, &next)?;
        let number = parts.as_slice().len();
        parts.push(part_after(alloc, inside, number)?)?;
        top = next;
    }
    Ok(parts)
}

/// A part for each step of a chain of closed partitions: the blocks of the next one, numbered inside the blocks of
/// the one before. Each part reads those before it. None where no closed partition is nontrivial.
pub fn cascade(alloc: Global, m: &Machine) -> Result<Option<Split>, AllocError>
    ensures none { IfOk result (λ found. IsNone found ↔ HasNoneNontrivial m.now) }

    ensures kind { IfOk result (λ found. IfSome found (λ split. split.kind ≡ Kind.Cascade)) }
    ensures cascade { IfOk result (λ found. IfSome found (λ split. IsCascade m.now split.parts)) }
    ensures best { IfOk result (λ found. IfSome found (λ split. IsBestCascade m.now split.parts)) }
    ensures choice { IfOk result (λ found. IfSome found (λ split. IsCascadeChoice m.now split.parts)) }

    ensures few { IfOk result (λ found. IfSome found (λ split. length split.parts ≤ 256)) }
    ensures lawful { IfOk result (λ found. IfSome found (λ split. All (IsPart (length m.now.states)) split.parts)) }
{
    let parts = chain(alloc, m)?;
    if parts.as_slice().len() < 2 {
        return Ok(None);
    }
    Ok(Some(Split {
        kind: Kind::Cascade,
        parts,
    }))
}
