//! The feedback split.

ghost use Rattle.std.specs.Prelude.{◌≡◌, ◌≤◌, ◌↔◌, All, IfOk, IfSome, IsNone, length};
ghost use Rattle.feedback_split.specs.Best.{IsBestFeedback};
ghost use Rattle.feedback_split.specs.Choice.{IsFeedbackChoice};
ghost use Rattle.feedback_split.specs.Inner.Parts.{AreHalves, part_reading};
ghost use Rattle.feedback_split.specs.Kind.{IsFeedback};
ghost use Rattle.mm_lattice.specs.Top.{RightsAreTrivial};
ghost use Rattle.partition.specs.Partition.{IsPartition};
ghost use Rattle.state_codes.specs.Split.{IsPart};

use crate::carriers::carrier;
use machine_table::Machine;
use mm_lattice::top_right;
use partition::Partition;
use state_codes::{Kind, Part, PartNumbers, Parts, Split};
use std::alloc::{AllocError, Global};

/// The part that has this partition and this carrier, and reads the part with the number `other`.
fn part_reading(
    alloc: Global,
    partition: Partition,
    carrier: Partition,
    other: u16,
) -> Result<Part, AllocError>
    ensures { IfOk result (λ part. part ≡ part_reading partition carrier other) }
{
    let mut reads = PartNumbers::new(alloc);
    reads.push(other)?;
    Ok(Part {
        partition,
        carrier,
        reads,
    })
}

/// A partition and its complement, each of which reads the carrier of the other.
fn two_parts(alloc: Global, m: &Machine, first: Partition) -> Result<Parts, AllocError>
    requires { IsPartition (length m.now.states) first }
    ensures { IfOk result (AreHalves m.now first) }
{
    let second = first.complement(alloc)?;
    let first_carrier = carrier(alloc, m, &second, &first)?;
    let second_carrier = carrier(alloc, m, &first, &second)?;
    let mut parts = Parts::new(alloc);
    parts.push(part_reading(alloc, first, first_carrier, 1)?)?;
    parts.push(part_reading(alloc, second, second_carrier, 0)?)?;
    Ok(parts)
}

/// The split into a right side of an Mm pair, greatest strictly below one, and its complement. Each reads the
/// carrier of the other. None where no right side of an Mm pair is nontrivial.
pub fn split(alloc: Global, m: &Machine) -> Result<Option<Split>, AllocError>
    ensures none { IfOk result (λ found. IsNone found ↔ RightsAreTrivial m.now) }

    ensures kind { IfOk result (λ found. IfSome found (λ split. split.kind ≡ Kind.Feedback)) }
    ensures feedback { IfOk result (λ found. IfSome found (λ split. IsFeedback m.now split.parts)) }
    ensures best { IfOk result (λ found. IfSome found (λ split. IsBestFeedback m.now split.parts)) }
    ensures choice { IfOk result (λ found. IfSome found (λ split. IsFeedbackChoice m.now split.parts)) }

    ensures few { IfOk result (λ found. IfSome found (λ split. length split.parts ≤ 256)) }
    ensures lawful { IfOk result (λ found. IfSome found (λ split. All (IsPart (length m.now.states)) split.parts)) }
{
    let first = top_right(alloc, m)?;
    let zero = Partition::zero(alloc, m.states())?;
    if first.equal(&zero) {
        return Ok(None);
    }
    Ok(Some(Split {
        kind: Kind::Feedback,
        parts: two_parts(alloc, m, first)?,
    }))
}
