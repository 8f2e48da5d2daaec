//! The parallel split.

ghost use Rattle.std.specs.Prelude.{◌≡◌, ◌≤◌, ◌↔◌, All, IfOk, IfSome, IsNone, length, map};
ghost use Rattle.parallel_split.specs.Best.{IsBestParallel};
ghost use Rattle.parallel_split.specs.Choice.{IsParallelChoice};
ghost use Rattle.parallel_split.specs.Kind.{HasNoneInParallel, IsParallel};
ghost use Rattle.state_codes.specs.Split.{IsPart, lone_part};

use crate::members::members;
use crate::spare_members::leave_out;
use machine_table::Machine;
use partition::Partition;
use state_codes::{Kind, Part, PartNumbers, Parts, Split};
use std::alloc::{AllocError, Global};

/// Parts that are their own carriers and read no other part.
fn lone_parts(alloc: Global, partitions: Vec<Partition>) -> Result<Parts, AllocError>
    ensures { IfOk result (λ parts. parts ≡ map lone_part partitions.items) }
{
    let mut parts = Parts::new(alloc);
    for partition in partitions {
        let reads = PartNumbers::new(alloc);
        let part = Part::new(alloc, partition, reads)?;
        parts.push(part)?;
    }
    Ok(parts)
}

/// Nontrivial closed partitions whose meet is zero, none of which can be left out. No part reads another. None where
/// no two nontrivial closed partitions meet in zero.
pub fn split(alloc: Global, m: &Machine) -> Result<Option<Split>, AllocError>
    ensures none { IfOk result (λ found. IsNone found ↔ HasNoneInParallel m.now) }

    ensures kind { IfOk result (λ found. IfSome found (λ split. split.kind ≡ Kind.Parallel)) }
    ensures parallel { IfOk result (λ found. IfSome found (λ split. IsParallel m.now split.parts)) }
    ensures best { IfOk result (λ found. IfSome found (λ split. IsBestParallel m.now split.parts)) }
    ensures choice { IfOk result (λ found. IfSome found (λ split. IsParallelChoice m.now split.parts)) }

    ensures few { IfOk result (λ found. IfSome found (λ split. length split.parts ≤ 256)) }
    ensures lawful { IfOk result (λ found. IfSome found (λ split. All (IsPart (length m.now.states)) split.parts)) }
{
    let Some(mut list) = members(alloc, m)? else {
        return Ok(None);
    };
    if list.is_empty() {
        return Ok(None);
    }
    leave_out(alloc, m.states(), &mut list)?;
    Ok(Some(Split {
        kind: Kind::Parallel,
        parts: lone_parts(alloc, list)?,
    }))
}
