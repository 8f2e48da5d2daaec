//! Splits: the kind, and the parts with what each may read.

ghost use Rattle.std.specs.Prelude.{◌≡◌, ℕ, ◌<◌, ◌≤◌, All, [], ◌∷◌, length, vec_len, IfOk};
ghost use Rattle.partition.specs.Partition.{IsPartition, IsStateCount, zero_of};
ghost use Rattle.state_codes.specs.Split.{IsPart, others, given_parts, lone_part};

use hs_list::Items;
use partition::Partition;
use std::alloc::{AllocError, Global};

/// How the parts of a split came to be, which says what each may read.
#[derive(Clone, Copy, PartialEq, Eq)]
pub enum Kind {
    /// One part, which distinguishes all states.
    Code,
    /// Partitions that were given; each part may read all others.
    Assign,
    /// Closed partitions side by side; no part reads another.
    Parallel,
    /// A closed partition and its complement, which reads it.
    Serial,
    /// A chain of closed partitions; each part may read those before it.
    Cascade,
    /// Two parts, each of which reads the other.
    Feedback,
    /// One part of two blocks for each bit of the least code; each may read all others.
    Least,
}

/// Numbers of parts, in ascending order.
pub type PartNumbers = Items<u16>;

/// The parts of a split in order.
pub type Parts = Items<Part>;

/// One part of a split. Its carrier is a partition at or above its own; `reads` are the numbers of the
/// other parts whose carriers its gates may read.
#[derive(Drop)]
pub struct Part {
    pub partition: Partition,
    pub carrier: Partition,
    pub reads: PartNumbers,
}

impl Part {
    ghost use Rattle.std.specs.Prelude.{◌≡◌, IfOk};
    ghost use Rattle.state_codes.specs.Split.{own_part};

    /// The part with this partition, which is also its carrier.
    pub fn new(alloc: Global, partition: Partition, reads: PartNumbers) -> Result<Part, AllocError>
        ensures { IfOk result (λ part. part ≡ own_part partition reads) }
    {
        let carrier = partition.copy(alloc)?;
        Ok(Part {
            partition,
            carrier,
            reads,
        })
    }
}

/// The parts into which the state of a machine is split, numbered from 0.
#[derive(Drop)]
pub struct Split {
    pub kind: Kind,
    pub parts: Parts,
}

/// The split of kind `Code`: one part, zero, which reads nothing else.
pub fn one_part(alloc: Global, n: usize) -> Result<Split, AllocError>
    requires { IsStateCount n }
    ensures kind { IfOk result (λ split. split.kind ≡ Kind.Code) }
    ensures parts { IfOk result (λ split. split.parts ≡ lone_part (zero_of n) ∷ []) }
    ensures few { IfOk result (λ split. length split.parts ≤ 256) }
    ensures lawful { IfOk result (λ split. All (IsPart n) split.parts) }
{
    let zero = Partition::zero(alloc, n)?;
    let part = Part::new(alloc, zero, PartNumbers::new(alloc))?;
    let mut parts = Parts::new(alloc);
    parts.push(part)?;
    Ok(Split {
        kind: Kind::Code,
        parts,
    })
}

/// The split of kind `Assign` that has these partitions for parts; each may read all others.
pub fn given(alloc: Global, parts: Vec<Partition>) -> Result<Split, AllocError>
    requires { vec_len parts ≤ 256 }
    ensures kind { IfOk result (λ split. split.kind ≡ Kind.Assign) }
    ensures parts { IfOk result (λ split. split.parts ≡ given_parts (vec_len parts) 0 parts.items) }
    ensures few { IfOk result (λ split. length split.parts ≤ 256) }
    ensures lawful { (n : ℕ) → All (IsPartition n) parts.items
        → IfOk result (λ split. All (IsPart n) split.parts) }
{
    Ok(Split {
        kind: Kind::Assign,
        parts: own_carriers(alloc, parts)?,
    })
}

/// Parts that are their own carriers, each of which may read all others.
fn own_carriers(alloc: Global, partitions: Vec<Partition>) -> Result<Parts, AllocError>
    requires { vec_len partitions ≤ 256 }
    ensures { IfOk result (λ parts. parts ≡ given_parts (vec_len partitions) 0 partitions.items) }
{
    let count = partitions.len();
    let mut parts = Parts::new(alloc);
    for (j, partition) in partitions.into_iter().enumerate() {
        let reads = all_but(alloc, count, j)?;
        let part = Part::new(alloc, partition, reads)?;
        parts.push(part)?;
    }
    Ok(parts)
}

/// The numbers of all parts but j.
fn all_but(alloc: Global, count: usize, j: usize) -> Result<PartNumbers, AllocError>
    requires { count ≤ 256 }
    ensures { IfOk result (λ numbers. numbers ≡ others count j) }
{
    let mut numbers = PartNumbers::new(alloc);
    for part in 0..count {
        if part != j {
            numbers.push(part as u16)?;
        }
    }
    Ok(numbers)
}
