//! The split of the machine of the pairs.
ghost use Rattle.std.specs.Prelude.{◌≡◌, ℕ, ◌≤◌, All, IfOk, length, map};
ghost use Rattle.state_codes.specs.Kinds.{PartsMeetInZero};
ghost use Rattle.state_codes.specs.Split.{IsPart};
ghost use Rattle.cover_split.specs.StateCover.{IsStateCover};
ghost use Rattle.cover_split.specs.Expansion.{pairs_of};
ghost use Rattle.cover_split.specs.Parts.{IsByBlock, IsClosedFront, IsSplitByBlock};

use crate::pairs::pairs_of;
use crate::state_cover::{Block, Cover};
use partition::Partition;
use state_codes::{Kind, Part, PartNumbers, Parts, Split};
use std::alloc::{AllocError, Global};

/// The split of the machine of the pairs that `expand` makes: the block, and the place in the block. The next
/// block of a pair depends on its block and the symbol alone.
pub fn split(alloc: Global, cover: &Cover) -> Result<Split, AllocError>
    requires { (n : ℕ) × IsStateCover n cover.now.blocks }
    ensures kind { IfOk result (λ split. split.kind ≡ Kind.Serial) }
    ensures by_block { IfOk result (λ split. IsSplitByBlock cover.now.blocks split.parts) }
    ensures in_zero { IfOk result (λ split. PartsMeetInZero split.parts) }
    ensures closed { IfOk result (λ split. IsClosedFront cover.now.blocks split.parts) }
    ensures few { IfOk result (λ split. length split.parts ≤ 256) }
    ensures lawful { IfOk result (λ split. All (IsPart (length (pairs_of cover.now.blocks))) split.parts) }
{
    let first = by_block(alloc, cover.blocks.as_slice())?;
    let second = first.complement(alloc)?;
    let none = PartNumbers::new(alloc);
    let mut reads = PartNumbers::new(alloc);
    reads.push(0)?;
    let one = Part::new(alloc, first, none)?;
    let other = Part::new(alloc, second, reads)?;
    let mut parts = Parts::new(alloc);
    parts.push(one)?;
    parts.push(other)?;
    Ok(Split {
        kind: Kind::Serial,
        parts,
    })
}

/// The partition of the pairs by their blocks.
fn by_block(alloc: Global, blocks: &[Block]) -> Result<Partition, AllocError>
    requires { (n : ℕ) × IsStateCover n blocks.now }
    ensures by_block { IfOk result (IsByBlock blocks.now) }
    ensures labels { IfOk result (λ labels. labels ≡ map (λ pair. pair.0) (pairs_of blocks.now)) }
{
    let pairs = pairs_of(alloc, blocks)?;
    let labels = blocks_of_pairs(alloc, pairs.as_slice())?;
    let partition = Partition::of_lawful(alloc, labels.as_slice())?;
    Ok(partition)
}

/// The block of each pair.
fn blocks_of_pairs(alloc: Global, pairs: &[(u16, u16)]) -> Result<Vec<u16>, AllocError>
    ensures { IfOk result (λ labels. labels.items ≡ map (λ pair. pair.0) pairs.now) }
{
    let mut labels = Vec::with_capacity(alloc, pairs.len())?;
    for pair in pairs {
        labels.push(pair.0)?;
    }
    Ok(labels)
}
