//! Numbers classes of equal values by first appearance, which makes labels of them.

ghost use Rattle.std.specs.Prelude.{
  ◌≡◌,
  ℕ,
  ◌<◌,
  ◌+◌,
  length,
  IfOk,
  MatchOption,
  slice_index,
  slice_index_or,
  slice_set,
};
ghost use Rattle.partition.specs.Partition.{IsPartition, IsStateCount, SameTogether};

use crate::Partition;
use std::alloc::{AllocError, Global};

/// The partition that has two states together exactly where their values are equal. Values are below `bound`.
pub fn numbered(alloc: Global, values: &[u16], bound: usize) -> Result<Partition, AllocError>
    requires states { IsStateCount (length values.now) }
    requires bounded { (s : ℕ) → s < length values.now → slice_index values.now s < bound }
    ensures lawful { IfOk result (λ p. IsPartition (length values.now) p) }
    ensures together { IfOk result (λ p. SameTogether values.now p) }
{
    let mut labels = Vec::with_capacity(alloc, values.len())?;
    let mut table = vec![in alloc; None; bound]?;
    let seen = table.as_mut_slice();
    let mut blocks = 0;
    for value in values {
        let label = label_for(seen, &mut blocks, *value as usize);
        labels.push(label)?;
    }
    Ok(Partition {
        labels,
        blocks: blocks as usize,
    })
}

/// The label of a value, or the next label for a value that was not seen.
fn label_for(seen: &mut [Option<u16>], blocks: &mut u16, value: usize) -> u16
    requires value { value < length seen.old }
    requires room { blocks.old < 256 }
    ensures { MatchOption (slice_index_or seen.old value None)
        ((result ≡ blocks.old) × (blocks.new ≡ blocks.old + 1) × (seen.new ≡ slice_set seen.old value (Some result)))
        (λ label. (result ≡ label) × (blocks.new ≡ blocks.old) × (seen.new ≡ seen.old)) }
{
    match seen[value] {
        Some(label) => label,
        None => {
            let label = *blocks;
            seen[value] = Some(label);
            *blocks += 1;
            label
        }
    }
}
