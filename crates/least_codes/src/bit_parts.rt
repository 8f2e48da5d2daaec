//! The partitions of the bits of a code.

ghost use Rattle.std.specs.Prelude.{◌≡◌, ◌<◌, ◌≤◌, ℕ, IfOk, length, map, slice_index};
ghost use Rattle.std.specs.Int.{bit_at};
ghost use Rattle.least_codes.specs.Inner.Parts.{AreBitLabels, bit_labels};
ghost use Rattle.partition.specs.Partition.{IsPartition, IsStateCount};

use partition::Partition;
use std::alloc::{AllocError, Global};

/// Bit i of a word, as a label.
fn label_of(word: u64, i: u32) -> u16
    requires { i < 64 }
    ensures { result ≡ bit_at word i }
{
    ((word >> i) & 1) as u16
}

/// The labels of the states by bit i of their words.
fn labels_by(alloc: Global, words: &[u64], i: u32) -> Result<Vec<u16>, AllocError>
    requires { i < 64 }
    ensures { IfOk result (λ labels. labels.items ≡ bit_labels i words.now) }
{
    let mut labels = Vec::new(alloc);
    for word in words {
        labels.push(label_of(*word, i))?;
    }
    Ok(labels)
}

/// The partition of each bit. The bits of state 0 are 0, so the label of a state is its bit.
pub(crate) fn bit_partitions(
    alloc: Global,
    words: &[u64],
    bits: u32,
) -> Result<Vec<Partition>, AllocError>
    requires states { IsStateCount (length words.now) }
    requires bits { bits ≤ 64 }
    requires zero { slice_index words.now 0 ≡ 0 }
    ensures { IfOk result (λ partitions. AreBitLabels bits words.now partitions.items) }
{
    let mut partitions = Vec::new(alloc);
    for i in 0..bits {
        let labels = labels_by(alloc, words, i)?;
        partitions.push(Partition::of_lawful(alloc, labels.as_slice())?)?;
    }
    Ok(partitions)
}
