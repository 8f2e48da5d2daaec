//! The partition of the states by a set of the bits of their codes.

ghost use Rattle.std.specs.Prelude.{◌≡◌, ◌≢◌, ◌<◌, ◌≤◌, ◌↔◌, ℕ, All, Contains, IfOk, length, slice_index};
ghost use Rattle.partition.specs.Partition.{IsPartition, IsStateCount, Together};
ghost use Rattle.dependence.specs.SufficientBits.{AgreeOn, InWord};
ghost use Rattle.decomposition.specs.Inner.Labels.{AreLabelled, IsSeenAt};
ghost use Rattle.decomposition.specs.Notes.{IsPartitionOn};

use partition::Partition;
use std::alloc::{AllocError, Global};

/// The partition in which two states are together exactly where their code words agree on the bits of a set.
pub fn agreeing(alloc: Global, words: &[u64], set: u64) -> Result<Partition, AllocError>
    requires { IsStateCount (length words.now) }
    ensures { IfOk result (IsPartitionOn words.now (InWord set)) }
{
    let labels = labels_by(alloc, words, set)?;
    Partition::of_lawful(alloc, labels.as_slice())
}

/// The labels of the states by a set of bits: a state has the label of the first state that has the same bits
/// of the set.
fn labels_by(alloc: Global, words: &[u64], set: u64) -> Result<Vec<u16>, AllocError>
    requires { IsStateCount (length words.now) }
    ensures { IfOk result (λ labels. IsPartitionOn words.now (InWord set) labels.items) }
{
    let mut seen = Vec::new(alloc);
    let mut labels = Vec::new(alloc);
    for word in words {
        let block = block_of(&mut seen, *word & set)?;
        labels.push(block as u16)?;
    }
    Ok(labels)
}

/// The number of a value among those seen. A value that was not seen is appended to them.
fn block_of(seen: &mut Vec<u64>, value: u64) -> Result<usize, AllocError>
    ensures { IfOk result (λ block. IsSeenAt seen.old.items value block seen.new.items) }
{
    let block = first_of(seen.as_slice(), value);
    if block == seen.len() {
        seen.push(value)?;
    }
    Ok(block)
}

/// The place of the first value that is equal, or the number of values where there is none.
fn first_of(seen: &[u64], value: u64) -> usize
    ensures within { result ≤ length seen.now }
    ensures before { (b : ℕ) → b < result → slice_index seen.now b ≢ value }
    ensures found { result < length seen.now → slice_index seen.now result ≡ value }
{
    for (b, other) in seen.iter().enumerate() {
        if *other == value {
            return b;
        }
    }
    seen.len()
}

/// The set of these bits as a word.
pub fn word_of(bits: &[u8]) -> u64
    requires { All (λ c. c < 64) bits.now }
    ensures { (c : ℕ) → InWord result c ↔ Contains bits.now c }
{
    let mut set = 0;
    for c in bits {
        set |= 1 << *c;
    }
    set
}
