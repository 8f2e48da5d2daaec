//! Lists of partitions.

ghost use Rattle.std.specs.Prelude.{◌≡◌, ◌≤◌, All, IfOk, vec_len};
ghost use Rattle.partition.specs.Partition.{IsPartition, IsStateCount};

use anyhow::{Error, bail};
use partition::Partition;
use std::alloc::{AllocError, Global};

/// The number of states of the partitions of a kind and size.
pub(crate) fn states_of(kind: &str, size: usize) -> usize
    ensures { IsStateCount result }
{
    match kind {
        "product" => 50,
        _ if size < 2 => 2,
        _ if size > 256 => 256,
        _ => size,
    }
}

/// The number of partitions.
fn count_of(kind: &str, size: usize, n: usize) -> usize {
    match kind {
        "pairs" | "equal" => n.wrapping_mul(n.wrapping_sub(1)) / 2,
        "nested" => n.wrapping_sub(1),
        "product" => size.min(25),
        _ => 2,
    }
}

/// The partitions of the given kind and size, of n states.
///
/// - `few` are two partitions. In one, states are together if their numbers have the same remainder by 16, and
///   in the other if they have the same quotient. In `ladder` each state is together with the next one, in one
///   partition or in the other. `alone` are two partitions with each state in a block of its own.
/// - `pairs` are all partitions that hold two states together, and `nested` those that hold the first two or
///   more states together. `product` are `size` partitions, each of which holds two of 50 states together, no
///   state twice. `equal` are as many partitions as there are pairs of states, of which only eight are
///   different.
pub(crate) fn partitions_of(
    alloc: Global,
    kind: &str,
    size: usize,
    n: usize,
) -> Result<Vec<Partition>, Error>
    ensures { IfOk result (λ list. All (λ p. IsPartition n p) list.items) }
{
    let mut list = Vec::new(alloc);
    let mut two = (0, 1);
    for i in 0..count_of(kind, size, n) {
        if i > 0 {
            two = after(kind, two, n);
        }
        list.push(partition_of(alloc, kind, two, n)?)?;
    }
    Ok(list)
}

/// The two states that come after these two, by the kind.
fn after(kind: &str, two: (usize, usize), n: usize) -> (usize, usize) {
    let (s, t) = two;
    match kind {
        "product" => (s.wrapping_add(2), t.wrapping_add(2)),
        "equal" => (t.wrapping_add(1) % 16, t.wrapping_add(1) % 16 + 1),
        "pairs" if t.wrapping_add(1) >= n => (s.wrapping_add(1), s.wrapping_add(2)),
        "pairs" => (s, t.wrapping_add(1)),
        _ => (s.wrapping_add(1), t.wrapping_add(1)),
    }
}

/// The partition of a kind at the given two states.
fn partition_of(
    alloc: Global,
    kind: &str,
    two: (usize, usize),
    n: usize,
) -> Result<Partition, Error>
    ensures { IfOk result (λ p. IsPartition n p) }
{
    let labels = labels_of(alloc, kind, two, n)?;
    match Partition::from_labels(alloc, &labels) {
        Ok(p) if p.len() == n => Ok(p),
        _ => bail!("no labels of a partition"),
    }
}

/// The labels of that partition.
fn labels_of(
    alloc: Global,
    kind: &str,
    two: (usize, usize),
    n: usize,
) -> Result<Vec<u16>, AllocError> {
    let mut labels = Vec::new(alloc);
    for state in 0..n {
        labels.push((label(kind, two, state) % 65_536) as u16)?;
    }
    Ok(labels)
}

/// The label of a state.
fn label(kind: &str, two: (usize, usize), state: usize) -> usize {
    let (s, t) = two;
    match kind {
        "alone" => state,
        "few" if s == 0 => state % 16,
        "few" => state / 16,
        "ladder" if s == 0 => state / 2,
        "ladder" => state / 2 + state % 2,
        "nested" => state.saturating_sub(t),
        _ if state == t => s,
        _ if state > t => state - 1,
        _ => state,
    }
}
