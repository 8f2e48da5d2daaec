//! Meet and join: the greatest partition below two partitions, and the least one above both.

ghost use Rattle.std.specs.Prelude.{◌≡◌, ℕ, ◌+◌, ◌*◌, ◌<◌, ◌≤◌, ◌==◌, if◌then◌else◌, length, slice_index, IfOk};
ghost use Rattle.partition.specs.Partition.{IsPartition, blocks_of};
ghost use Rattle.partition.specs.MeetAndJoin.{IsMeet, IsJoin, IsGreatestBelow, IsLeastAbove};
ghost use Rattle.partition.specs.Inner.Ties.{TiesBlocks};

use crate::numbering::numbered;
use crate::{MOST_STATES, Partition};
use std::alloc::{AllocError, Global};

impl Partition {
    /// The partition in which two states are together exactly where they are together in both this partition
    /// and q.
    pub fn meet(&self, alloc: Global, q: &Partition) -> Result<Partition, AllocError>
        requires { length q.now ≡ length self.now }
        ensures meet { IfOk result (λ r. IsMeet self.now q.now r) }
        ensures greatest { IfOk result (λ r. IsGreatestBelow self.now q.now r) }
    {
        meet_of(alloc, self.labels(), self.blocks(), q.labels(), q.blocks())
    }

    /// The partition in which two states are together exactly where a chain of states leads from the one to the
    /// other.
    pub fn join(&self, alloc: Global, q: &Partition) -> Result<Partition, AllocError>
        requires { length q.now ≡ length self.now }
        ensures join { IfOk result (λ r. IsJoin self.now q.now r) }
        ensures least { IfOk result (λ r. IsLeastAbove self.now q.now r) }
    {
        join_of(alloc, self.labels(), self.blocks(), q.labels())
    }
}

/// The meet of partitions with these numbers of blocks.
fn meet_of(
    alloc: Global,
    p: &[u16],
    height: usize,
    q: &[u16],
    width: usize,
) -> Result<Partition, AllocError>
    requires p { IsPartition (length p.now) p.now }
    requires q { IsPartition (length p.now) q.now }
    requires height { height ≡ blocks_of p.now }
    requires width { width ≡ blocks_of q.now }
    ensures { IfOk result (λ r. IsMeet p.now q.now r) }
{
    let values = block_pairs(alloc, p, q, width)?;
    numbered(alloc, values.as_slice(), height * width)
}

/// The join, where p has this number of blocks.
fn join_of(alloc: Global, p: &[u16], blocks: usize, q: &[u16]) -> Result<Partition, AllocError>
    requires p { IsPartition (length p.now) p.now }
    requires q { IsPartition (length p.now) q.now }
    requires blocks { blocks ≡ blocks_of p.now }
    ensures { IfOk result (λ r. IsJoin p.now q.now r) }
{
    let mut table = own_numbers(alloc, blocks)?;
    let numbers = table.as_mut_slice();
    tie_blocks(numbers, p, q);
    let values = values_at(alloc, numbers, p)?;
    numbered(alloc, values.as_slice(), blocks)
}

/// A number for the pair of blocks of each state: the label in p times `width`, plus the label in q.
fn block_pairs(alloc: Global, p: &[u16], q: &[u16], width: usize) -> Result<Vec<u16>, AllocError>
    requires p { IsPartition (length p.now) p.now }
    requires q { IsPartition (length p.now) q.now }
    requires width { width ≡ blocks_of q.now }
    ensures length { IfOk result (λ v. length v.items ≡ length p.now) }
    ensures values { IfOk result (λ v. (s : ℕ) → s < length p.now
        → slice_index v.items s ≡ slice_index p.now s * width + slice_index q.now s) }
{
    let mut values = Vec::with_capacity(alloc, p.len())?;
    for (s, label) in p.iter().enumerate() {
        let pair = *label as usize * width + q[s] as usize;
        values.push(pair as u16)?;
    }
    Ok(values)
}

/// The values at the places that `places` gives, one after another.
fn values_at(alloc: Global, values: &[u16], places: &[u16]) -> Result<Vec<u16>, AllocError>
    requires { (s : ℕ) → s < length places.now → slice_index places.now s < length values.now }
    ensures length { IfOk result (λ v. length v.items ≡ length places.now) }
    ensures values { IfOk result (λ v. (s : ℕ) → s < length places.now
        → slice_index v.items s ≡ slice_index values.now (slice_index places.now s)) }
{
    let mut found = Vec::with_capacity(alloc, places.len())?;
    for place in places {
        found.push(values[*place as usize])?;
    }
    Ok(found)
}

/// Gives blocks of p the same number where blocks of q tie them. At first each block has its own number.
fn tie_blocks(numbers: &mut [u16], p: &[u16], q: &[u16])
    requires p { IsPartition (length p.now) p.now }
    requires q { IsPartition (length p.now) q.now }
    requires count { length numbers.old ≡ blocks_of p.now }
    requires own { (block : ℕ) → block < length numbers.old → slice_index numbers.old block ≡ block }
    ensures { TiesBlocks p.now q.now numbers.new }
{
    let mut first = [0; MOST_STATES];
    let mut found = 0;
    for (s, label) in q.iter().enumerate() {
        let block = *label as usize;
        if block == found {
            first[block] = p[s];
            found += 1;
        } else {
            let to = numbers[first[block] as usize];
            let from = numbers[p[s] as usize];
            renumber(numbers, from, to);
        }
    }
}

/// The numbers below n in order.
fn own_numbers(alloc: Global, n: usize) -> Result<Vec<u16>, AllocError>
    requires { n ≤ 256 }
    ensures length { IfOk result (λ v. length v.items ≡ n) }
    ensures own { IfOk result (λ v. (k : ℕ) → k < n → slice_index v.items k ≡ k) }
{
    let mut numbers = Vec::with_capacity(alloc, n)?;
    for k in 0..n {
        numbers.push(k as u16)?;
    }
    Ok(numbers)
}

/// Replaces one number by another.
fn renumber(numbers: &mut [u16], from: u16, to: u16)
    ensures { (k : ℕ) → k < length numbers.old → slice_index numbers.new k
        ≡ (if slice_index numbers.old k == from then to else slice_index numbers.old k) }
{
    if from == to {
        return;
    }
    for number in numbers.iter_mut() {
        *number = if *number == from { to } else { *number };
    }
}
