//! Meet by labels, and join by the rows of blocks.

ghost use Rattle.std.specs.Prelude.{◌≡◌, ℕ, ◌<◌, length, IfOk};
ghost use Rattle.std.specs.Bool.{OnFalse};
ghost use Rattle.partition.specs.Partition.{IsPartition};
ghost use Rattle.partition.specs.MeetAndJoin.{IsMeet, IsJoin, IsGreatestBelow, IsLeastAbove};
ghost use Rattle.partition.specs.MergedBlocks.{IsMerged};
ghost use Rattle.partition.specs.Inner.Rows.{Has, JoinsStates};

use super::BitPart;
use super::joined_rows::gathered_rows;
use super::rows::{row_count, word_count};
use crate::Partition;
use crate::states::StateSet;
use std::alloc::{AllocError, Global};

impl BitPart {
    /// The partition in which two states are together exactly where they are together in both this partition
    /// and q.
    pub fn meet(&self, alloc: Global, q: &BitPart) -> Result<BitPart, AllocError>
        requires { length q.now ≡ length self.now }
        ensures meet { IfOk result (λ r. IsMeet self.now q.now r) }
        ensures greatest { IfOk result (λ r. IsGreatestBelow self.now q.now r) }
    {
        BitPart::with_rows(alloc, self.partition.meet(alloc, &q.partition)?)
    }

    /// The partition in which two states are together exactly where a chain of states leads from the one to the
    /// other.
    pub fn join(&self, alloc: Global, q: &BitPart) -> Result<BitPart, AllocError>
        requires { length q.now ≡ length self.now }
        ensures join { IfOk result (λ r. IsJoin self.now q.now r) }
        ensures least { IfOk result (λ r. IsLeastAbove self.now q.now r) }
    {
        if self.blocks() < q.blocks() {
            self.join_onto(alloc, q)
        } else {
            q.join_onto(alloc, self)
        }
    }

    /// The join, made from a copy of this partition.
    fn join_onto(&self, alloc: Global, q: &BitPart) -> Result<BitPart, AllocError>
        requires { length q.now ≡ length self.now }
        ensures { IfOk result (λ r. IsJoin self.now q.now r) }
    {
        let mut partition = self.partition.copy(alloc)?;
        if q.join_into(&mut partition) {
            let front = self.rows.as_slice();
            let back = q.rows.as_slice();
            let rows = gathered_rows(alloc, partition.labels(), front, back)?;
            return Ok(BitPart { partition, rows });
        }
        let rows = self.rows.as_slice().to_vec(alloc)?;
        Ok(BitPart { partition, rows })
    }

    /// Puts the states of each row together in a partition. Returns whether that changed the partition.
    fn join_into(&self, partition: &mut Partition) -> bool
        requires lawful { IsPartition (length partition.old) partition.old }
        requires length { length partition.old ≡ length self.now }
        ensures join { IsJoin partition.old self.now partition.new }
        ensures kept { OnFalse result (partition.new ≡ partition.old) }
    {
        let width = word_count(self.partition.len());
        let rows = self.rows.as_slice();
        let mut changed = false;
        for i in 0..row_count(rows.len(), width) {
            let at = i * width;
            let states = StateSet::of(&rows[at..at + width]);
            changed |= join_states(&states, partition);
        }
        changed
    }
}

/// Puts the blocks of these states together. Returns whether that changed the partition.
fn join_states(states: &StateSet, partition: &mut Partition) -> bool
    requires lawful { IsPartition (length partition.old) partition.old }
    requires states { (t : ℕ) → Has states.now t → t < length partition.old }
    ensures joined { JoinsStates partition.old states.now partition.new }
    ensures kept { OnFalse result (partition.new ≡ partition.old) }
{
    let Some(s) = states.first() else {
        return false;
    };
    let mut left = *states;
    let mut changed = false;
    while let Some(t) = left.first() {
        changed |= join_two(partition, s, t);
        left.remove(t);
    }
    changed
}

/// Puts the blocks of two states together. Returns whether they were two blocks.
fn join_two(partition: &mut Partition, s: usize, t: usize) -> bool
    requires lawful { IsPartition (length partition.old) partition.old }
    requires s { s < length partition.old }
    requires t { t < length partition.old }
    ensures merged { IsMerged partition.old s t partition.new }
    ensures kept { OnFalse result (partition.new ≡ partition.old) }
{
    if partition.same(s, t) {
        return false;
    }
    partition.merge(s, t);
    true
}
