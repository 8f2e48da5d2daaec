//! Partitions as labels and rows of bits.

ghost use Rattle.std.specs.Prelude.{◌≡◌, ℕ, ◌+◌, ◌/◌, ◌<◌, ◌≤◌, ◌↔◌, length, IsTrue, IfOk};
ghost use Rattle.std.specs.Bool.{OnFalse};
ghost use Rattle.partition.specs.Partition.{IsPartition, Together, blocks_of};
ghost use Rattle.partition.specs.MeetAndJoin.{IsMeet, IsJoin, IsGreatestBelow, IsLeastAbove};
ghost use Rattle.partition.specs.Order.{Before};
ghost use Rattle.partition.specs.Bits.{bit_of};

mod joined_rows;
mod lattice;
mod numbers;
mod rows;
mod single_rows;

use crate::Partition;
use rows::{block_rows, row_count, row_with, word_count};
use single_rows::single_row;
use std::alloc::{AllocError, Global};
use std::marker::Model;

/// A partition of n states as its labels and rows of n bits, seen by contracts as the list of labels.
///
/// Bit t of row s is 1 exactly where s and t are together. States of one block have one row, which is kept if
/// the block has two states or more; the row of a state that is alone in its block is not kept. The rows are in
/// one vector, one after another, each in as many words as n bits need.
#[derive(Drop)]
pub struct BitPart {
    partition: Partition,
    rows: Vec<u64>,
}

impl Model for BitPart {
    ghost use Rattle.std.specs.Prelude.{List, ℕ, length};
    ghost use Rattle.partition.specs.Partition.{IsPartition};
    ghost use Rattle.partition.specs.Inner.Rows.{AreRowsOf};

    ghost Value = { List ℕ };

    ghost view = { λ p. p.partition };

    ghost invariant = { λ p. IsPartition (length p.partition) p.partition × AreRowsOf p.partition p.rows.items };
}

impl BitPart {
    /// The same partition with rows of bits.
    pub fn of(alloc: Global, p: &Partition) -> Result<BitPart, AllocError>
        ensures labels { IfOk result (λ q. q ≡ p.now) }
        ensures lawful { IfOk result (λ q. IsPartition (length p.now) q) }
    {
        BitPart::with_rows(alloc, p.copy(alloc)?)
    }

    /// The partition, with rows of its blocks.
    fn with_rows(alloc: Global, partition: Partition) -> Result<BitPart, AllocError>
        ensures labels { IfOk result (λ q. q ≡ partition) }
        ensures lawful { IfOk result (λ q. IsPartition (length partition) q) }
    {
        let rows = block_rows(alloc, partition.labels())?;
        Ok(BitPart { partition, rows })
    }

    /// The labels of the states.
    pub fn labels(&self, alloc: Global) -> Result<Partition, AllocError>
        ensures labels { IfOk result (λ p. p ≡ self.now) }
        ensures lawful { IfOk result (λ p. IsPartition (length self.now) p) }
    {
        self.partition.copy(alloc)
    }

    /// The number of states.
    pub fn len(&self) -> usize
        ensures len { result ≡ length self.now }
        ensures lawful { IsPartition result self.now }
    {
        self.partition.len()
    }

    /// Row s: bit t is the bit of value 2^(t modulo 64) in word t / 64, and is 1 exactly where s and t are
    /// together. There are as many words as n bits need, and the bits from n on are 0.
    pub fn row(&self, s: usize) -> &[u64]
        requires { s < length self.now }
        ensures words { length result.now ≡ (length self.now + 63) / 64 }
        ensures together { (t : ℕ) → (bit_of result.now t ≡ 1) ↔ Together self.now s t }
        ensures above { (t : ℕ) → length self.now ≤ t → bit_of result.now t ≡ 0 }
    {
        let width = word_count(self.partition.len());
        let rows = self.rows.as_slice();
        let at = row_with(rows, width, row_count(rows.len(), width), s);
        if at < rows.len() {
            &rows[at..at + width]
        } else {
            single_row(s, width)
        }
    }

    /// Whether two states are together.
    pub fn same(&self, s: usize, t: usize) -> bool
        requires s { s < length self.now }
        requires t { t < length self.now }
        ensures { IsTrue result ↔ Together self.now s t }
    {
        self.partition.same(s, t)
    }

    /// The number of blocks.
    pub fn blocks(&self) -> usize
        ensures blocks { result ≡ blocks_of self.now }
        ensures lawful { IsPartition (length self.now) self.now }
    {
        self.partition.blocks()
    }

    /// Whether q has the same states together.
    pub fn equal(&self, q: &BitPart) -> bool
        ensures { IsTrue result ↔ (self.now ≡ q.now) }
    {
        self.partition.equal(&q.partition)
    }

    /// Whether this partition comes before q in a listing, in the order of `Partition::before`.
    pub fn before(&self, q: &BitPart) -> bool
        requires { length q.now ≡ length self.now }
        ensures { IsTrue result ↔ Before self.now q.now }
    {
        self.partition.before(&q.partition)
    }

    /// The same partition again.
    pub fn copy(&self, alloc: Global) -> Result<BitPart, AllocError>
        ensures same { IfOk result (λ p. p ≡ self.now) }
        ensures lawful { IfOk result (λ p. IsPartition (length self.now) p) }
    {
        Ok(BitPart {
            partition: self.partition.copy(alloc)?,
            rows: self.rows.as_slice().to_vec(alloc)?,
        })
    }
}
