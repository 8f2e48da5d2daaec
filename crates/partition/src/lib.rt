//! Partitions of the states of a machine, as a lattice.
//!
//! A partition of n states is kept as labels (`Partition`), or as labels and a row of n bits for each block of
//! two states or more (`BitPart`). Contracts see both as the list of labels. Partitions of n states are two
//! worlds of joins, `PartWorld` and `BitWorld`. The definitions that the calls meet are in these files:
//!
//! - `specs/Partition`: blocks, and states that are together;
//! - `specs/Bits`: rows;
//! - `specs/MeetAndJoin`: meet and join;
//! - `specs/Order`: the order of listings;
//! - `specs/NestedBlocks`: blocks inside blocks, and complements;
//! - `specs/Text` and `specs/Refusal`: texts and refusals;
//! - `specs/Sides` and `specs/Partners`: pairs of partitions, and Mm pairs of any relation of partitions;
//! - `specs/Laws`: the laws that other crates cite.
#![tactic(auto)]

ghost use Rattle.std.specs.Prelude.{◌≡◌, ◌<◌, ◌≤◌, ◌↔◌, length, slice_index, IsTrue, IfOk};
ghost use Rattle.partition.specs.NestedBlocks.{least_of};
ghost use Rattle.partition.specs.Partition.{
  IsPartition,
  IsStateCount,
  IsZero,
  IsOne,
  IsHold,
  Together,
  blocks_of,
  one_of,
  zero_of,
};

mod bits;
mod blocks;
mod bounds;
mod nested_blocks;
mod numbering;
mod order;
mod states;
mod text;
mod worlds;

pub use bits::BitPart;
use numbering::numbered;
use std::alloc::{AllocError, AllocFailed, Global};
use std::marker::Model;
pub use text::parse_of_show;
pub use worlds::{BitWorld, PartWorld};

/// The greatest number of states.
const MOST_STATES: usize = 256;

/// The greatest label of a state.
const MOST_LABEL: usize = 255;

/// A partition of the states 0 to n - 1, n from 1 to 256, seen by contracts as its list of labels.
///
/// States with equal labels are in one block, and blocks are numbered by first appearance.
#[derive(Drop)]
pub struct Partition {
    labels: Vec<u16>,
    blocks: usize,
}

impl Model for Partition {
    ghost use Rattle.std.specs.Prelude.{◌≡◌, List, ℕ, length};
    ghost use Rattle.partition.specs.Partition.{IsPartition, blocks_of};

    ghost Value = { List ℕ };

    ghost view = { λ p. p.labels.items };

    ghost invariant = { λ p. IsPartition (length p.labels.items) p.labels.items
        × (p.blocks ≡ blocks_of p.labels.items) };
}

/// Why labels or a text are not a partition. Places count labels from 0.
#[derive(Debug, Drop, PartialEq)]
pub enum PartFail {
    /// There are no labels.
    Empty,
    /// The label at this place is the first that breaks the rule of labels or is above 255.
    NotCanonical { place: usize },
    /// The label at this place is the first that is not a decimal number without leading zeros, or that breaks
    /// the rule of labels.
    BadText { place: usize },
    /// All labels are lawful, and this is their number.
    WrongLength { found: usize },
    /// Memory ran out.
    NoMemory,
}

impl From<AllocError> for PartFail {
    ghost use Rattle.std.specs.Prelude.{◌≡◌};
    ghost use Rattle.partition.specs.declared.PartFail.TheVariants.{NoMemory};

    ghost from_gives = { λ _ fail. fail ≡ NoMemory };

    fn from(_: AllocError) -> PartFail {
        PartFail::NoMemory
    }
}

impl<T: Drop> From<AllocFailed<T>> for PartFail {
    ghost use Rattle.std.specs.Prelude.{◌≡◌};
    ghost use Rattle.partition.specs.declared.PartFail.TheVariants.{NoMemory};

    ghost from_gives = { λ _ fail. fail ≡ NoMemory };

    fn from(_: AllocFailed<T>) -> PartFail {
        PartFail::NoMemory
    }
}

impl Partition {
    /// Each state in a block of its own.
    pub fn zero(alloc: Global, n: usize) -> Result<Partition, AllocError>
        requires { IsStateCount n }
        ensures lawful { IfOk result (λ p. IsPartition n p) }
        ensures zero { IfOk result IsZero }
        ensures labels { IfOk result (λ p. p ≡ zero_of n) }
    {
        let mut labels = Vec::with_capacity(alloc, n)?;
        for s in 0..n {
            labels.push(s as u16)?;
        }
        Ok(Partition { labels, blocks: n })
    }

    /// All states in one block.
    pub fn one(alloc: Global, n: usize) -> Result<Partition, AllocError>
        requires { IsStateCount n }
        ensures lawful { IfOk result (λ p. IsPartition n p) }
        ensures one { IfOk result IsOne }
        ensures labels { IfOk result (λ p. p ≡ one_of n) }
    {
        let labels = vec![in alloc; 0; n]?;
        Ok(Partition { labels, blocks: 1 })
    }

    /// The states s and t in one block, and each other state in a block of its own.
    pub fn hold(alloc: Global, n: usize, s: usize, t: usize) -> Result<Partition, AllocError>
        requires count { IsStateCount n }
        requires s { s < n }
        requires t { t < n }
        ensures { IfOk result (λ p. IsHold n s t p) }
    {
        let mut values = Vec::with_capacity(alloc, n)?;
        for u in 0..n {
            let value = if u == t { s } else { u };
            values.push(value as u16)?;
        }
        numbered(alloc, &values, n)
    }

    /// The number of states.
    pub fn len(&self) -> usize
        ensures len { result ≡ length self.now }
        ensures lawful { IsPartition result self.now }
    {
        self.labels.len()
    }

    /// The number of blocks.
    pub fn blocks(&self) -> usize
        ensures { result ≡ blocks_of self.now }
    {
        self.blocks
    }

    /// The label of a state.
    pub fn label(&self, s: usize) -> u16
        requires { s < length self.now }
        ensures { result ≡ slice_index self.now s }
    {
        self.labels[s]
    }

    /// Whether two states are together.
    pub fn same(&self, s: usize, t: usize) -> bool
        requires s { s < length self.now }
        requires t { t < length self.now }
        ensures { IsTrue result ↔ Together self.now s t }
    {
        self.labels[s] == self.labels[t]
    }

    /// The least state that is together with s.
    pub fn least_of(&self, s: usize) -> usize
        requires { s < length self.now }
        ensures least { result ≡ least_of self.now s }
        ensures below { result ≤ s }
    {
        for t in 0..s {
            if self.same(t, s) {
                return t;
            }
        }
        s
    }

    /// The same partition again.
    pub fn copy(&self, alloc: Global) -> Result<Partition, AllocError>
        ensures same { IfOk result (λ p. p ≡ self.now) }
        ensures lawful { IfOk result (λ p. IsPartition (length self.now) p) }
    {
        Ok(Partition {
            labels: self.labels.as_slice().to_vec(alloc)?,
            blocks: self.blocks,
        })
    }

    /// The labels of the states in order.
    fn labels(&self) -> &[u16]
        ensures labels { result.now ≡ self.now }
        ensures lawful { IsPartition (length self.now) self.now }
    {
        self.labels.as_slice()
    }
}
