//! The partitions of n states as a world of values that can be joined.

ghost use Rattle.std.specs.Prelude.{◌≡◌, List, ℕ};
ghost use Rattle.partition.specs.Partition.{IsPartition, IsStateCount, zero_of};
ghost use Rattle.partition.specs.MeetAndJoin.{IsJoin};
ghost use Rattle.partition.specs.Order.{Before};
ghost use Rattle.partition.specs.Laws.World.{
  zero_fits,
  zero_once,
  join_fits,
  join_once,
  join_commutes,
  join_associates,
  join_repeats,
  join_zero,
  before_never,
  before_chains,
  before_decides,
};

use crate::{BitPart, Partition};
use hs_lattice::JoinWorld;
use std::alloc::{AllocError, Global};

/// The partitions of n states, n from 1 to 256, kept as labels.
#[derive(Clone, Copy)]
pub struct PartWorld {
    pub n: usize,
}

impl JoinWorld for PartWorld {
    type Item = Partition;

    ghost Meaning = { List ℕ };

    ghost meaning = { λ p. p };

    ghost lawful = { λ w. IsStateCount w.n };

    ghost fits = { λ w p. IsPartition w.n p };

    ghost least = { λ w p. p ≡ zero_of w.n };

    ghost joins = { λ _ p q r. IsJoin p q r };

    ghost precedes = { λ _ p q. Before p q };

    fn bottom(&self, alloc: Global) -> Result<Partition, AllocError> {
        Partition::zero(alloc, self.n)
    }

    fn join(&self, alloc: Global, a: &Partition, b: &Partition) -> Result<Partition, AllocError> {
        a.join(alloc, b)
    }

    fn copy(&self, alloc: Global, a: &Partition) -> Result<Partition, AllocError> {
        a.copy(alloc)
    }

    fn before(&self, a: &Partition, b: &Partition) -> bool {
        a.before(b)
    }

    fn same(&self, a: &Partition, b: &Partition) -> bool {
        a.equal(b)
    }

    ghost least_fits = { λ w p lawful is. zero_fits w.n p lawful is };

    ghost least_once = { λ w p other lawful is same. zero_once w.n p other is same };

    ghost joins_fit = { λ w p q r lawful left right joined. join_fits w.n p q r left joined };

    ghost joins_once = { λ w p q r other lawful left right one two. join_once w.n p q r other left one two };

    ghost joins_commute = { λ w p q r lawful left right joined. join_commutes w.n p q r left right joined };

    ghost joins_associate = { λ w p q r front back all lawful a b c d e f.
        join_associates w.n p q r front back all a b c d e f };

    ghost joins_repeat = { λ w p lawful fit. join_repeats w.n p fit };

    ghost joins_least = { λ w p q lawful is fit. join_zero w.n p q is fit };

    ghost precedes_irreflexive = { λ w p lawful fit before. before_never p before };

    ghost precedes_transitive = { λ w p q r lawful a b c d e. before_chains w.n p q r a b d e };

    ghost precedes_total = { λ w p q lawful left right. before_decides w.n p q left right };
}

/// The partitions of n states, n from 1 to 256, kept as labels and rows of bits.
#[derive(Clone, Copy)]
pub struct BitWorld {
    pub n: usize,
}

impl JoinWorld for BitWorld {
    type Item = BitPart;

    ghost Meaning = { List ℕ };

    ghost meaning = { λ p. p };

    ghost lawful = { λ w. IsStateCount w.n };

    ghost fits = { λ w p. IsPartition w.n p };

    ghost least = { λ w p. p ≡ zero_of w.n };

    ghost joins = { λ _ p q r. IsJoin p q r };

    ghost precedes = { λ _ p q. Before p q };

    fn bottom(&self, alloc: Global) -> Result<BitPart, AllocError> {
        let zero = Partition::zero(alloc, self.n)?;
        BitPart::of(alloc, &zero)
    }

    fn join(&self, alloc: Global, a: &BitPart, b: &BitPart) -> Result<BitPart, AllocError> {
        a.join(alloc, b)
    }

    fn copy(&self, alloc: Global, a: &BitPart) -> Result<BitPart, AllocError> {
        a.copy(alloc)
    }

    fn before(&self, a: &BitPart, b: &BitPart) -> bool {
        a.before(b)
    }

    fn same(&self, a: &BitPart, b: &BitPart) -> bool {
        a.equal(b)
    }

    ghost least_fits = { λ w p lawful is. zero_fits w.n p lawful is };

    ghost least_once = { λ w p other lawful is same. zero_once w.n p other is same };

    ghost joins_fit = { λ w p q r lawful left right joined. join_fits w.n p q r left joined };

    ghost joins_once = { λ w p q r other lawful left right one two. join_once w.n p q r other left one two };

    ghost joins_commute = { λ w p q r lawful left right joined. join_commutes w.n p q r left right joined };

    ghost joins_associate = { λ w p q r front back all lawful a b c d e f.
        join_associates w.n p q r front back all a b c d e f };

    ghost joins_repeat = { λ w p lawful fit. join_repeats w.n p fit };

    ghost joins_least = { λ w p q lawful is fit. join_zero w.n p q is fit };

    ghost precedes_irreflexive = { λ w p lawful fit before. before_never p before };

    ghost precedes_transitive = { λ w p q r lawful a b c d e. before_chains w.n p q r a b d e };

    ghost precedes_total = { λ w p q lawful left right. before_decides w.n p q left right };
}
