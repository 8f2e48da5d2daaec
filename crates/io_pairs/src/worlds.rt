//! Mm pairs of both kinds as worlds of values that can be joined.

ghost use Rattle.std.specs.Prelude.{◌≡◌, ◌≤◌, IfOk};
ghost use Rattle.io_pairs.specs.Inputs.{InPair, IsInJoin, IsInMmPair, IsLeastInPair};
ghost use Rattle.io_pairs.specs.Laws.{in_pairs_grow, out_pairs_grow};
ghost use Rattle.partition.specs.Laws.Partners.{
  before_chains_of,
  before_decides_of,
  joins_associate_of,
  joins_commute_of,
  joins_fit_of,
  joins_least_of,
  joins_once_of,
  joins_repeat_of,
  least_fits_of,
  least_once_of,
  right_never_before,
};
ghost use Rattle.io_pairs.specs.Outputs.{AreOutputs, IsLeastOutPair, IsOutJoin, IsOutMmPair, OutPair};
ghost use Rattle.partition.specs.Sides.{RightBefore, Sides};
ghost use Rattle.io_pairs.specs.Sides.{sides_of};

use crate::output_words::Outs;
use crate::states::output_high;
use crate::symbols::input_high;
use hs_lattice::JoinWorld;
use machine_table::Machine;
use partition::Partition;
use std::alloc::{AllocError, Global};

/// A left and a right partition, meant to be an Mm pair: the right side is the least partner of the left one,
/// and the left side is the greatest partner of the right one.
#[derive(Drop)]
pub struct IoPair {
    pub left: Partition,
    pub right: Partition,
}

/// The Mm pairs of partitions of the symbols and of the states, in the order of their right sides. The machine has
/// at most 8 inputs.
///
/// The least pair has zero as its right side. The join of two pairs has the join of their right sides as its
/// right side, and the greatest partner of that as its left side.
#[derive(Clone, Copy)]
pub struct InputWorld<'a> {
    pub machine: &'a Machine,
}

/// The Mm pairs of partitions of the states and of the outputs that occur, in the order of their right sides. The
/// machine has at most 8 inputs.
///
/// The least pair and the joins are as in [`InputWorld`].
#[derive(Clone, Copy)]
pub struct OutputWorld<'a> {
    pub machine: &'a Machine,
    pub outs: &'a Outs,
}

/// A copy of the pair.
fn copy_of(alloc: Global, pair: &IoPair) -> Result<IoPair, AllocError>
    ensures { IfOk result (λ copy. sides_of copy ≡ sides_of pair.now) }
{
    Ok(IoPair {
        left: pair.left.copy(alloc)?,
        right: pair.right.copy(alloc)?,
    })
}

impl JoinWorld for InputWorld<'_> {
    type Item = IoPair;

    ghost Meaning = { Sides };

    ghost meaning = { sides_of };

    ghost lawful = { λ w. w.machine.now.inputs ≤ 8 };

    ghost fits = { λ w x. IsInMmPair w.machine.now x };

    ghost least = { λ w x. IsLeastInPair w.machine.now x };

    ghost joins = { λ w x y z. IsInJoin w.machine.now x y z };

    ghost precedes = { λ _ x y. RightBefore x y };

    fn bottom(&self, alloc: Global) -> Result<IoPair, AllocError> {
        let zero = Partition::zero(alloc, self.machine.states())?;
        let left = input_high(alloc, self.machine, &zero)?;
        Ok(IoPair { left, right: zero })
    }

    fn join(&self, alloc: Global, a: &IoPair, b: &IoPair) -> Result<IoPair, AllocError> {
        let right = a.right.join(alloc, &b.right)?;
        let left = input_high(alloc, self.machine, &right)?;
        Ok(IoPair { left, right })
    }

    fn copy(&self, alloc: Global, a: &IoPair) -> Result<IoPair, AllocError> {
        copy_of(alloc, a)
    }

    fn before(&self, a: &IoPair, b: &IoPair) -> bool {
        a.right.before(&b.right)
    }

    fn same(&self, a: &IoPair, b: &IoPair) -> bool {
        a.right.equal(&b.right)
    }

    ghost least_fits = { λ w x lawful is. least_fits_of _ _ (InPair w.machine.now) (in_pairs_grow w.machine.now) x is };

    ghost least_once = { λ w x other lawful is same. least_once_of _ _ (InPair w.machine.now)
        (in_pairs_grow w.machine.now) x other is same };

    ghost joins_fit = { λ w x y z lawful left right joined. joins_fit_of _ _ (InPair w.machine.now)
        (in_pairs_grow w.machine.now) x y z left right joined };

    ghost joins_once = { λ w x y z other lawful left right one two. joins_once_of _ _ (InPair w.machine.now)
        (in_pairs_grow w.machine.now) x y z other left one two };

    ghost joins_commute = { λ w x y z lawful left right joined. joins_commute_of _ _ (InPair w.machine.now)
        (in_pairs_grow w.machine.now) x y z left right joined };

    ghost joins_associate = { λ w x y z front back all lawful a b c d e f. joins_associate_of _ _ (InPair w.machine.now)
        (in_pairs_grow w.machine.now) x y z front back all a b c d e f };

    ghost joins_repeat = { λ w x lawful fit. joins_repeat_of _ _ (InPair w.machine.now)
        (in_pairs_grow w.machine.now) x fit };

    ghost joins_least = { λ w x y lawful is fit. joins_least_of _ _ (InPair w.machine.now)
        (in_pairs_grow w.machine.now) x y is fit };

    ghost precedes_irreflexive = { λ w x lawful fit before. right_never_before x before };

    ghost precedes_transitive = { λ w x y z lawful a b c d e. before_chains_of _ _ (InPair w.machine.now)
        (in_pairs_grow w.machine.now) x y z a b d e };

    ghost precedes_total = { λ w x y lawful left right. before_decides_of _ _ (InPair w.machine.now)
        (in_pairs_grow w.machine.now) x y left right };
}

impl JoinWorld for OutputWorld<'_> {
    type Item = IoPair;

    ghost Meaning = { Sides };

    ghost meaning = { sides_of };

    ghost lawful = { λ w. (w.machine.now.inputs ≤ 8) × AreOutputs w.machine.now w.outs.now };

    ghost fits = { λ w x. IsOutMmPair w.machine.now x };

    ghost least = { λ w x. IsLeastOutPair w.machine.now x };

    ghost joins = { λ w x y z. IsOutJoin w.machine.now x y z };

    ghost precedes = { λ _ x y. RightBefore x y };

    fn bottom(&self, alloc: Global) -> Result<IoPair, AllocError> {
        self.machine.keeps_its_states();
        let zero = Partition::zero(alloc, self.outs.as_slice().len())?;
        let left = output_high(alloc, self.machine, self.outs, &zero)?;
        Ok(IoPair { left, right: zero })
    }

    fn join(&self, alloc: Global, a: &IoPair, b: &IoPair) -> Result<IoPair, AllocError> {
        let right = a.right.join(alloc, &b.right)?;
        let left = output_high(alloc, self.machine, self.outs, &right)?;
        Ok(IoPair { left, right })
    }

    fn copy(&self, alloc: Global, a: &IoPair) -> Result<IoPair, AllocError> {
        copy_of(alloc, a)
    }

    fn before(&self, a: &IoPair, b: &IoPair) -> bool {
        a.right.before(&b.right)
    }

    fn same(&self, a: &IoPair, b: &IoPair) -> bool {
        a.right.equal(&b.right)
    }

    ghost least_fits = { λ w x lawful is. least_fits_of _ _ (OutPair w.machine.now)
        (out_pairs_grow w.machine.now) x is };

    ghost least_once = { λ w x other lawful is same. least_once_of _ _ (OutPair w.machine.now)
        (out_pairs_grow w.machine.now) x other is same };

    ghost joins_fit = { λ w x y z lawful left right joined. joins_fit_of _ _ (OutPair w.machine.now)
        (out_pairs_grow w.machine.now) x y z left right joined };

    ghost joins_once = { λ w x y z other lawful left right one two. joins_once_of _ _ (OutPair w.machine.now)
        (out_pairs_grow w.machine.now) x y z other left one two };

    ghost joins_commute = { λ w x y z lawful left right joined. joins_commute_of _ _ (OutPair w.machine.now)
        (out_pairs_grow w.machine.now) x y z left right joined };

    ghost joins_associate = { λ w x y z front back all lawful a b c d e f. joins_associate_of _ _
        (OutPair w.machine.now) (out_pairs_grow w.machine.now) x y z front back all a b c d e f };

    ghost joins_repeat = { λ w x lawful fit. joins_repeat_of _ _ (OutPair w.machine.now)
        (out_pairs_grow w.machine.now) x fit };

    ghost joins_least = { λ w x y lawful is fit. joins_least_of _ _ (OutPair w.machine.now)
        (out_pairs_grow w.machine.now) x y is fit };

    ghost precedes_irreflexive = { λ w x lawful fit before. right_never_before x before };

    ghost precedes_transitive = { λ w x y z lawful a b c d e. before_chains_of _ _ (OutPair w.machine.now)
        (out_pairs_grow w.machine.now) x y z a b d e };

    ghost precedes_total = { λ w x y lawful left right. before_decides_of _ _ (OutPair w.machine.now)
        (out_pairs_grow w.machine.now) x y left right };
}
