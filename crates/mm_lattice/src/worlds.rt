//! Mm pairs as a world of values that can be joined.

ghost use Rattle.mm_lattice.specs.MmPairs.{IsLeastMmPair, IsMmJoin, IsMmPair};
ghost use Rattle.partition.specs.Sides.{RightBefore, Sides};
ghost use Rattle.mm_lattice.specs.Sides.{sides_of};
ghost use Rattle.pair_operators.specs.NextColumns.{AreAsked};
ghost use Rattle.pair_operators.specs.Extremes.{IsHigh};
ghost use Rattle.std.specs.Prelude.{◌≡◌, ⊤, IfOk, OnOk, length};
ghost use Rattle.mm_lattice.specs.Laws.{
  mm_joins_associate,
  mm_joins_commute,
  mm_joins_fit,
  mm_joins_least,
  mm_joins_once,
  mm_joins_repeat,
  mm_least_fits,
  mm_least_once,
  right_before_chains,
  right_before_decides,
};
ghost use Rattle.partition.specs.Laws.Partners.{right_never_before};

use hs_lattice::JoinWorld;
use machine_table::Machine;
use pair_operators::{AskedSymbols, high_beside};
use partition::Partition;
use std::alloc::{AllocError, Global};

/// Two partitions of a machine's states, meant to be an Mm pair: the right side is m of the left one, and the
/// left side is M of the right one.
#[derive(Drop)]
pub struct MmPair {
    pub left: Partition,
    pub right: Partition,
}

/// The Mm pairs of a machine, in the order of their right sides.
///
/// The least pair has zero as its right side. The join of two pairs has the join of their right sides as its
/// right side, and M of that as its left side.
#[derive(Clone, Copy)]
pub struct MmWorld<'a> {
    pub machine: &'a Machine,
}

/// The pair whose right side is the given partition and whose left side is M of it.
pub(crate) fn with_right(alloc: Global, m: &Machine, right: Partition) -> Result<MmPair, AllocError>
    requires { length right ≡ length m.now.states }
    ensures right { IfOk result (λ pair. pair.right ≡ right) }
    ensures left { IfOk result (λ pair. IsHigh m.now right pair.left) }
{
    with_right_beside(alloc, m, &mut AskedSymbols::new(alloc), right)
}

/// The Mm pair of a right side, which asks first the symbols that told states apart for earlier pairs.
pub(crate) fn with_right_beside(
    alloc: Global,
    m: &Machine,
    asked: &mut AskedSymbols,
    right: Partition,
) -> Result<MmPair, AllocError>
    requires states { length right ≡ length m.now.states }
    requires asked { AreAsked m.now asked.old }
    ensures asked { OnOk result (AreAsked m.now asked.new) }
    ensures right { IfOk result (λ pair. pair.right ≡ right) }
    ensures left { IfOk result (λ pair. IsHigh m.now right pair.left) }
{
    let left = high_beside(alloc, m, asked, &right)?;
    Ok(MmPair { left, right })
}

impl JoinWorld for MmWorld<'_> {
    type Item = MmPair;

    ghost Meaning = { Sides };

    ghost meaning = { sides_of };

    ghost lawful = { λ _. ⊤ };

    ghost fits = { λ w x. IsMmPair w.machine.now x };

    ghost least = { λ w x. IsLeastMmPair w.machine.now x };

    ghost joins = { λ w x y z. IsMmJoin w.machine.now x y z };

    ghost precedes = { λ _ x y. RightBefore x y };

    fn bottom(&self, alloc: Global) -> Result<MmPair, AllocError> {
        let zero = Partition::zero(alloc, self.machine.states())?;
        with_right(alloc, self.machine, zero)
    }

    fn join(&self, alloc: Global, a: &MmPair, b: &MmPair) -> Result<MmPair, AllocError> {
        let right = a.right.join(alloc, &b.right)?;
        with_right(alloc, self.machine, right)
    }

    fn copy(&self, alloc: Global, a: &MmPair) -> Result<MmPair, AllocError> {
        Ok(MmPair {
            left: a.left.copy(alloc)?,
            right: a.right.copy(alloc)?,
        })
    }

    fn before(&self, a: &MmPair, b: &MmPair) -> bool {
        a.right.before(&b.right)
    }

    fn same(&self, a: &MmPair, b: &MmPair) -> bool {
        a.right.equal(&b.right)
    }

    ghost least_fits = { λ w x lawful is. mm_least_fits w.machine.now x is };

    ghost least_once = { λ w x other lawful is same. mm_least_once w.machine.now x other is same };

    ghost joins_fit = { λ w x y z lawful left right joined. mm_joins_fit w.machine.now x y z left right joined };

    ghost joins_once = { λ w x y z other lawful left right one two.
        mm_joins_once w.machine.now x y z other left one two };

    ghost joins_commute = { λ w x y z lawful left right joined.
        mm_joins_commute w.machine.now x y z left right joined };

    ghost joins_associate = { λ w x y z front back all lawful a b c d e f.
        mm_joins_associate w.machine.now x y z front back all a b c d e f };

    ghost joins_repeat = { λ w x lawful fit. mm_joins_repeat w.machine.now x fit };

    ghost joins_least = { λ w x y lawful is fit. mm_joins_least w.machine.now x y is fit };

    ghost precedes_irreflexive = { λ w x lawful fit before. right_never_before x before };

    ghost precedes_transitive = { λ w x y z lawful a b c d e. right_before_chains w.machine.now x y z a b d e };

    ghost precedes_total = { λ w x y lawful left right. right_before_decides w.machine.now x y left right };
}
