//! Closed partitions that grow as far as a condition lets them.
//!
//! Where a partition meets a condition, so does each smaller one. So a pair whose least closed partition could not be
//! joined cannot be joined later, and one pass over the pairs is enough. A pair that is already together adds
//! nothing. A pair that no partition which meets the condition holds together is passed over. No partition is made
//! for either.

ghost use Rattle.std.specs.Prelude.{ℕ, ◌≡◌, ◌+◌, ◌<◌, ◌↔◌, ◌⊎◌, IfOk, IsTrue, List, OnOk, length};
ghost use Rattle.closed_lattice.specs.ClosedPartitions.{IsClosedPartition, IsPrincipal};
ghost use Rattle.closed_lattice.specs.KnownPrincipals.{ArePrincipalsOf};
ghost use Rattle.closed_lattice.specs.Inner.Growth.{IsSettled, NeverHolds};
ghost use Rattle.machine_table.specs.NextStates.{NeverLeaves};
ghost use Rattle.pair_operators.specs.Growth.{GrowsOver, IsGrowth, TakesPair, pairs_from};
ghost use Rattle.closed_lattice.specs.Limits.{HoldsApart, IsGreatestGrown, MeetInZero};
ghost use Rattle.partition.specs.MeetAndJoin.{IsJoin};
ghost use Rattle.partition.specs.Partition.{IsPartition, IsZero, Lt, Together, blocks_of, zero_of};

use crate::closure::{joined, learn};
use crate::known_principals::Principals;
use machine_table::Machine;
use partition::Partition;
use std::alloc::{AllocError, Global};

/// How far partitions grow.
trait Condition {
    /// The condition fits partitions of this many states.
    ghost suits: { Self → ℕ → Type 0 };

    /// The partition meets the condition.
    ghost meets: { Self → List ℕ → Type 0 };

    /// Whether a partition meets the condition.
    fn is_met(&self, alloc: Global, p: &Partition) -> Result<bool, AllocError>
        requires { suits self.now (length p.now) }
        ensures { IfOk result (λ met. IsTrue met ↔ meets self.now p.now) };

    /// Whether the condition bars two states in two blocks: no partition above this one that meets it holds them
    /// together. It may answer no where that is so. Takes no memory.
    fn bars(&self, p: &Partition, s: usize, t: usize) -> bool
        requires suits { suits self.now (length p.now) }
        requires s { s < length p.now }
        requires t { t < length p.now }
        requires apart { Together p.now s t → ⊥ }
        ensures { IsTrue result → NeverHolds (meets self.now) p.now s t };
}

/// The number of merges of two blocks that lead from zero to the partition.
fn rank(p: &Partition) -> usize
    ensures rank { result + blocks_of p.now ≡ length p.now }
    ensures lawful { IsPartition (length p.now) p.now }
{
    p.len() - p.blocks()
}

/// The partition stays strictly below this one, which has this rank.
#[derive(Drop)]
struct StrictlyBelow<'a> {
    top: &'a Partition,
    rank: usize,
}

impl Condition for StrictlyBelow<'_> {
    ghost suits = { λ c n. IsPartition n c.top.now × (c.rank + blocks_of c.top.now ≡ n) };

    ghost meets = { λ c p. Lt p c.top.now };

    fn is_met(&self, _alloc: Global, p: &Partition) -> Result<bool, AllocError> {
        Ok(p.le(self.top) && !self.top.le(p))
    }

    fn bars(&self, p: &Partition, s: usize, t: usize) -> bool {
        !self.top.same(s, t) || self.rank <= rank(p) + 1
    }
}

/// No two states are together in the partition and in this one.
#[derive(Drop)]
struct MeetsInZero<'a> {
    other: &'a Partition,
}

impl Condition for MeetsInZero<'_> {
    ghost suits = { λ c n. length c.other.now ≡ n };

    ghost meets = { λ c p. MeetInZero c.other.now p };

    fn is_met(&self, alloc: Global, p: &Partition) -> Result<bool, AllocError> {
        let common = p.meet(alloc, self.other)?;
        Ok(common.blocks() == p.len())
    }

    fn bars(&self, _p: &Partition, s: usize, t: usize) -> bool {
        self.other.same(s, t)
    }
}

/// Whether the two of each pair are together.
fn both_same(p: &Partition, one: (usize, usize), other: (usize, usize)) -> bool
    requires one { (one.0 < length p.now) × (one.1 < length p.now) }
    requires other { (other.0 < length p.now) × (other.1 < length p.now) }
    ensures { IsTrue result ↔ (Together p.now one.0 one.1 × Together p.now other.0 other.1) }
{
    p.same(one.0, one.1) && p.same(other.0, other.1)
}

/// The two states stay in two blocks.
#[derive(Drop)]
struct InTwoBlocks {
    s: usize,
    t: usize,
}

impl Condition for InTwoBlocks {
    ghost suits = { λ c n. (c.s < n) × (c.t < n) };

    ghost meets = { λ c p. HoldsApart c.s c.t p };

    fn is_met(&self, _alloc: Global, p: &Partition) -> Result<bool, AllocError> {
        Ok(!p.same(self.s, self.t))
    }

    fn bars(&self, p: &Partition, s: usize, t: usize) -> bool {
        both_same(p, (self.s, s), (t, self.t)) || both_same(p, (self.s, t), (s, self.t))
    }
}

/// The join of a partition with the least closed partition of two states.
fn joined_by(
    alloc: Global,
    m: &Machine,
    known: &mut Principals,
    p: &Partition,
    s: usize,
    t: usize,
) -> Result<Partition, AllocError>
    requires known { ArePrincipalsOf m.now known.old }
    requires states { length p.now ≡ length m.now.states }
    requires s { s < length m.now.states }
    requires t { t < length m.now.states }
    ensures known { OnOk result (ArePrincipalsOf m.now known.new) }
    ensures joined { IfOk result (λ r. (least : List ℕ) × IsPrincipal m.now s t least × IsJoin p.now least r) }
{
    let least = learn(alloc, m, known, s, t)?;
    joined(alloc, p, &least)
}

/// Puts the join in place of the partition, if it meets the condition.
fn take_if_met<C: Condition>(
    alloc: Global,
    grown: &mut Partition,
    join: Partition,
    condition: &C,
) -> Result<(), AllocError>
    requires { C.suits condition.now (length join) }
    ensures { OnOk result ((C.meets condition.now join × (grown.new ≡ join))
        ⊎ ((C.meets condition.now join → ⊥) × (grown.new ≡ grown.old))) }
{
    if condition.is_met(alloc, &join)? {
        *grown = join;
    }
    Ok(())
}

/// Grows by the least closed partition of two states. It is not made where it would add nothing.
fn grow_by<C: Condition>(
    alloc: Global,
    m: &Machine,
    known: &mut Principals,
    grown: &mut Partition,
    s: usize,
    t: usize,
    condition: &C,
) -> Result<(), AllocError>
    requires known { ArePrincipalsOf m.now known.old }
    requires stays { NeverLeaves m.now }
    requires settled { IsSettled m.now (C.meets condition.now) grown.old }
    requires s { s < length m.now.states }
    requires t { t < length m.now.states }
    requires suits { C.suits condition.now (length m.now.states) }
    ensures known { OnOk result (ArePrincipalsOf m.now known.new) }
    ensures takes { OnOk result (TakesPair (IsPrincipal m.now) (C.meets condition.now) grown.old s t grown.new) }
{
    if grown.same(s, t) {
        return Ok(());
    }
    if condition.bars(grown, s, t) {
        return Ok(());
    }
    let join = joined_by(alloc, m, known, grown, s, t)?;
    take_if_met(alloc, grown, join, condition)
}

/// Grows over the pairs of one state and a greater one.
fn grow_from<C: Condition>(
    alloc: Global,
    m: &Machine,
    known: &mut Principals,
    grown: &mut Partition,
    s: usize,
    condition: &C,
) -> Result<(), AllocError>
    requires known { ArePrincipalsOf m.now known.old }
    requires settled { IsSettled m.now (C.meets condition.now) grown.old }
    requires state { s < length m.now.states }
    requires suits { C.suits condition.now (length m.now.states) }
    ensures known { OnOk result (ArePrincipalsOf m.now known.new) }
    ensures settled { OnOk result (IsSettled m.now (C.meets condition.now) grown.new) }
    ensures grown { OnOk result (GrowsOver (IsPrincipal m.now) (C.meets condition.now) grown.old
        (pairs_from (length m.now.states) s) grown.new) }
{
    for t in s + 1..m.states() {
        grow_by(alloc, m, known, grown, s, t, condition)?;
    }
    Ok(())
}

/// The growth over the least closed partitions of all pairs.
fn grow<C: Condition>(
    alloc: Global,
    m: &Machine,
    known: &mut Principals,
    start: Partition,
    condition: &C,
) -> Result<Partition, AllocError>
    requires known { ArePrincipalsOf m.now known.old }
    requires settled { IsSettled m.now (C.meets condition.now) start }
    requires suits { C.suits condition.now (length m.now.states) }
    ensures known { OnOk result (ArePrincipalsOf m.now known.new) }
    ensures grown { IfOk result (IsGrowth (IsPrincipal m.now) (C.meets condition.now)
        (length m.now.states) start) }
{
    let mut grown = start;
    for s in 0..m.states() {
        grow_from(alloc, m, known, &mut grown, s, condition)?;
    }
    Ok(grown)
}

impl Principals {
    /// The growth of zero strictly below a partition, with the partitions that are kept. Below zero it is zero.
    pub fn below(
        &mut self,
        alloc: Global,
        m: &Machine,
        top: &Partition,
    ) -> Result<Partition, AllocError>
        requires kept { ArePrincipalsOf m.now self.old }
        requires states { length top.now ≡ length m.now.states }
        ensures kept { OnOk result (ArePrincipalsOf m.now self.new) }
        ensures growth { IfOk result (IsGrowth (IsPrincipal m.now) (λ p. Lt p top.now)
            (length m.now.states) (zero_of (length m.now.states))) }
        ensures greatest { IfOk result (λ p. (IsZero top.now → ⊥)
            → IsGreatestGrown m.now (λ p. Lt p top.now) (zero_of (length m.now.states)) p) }
        ensures zero { IfOk result (λ p. IsZero top.now → p ≡ zero_of (length m.now.states)) }
    {
        let zero = Partition::zero(alloc, m.states())?;
        let rank = rank(top);
        grow(alloc, m, self, zero, &StrictlyBelow { top, rank })
    }

    /// The growth of a closed partition as long as it meets another one in zero, with the partitions that are kept.
    pub fn apart(
        &mut self,
        alloc: Global,
        m: &Machine,
        start: &Partition,
        other: &Partition,
    ) -> Result<Partition, AllocError>
        requires kept { ArePrincipalsOf m.now self.old }
        requires states { length other.now ≡ length m.now.states }
        requires closed { IsClosedPartition m.now start.now }
        requires in_zero { MeetInZero other.now start.now }
        ensures kept { OnOk result (ArePrincipalsOf m.now self.new) }
        ensures growth { IfOk result (IsGrowth (IsPrincipal m.now) (MeetInZero other.now)
            (length m.now.states) start.now) }
        ensures greatest { IfOk result (IsGreatestGrown m.now (MeetInZero other.now) start.now) }
    {
        let copy = start.copy(alloc)?;
        grow(alloc, m, self, copy, &MeetsInZero { other })
    }

    /// The growth of zero as long as two states are in two blocks, with the partitions that are kept.
    pub fn separating(
        &mut self,
        alloc: Global,
        m: &Machine,
        s: usize,
        t: usize,
    ) -> Result<Partition, AllocError>
        requires kept { ArePrincipalsOf m.now self.old }
        requires order { s < t }
        requires t { t < length m.now.states }
        ensures kept { OnOk result (ArePrincipalsOf m.now self.new) }
        ensures growth { IfOk result (IsGrowth (IsPrincipal m.now) (HoldsApart s t)
            (length m.now.states) (zero_of (length m.now.states))) }
        ensures greatest { IfOk result (IsGreatestGrown m.now (HoldsApart s t)
            (zero_of (length m.now.states))) }
    {
        let zero = Partition::zero(alloc, m.states())?;
        grow(alloc, m, self, zero, &InTwoBlocks { s, t })
    }
}

/// The growth of zero strictly below a partition. Below zero it is zero.
pub fn below(alloc: Global, m: &Machine, top: &Partition) -> Result<Partition, AllocError>
    requires { length top.now ≡ length m.now.states }
    ensures growth { IfOk result (IsGrowth (IsPrincipal m.now) (λ p. Lt p top.now)
        (length m.now.states) (zero_of (length m.now.states))) }
    ensures greatest { IfOk result (λ p. (IsZero top.now → ⊥)
        → IsGreatestGrown m.now (λ p. Lt p top.now) (zero_of (length m.now.states)) p) }
    ensures zero { IfOk result (λ p. IsZero top.now → p ≡ zero_of (length m.now.states)) }
{
    Principals::new(alloc)?.below(alloc, m, top)
}

/// The growth of a closed partition as long as it meets another one in zero.
pub fn apart(
    alloc: Global,
    m: &Machine,
    start: &Partition,
    other: &Partition,
) -> Result<Partition, AllocError>
    requires states { length other.now ≡ length m.now.states }
    requires closed { IsClosedPartition m.now start.now }
    requires in_zero { MeetInZero other.now start.now }
    ensures growth { IfOk result (IsGrowth (IsPrincipal m.now) (MeetInZero other.now)
        (length m.now.states) start.now) }
    ensures greatest { IfOk result (IsGreatestGrown m.now (MeetInZero other.now) start.now) }
{
    Principals::new(alloc)?.apart(alloc, m, start, other)
}

/// The growth of zero as long as two states are in two blocks.
pub fn separating(alloc: Global, m: &Machine, s: usize, t: usize) -> Result<Partition, AllocError>
    requires order { s < t }
    requires t { t < length m.now.states }
    ensures growth { IfOk result (IsGrowth (IsPrincipal m.now) (HoldsApart s t)
        (length m.now.states) (zero_of (length m.now.states))) }
    ensures greatest { IfOk result (IsGreatestGrown m.now (HoldsApart s t)
        (zero_of (length m.now.states))) }
{
    Principals::new(alloc)?.separating(alloc, m, s, t)
}
