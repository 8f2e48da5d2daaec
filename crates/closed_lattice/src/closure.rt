//! The least closed partition that holds two states together.
//!
//! A list holds pairs of states that have to be together, at first only the two. A pair whose states are still in
//! two blocks is taken from it, the two blocks are merged, and the pairs of next states of the two are added.
//! Each pair in the list is together in every closed partition that holds the first two, so no merge is needless.
//! When the list is empty, next states of states that are together are together. Where the least closed partition
//! of a listed pair is already known, it is joined at once.

ghost use Rattle.std.specs.Prelude.{ℕ, ◌≡◌, ◌<◌, Contains, IfNone, IfOk, IfSome, OnOk, length};
ghost use Rattle.closed_lattice.specs.ClosedPartitions.{IsPrincipal};
ghost use Rattle.closed_lattice.specs.Inner.Joins.{Joins};
ghost use Rattle.closed_lattice.specs.KnownPrincipals.{ArePrincipalsOf};
ghost use Rattle.closed_lattice.specs.Inner.WaitingPairs.{AddsImages, AreStates, AreTogether, TakesApart};
ghost use Rattle.machine_table.specs.NextStates.{NeverLeaves};
ghost use Rattle.partition.specs.MeetAndJoin.{IsJoin};
ghost use Rattle.partition.specs.Partition.{IsPartition, Together};

use crate::known_principals::Principals;
use crate::next_pairs::{known_ahead, pairs_ahead, state_number};
use machine_table::Machine;
use partition::Partition;
use std::alloc::{AllocError, Global};

/// Takes pairs off the end, up to one whose states are in two blocks of the partition.
fn next_apart(p: &Partition, waiting: &mut Vec<(u16, u16)>) -> Option<(usize, usize)>
    requires { AreStates (length p.now) waiting.old.items }
    ensures apart { IfSome result (λ pair. TakesApart p.now waiting.old.items pair.0 pair.1 waiting.new.items) }
    ensures none { IfNone result (AreTogether p.now waiting.old.items) }
{
    while let Some((u, v)) = waiting.pop() {
        let (s, t) = (usize::from(u), usize::from(v));
        if !p.same(s, t) {
            return Some((s, t));
        }
    }
    None
}

/// The join, with the side that has fewer blocks as the first. A join keeps a number for each block of its first
/// side, and goes through these for each merge.
pub(crate) fn joined(alloc: Global, p: &Partition, q: &Partition) -> Result<Partition, AllocError>
    requires { length q.now ≡ length p.now }
    ensures { IfOk result (IsJoin p.now q.now) }
{
    if q.blocks() < p.blocks() {
        q.join(alloc, p)
    } else {
        p.join(alloc, q)
    }
}

/// Joins the partition with the known one of two states, if there is one and the two are not together.
#[tactic(auto, using(crate::proofs::Joining::joins_none))]
fn join_one(
    alloc: Global,
    m: &Machine,
    known: &Principals,
    u: u16,
    v: u16,
    p: &mut Partition,
) -> Result<(), AllocError>
    requires known { ArePrincipalsOf m.now known.now }
    requires lawful { IsPartition (length m.now.states) p.old }
    requires u { u < length p.old }
    requires v { v < length p.old }
    ensures { OnOk result (Joins m.now (λ q. Together q u v) p.old p.new) }
{
    if !p.same(usize::from(u), usize::from(v)) {
        if let Some(least) = known.find(u, v) {
            *p = joined(alloc, p, least)?;
        }
    }
    Ok(())
}

/// Joins the partition with the known ones of pairs of states.
fn join_known(
    alloc: Global,
    m: &Machine,
    known: &Principals,
    pairs: &[(u16, u16)],
    p: &mut Partition,
) -> Result<(), AllocError>
    requires known { ArePrincipalsOf m.now known.now }
    requires lawful { IsPartition (length m.now.states) p.old }
    requires states { AreStates (length m.now.states) pairs.now }
    ensures { OnOk result (Joins m.now (λ q. AreTogether q pairs.now) p.old p.new) }
{
    for (u, v) in pairs {
        join_one(alloc, m, known, *u, *v, p)?;
    }
    Ok(())
}

/// Adds the pairs of next states of two states, and joins the partition with the known ones of them.
fn add_images(
    alloc: Global,
    m: &Machine,
    known: &Principals,
    s: usize,
    t: usize,
    waiting: &mut Vec<(u16, u16)>,
    p: &mut Partition,
) -> Result<(), AllocError>
    requires known { ArePrincipalsOf m.now known.now }
    requires stays { NeverLeaves m.now }
    requires lawful { IsPartition (length m.now.states) p.old }
    requires s { s < length m.now.states }
    requires t { t < length m.now.states }
    ensures added { OnOk result (AddsImages m.now s t waiting.old.items waiting.new.items) }
    ensures joined { OnOk result (Joins m.now (λ q. AreTogether q waiting.new.items) p.old p.new) }
{
    let images = m.image_pairs(alloc, s, t)?;
    let pairs = images.as_slice();
    join_known(alloc, m, known, pairs, p)?;
    waiting.extend_from_slice(pairs)?;
    Ok(())
}

/// The least closed partition that holds s and t together, made with the known ones of other pairs.
pub(crate) fn principal_beside(
    alloc: Global,
    m: &Machine,
    known: &Principals,
    s: usize,
    t: usize,
) -> Result<Partition, AllocError>
    requires known { ArePrincipalsOf m.now known.now }
    requires s { s < length m.now.states }
    requires t { t < length m.now.states }
    ensures { IfOk result (IsPrincipal m.now s t) }
{
    let mut p = Partition::zero(alloc, m.states())?;
    let mut waiting = Vec::new(alloc);
    waiting.push((s as u16, t as u16))?;
    while let Some((u, v)) = next_apart(&p, &mut waiting) {
        p.merge(u, v);
        if p.blocks() == 1 {
            return Ok(p);
        }
        add_images(alloc, m, known, u, v, &mut waiting, &mut p)?;
    }
    Ok(p)
}

/// The least closed partition that holds s and t together.
pub fn principal(alloc: Global, m: &Machine, s: usize, t: usize) -> Result<Partition, AllocError>
    requires s { s < length m.now.states }
    requires t { t < length m.now.states }
    ensures { IfOk result (IsPrincipal m.now s t) }
{
    principal_beside(alloc, m, &Principals::none(alloc), s, t)
}

/// The least closed partition that holds s and t together: the known one of a pair ahead, or a new one.
fn made(
    alloc: Global,
    m: &Machine,
    known: &Principals,
    s: u16,
    t: u16,
) -> Result<Partition, AllocError>
    requires known { ArePrincipalsOf m.now known.now }
    requires s { s < length m.now.states }
    requires t { t < length m.now.states }
    ensures { IfOk result (IsPrincipal m.now s t) }
{
    match known_ahead(m, known, s, t) {
        Some(least) => least.copy(alloc),
        None => principal_beside(alloc, m, known, usize::from(s), usize::from(t)),
    }
}

/// Makes the least closed partition that holds s and t together, and keeps it as known.
fn make_known(
    alloc: Global,
    m: &Machine,
    known: &mut Principals,
    s: u16,
    t: u16,
) -> Result<Partition, AllocError>
    requires known { ArePrincipalsOf m.now known.old }
    requires s { s < length m.now.states }
    requires t { t < length m.now.states }
    ensures known { OnOk result (ArePrincipalsOf m.now known.new) }
    ensures principal { IfOk result (IsPrincipal m.now s t) }
{
    let p = made(alloc, m, known, s, t)?;
    known.add(alloc, s, t, &p)?;
    Ok(p)
}

/// Makes the least closed partitions of the pairs known, from the last one to the first.
fn learn_pairs(
    alloc: Global,
    m: &Machine,
    known: &mut Principals,
    pairs: Vec<(u16, u16)>,
) -> Result<(), AllocError>
    requires known { ArePrincipalsOf m.now known.old }
    requires states { AreStates (length m.now.states) pairs.items }
    ensures { OnOk result (ArePrincipalsOf m.now known.new) }
{
    let mut left = pairs;
    while let Some((u, v)) = left.pop() {
        if known.find(u, v).is_none() {
            make_known(alloc, m, known, u, v)?;
        }
    }
    Ok(())
}

/// The least closed partition that holds s and t together. It is kept as known, like those of the pairs ahead.
pub(crate) fn learn(
    alloc: Global,
    m: &Machine,
    known: &mut Principals,
    s: usize,
    t: usize,
) -> Result<Partition, AllocError>
    requires known { ArePrincipalsOf m.now known.old }
    requires s { s < length m.now.states }
    requires t { t < length m.now.states }
    ensures known { OnOk result (ArePrincipalsOf m.now known.new) }
    ensures principal { IfOk result (IsPrincipal m.now s t) }
{
    let (u, v) = (state_number(m, s), state_number(m, t));
    if let Some(least) = known.find(u, v) {
        return least.copy(alloc);
    }
    let pairs = pairs_ahead(alloc, m, known, u, v)?;
    learn_pairs(alloc, m, known, pairs)?;
    make_known(alloc, m, known, u, v)
}
