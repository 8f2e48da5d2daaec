//! The least closed partitions of the pairs of states that a partition holds together.

ghost use Rattle.std.specs.Prelude.{◌≡◌, ◌+◌, ◌<◌, ◌≤◌, ℕ, All, AllPairs, IfOk, OnOk, length};
ghost use Rattle.closed_lattice.specs.ClosedPartitions.{HasPrincipal, IsPrincipalWithin};
ghost use Rattle.closed_lattice.specs.Inner.Generators.{HavePrincipals};
ghost use Rattle.closed_lattice.specs.KnownPrincipals.{ArePrincipalsOf};
ghost use Rattle.hs_lattice.specs.Collection.{IsCollection, items_in};
ghost use Rattle.partition.specs.Order.{Before};
ghost use Rattle.partition.specs.Partition.{IsPartition, Together};

use crate::closure::learn;
use crate::known_principals::Principals;
use hs_lattice::Collection;
use machine_table::Machine;
use partition::{PartWorld, Partition};
use std::alloc::{AllocError, Global};

/// Adds the least closed partitions of the state and each smaller state that is together with it in top.
fn add_principals(
    alloc: Global,
    m: &Machine,
    top: &Partition,
    t: usize,
    known: &mut Principals,
    found: &mut Collection<Partition>,
) -> Result<(), AllocError>
    requires states { length top.now ≡ length m.now.states }
    requires t { t < length m.now.states }
    requires known { ArePrincipalsOf m.now known.old }
    requires collection { IsCollection (λ p. p) (IsPartition (length m.now.states)) Before found.old }
    requires found { All (IsPrincipalWithin m.now top.now) (items_in found.old) }
    requires before { HavePrincipals m.now top.now t (items_in found.old) }
    ensures known { OnOk result (ArePrincipalsOf m.now known.new) }
    ensures collection { OnOk result (IsCollection (λ p. p) (IsPartition (length m.now.states)) Before found.new) }
    ensures found { OnOk result (All (IsPrincipalWithin m.now top.now) (items_in found.new)) }
    ensures each { OnOk result (HavePrincipals m.now top.now (t + 1) (items_in found.new)) }
{
    let world = PartWorld { n: m.states() };
    for s in 0..t {
        if top.same(s, t) {
            let p = learn(alloc, m, known, s, t)?;
            found.add(&world, p)?;
        }
    }
    Ok(())
}

/// Adds the least closed partitions of the pairs of states that are together in top, or more of them than the limit.
fn collect(
    alloc: Global,
    m: &Machine,
    top: &Partition,
    limit: usize,
    known: &mut Principals,
    found: &mut Collection<Partition>,
) -> Result<(), AllocError>
    requires states { length top.now ≡ length m.now.states }
    requires known { ArePrincipalsOf m.now known.old }
    requires collection { IsCollection (λ p. p) (IsPartition (length m.now.states)) Before found.old }
    requires found { All (IsPrincipalWithin m.now top.now) (items_in found.old) }
    ensures collection { OnOk result (IsCollection (λ p. p) (IsPartition (length m.now.states)) Before found.new) }
    ensures found { OnOk result (All (IsPrincipalWithin m.now top.now) (items_in found.new)) }
    ensures each { OnOk result (length (items_in found.new) ≤ limit
        → HavePrincipals m.now top.now (length m.now.states) (items_in found.new)) }
{
    for t in 0..m.states() {
        add_principals(alloc, m, top, t, known, found)?;
        if found.len() > limit {
            return Ok(());
        }
    }
    Ok(())
}

/// The least closed partitions of the pairs of states that are together in top, or more of them than the limit.
fn collected(
    alloc: Global,
    m: &Machine,
    top: &Partition,
    limit: usize,
) -> Result<Collection<Partition>, AllocError>
    requires { length top.now ≡ length m.now.states }
    ensures collection { IfOk result (IsCollection (λ p. p) (IsPartition (length m.now.states)) Before) }
    ensures members { IfOk result (λ found. All (IsPrincipalWithin m.now top.now) (items_in found)) }
    ensures each { IfOk result (λ found. length (items_in found) ≤ limit
        → HavePrincipals m.now top.now (length m.now.states) (items_in found)) }
{
    let mut known = Principals::new(alloc)?;
    let mut found = Collection::new(alloc);
    collect(alloc, m, top, limit, &mut known, &mut found)?;
    Ok(found)
}

/// The least closed partitions of the pairs of states that are together in top, each once, in ascending order,
/// or more of them than the limit.
///
/// Where there are more than the limit, any limit + 1 of them may be given.
pub fn principals_within(
    alloc: Global,
    m: &Machine,
    top: &Partition,
    limit: usize,
) -> Result<Vec<Partition>, AllocError>
    requires { length top.now ≡ length m.now.states }
    ensures ascending { IfOk result (λ found. AllPairs Before found.items) }
    ensures members { IfOk result (λ found. All (IsPrincipalWithin m.now top.now) found.items) }
    ensures each { IfOk result (λ found. length found.items ≤ limit → (s t : ℕ) → s < t → Together top.now s t
        → HasPrincipal m.now found.items s t) }
{
    let world = PartWorld { n: m.states() };
    let found = collected(alloc, m, top, limit)?;
    Ok(found.ascending(alloc, &world)?.into_vec())
}
