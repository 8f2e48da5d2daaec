//! Greatest closed partitions that have two states in two blocks, until their meet is zero.

ghost use Rattle.std.specs.Prelude.{ℕ, ◌<◌, IfNone, IfOk, IfSome, List, length};
ghost use Rattle.parallel_split.specs.Choice.{IsFirstHeld};
ghost use Rattle.parallel_split.specs.Inner.Members.{AreMembers};
ghost use Rattle.parallel_split.specs.Kind.{HasNoneInParallel};
ghost use Rattle.partition.specs.Partition.{IsZero, Together};

use crate::ordering::put_in_order;
use closed_lattice::Principals;
use machine_table::Machine;
use partition::Partition;
use std::alloc::{AllocError, Global};

/// The least state above s that is together with it.
fn first_partner(p: &Partition, s: usize) -> Option<usize>
    requires { s < length p.now }
    ensures some { IfSome result (λ t. (s < t) × Together p.now s t) }
    ensures least { IfSome result (λ t. (v : ℕ) → s < v → v < t → Together p.now s v → ⊥) }
    ensures none { IfNone result ((v : ℕ) → s < v → Together p.now s v → ⊥) }
{
    let n = p.len();
    for t in s + 1..n {
        if p.same(s, t) {
            return Some(t);
        }
    }
    None
}

/// The first two states that are together, by the smaller one and then by the other.
fn first_held(p: &Partition) -> Option<(usize, usize)>
    ensures some { IfSome result (λ pair. IsFirstHeld p.now pair.0 pair.1) }
    ensures none { IfNone result (IsZero p.now) }
{
    for s in 0..p.len() {
        if let Some(t) = first_partner(p, s) {
            return Some((s, t));
        }
    }
    None
}

/// For the first two states that are together in the meet so far, a greatest closed partition that has them in two
/// blocks, and so on until the meet is zero. In ascending order. None where one of these partitions is zero.
pub(crate) fn members(alloc: Global, m: &Machine) -> Result<Option<Vec<Partition>>, AllocError>
    ensures some { IfOk result
        (λ found. IfSome found (λ list. (zero : List ℕ) × IsZero zero × AreMembers m.now zero list.items)) }
    ensures none { IfOk result (λ found. IfNone found (HasNoneInParallel m.now)) }
{
    let n = m.states();
    let mut common = Partition::one(alloc, n)?;
    let mut found = Vec::new(alloc);
    let mut kept = Principals::new(alloc)?;
    while let Some((s, t)) = first_held(&common) {
        let member = kept.separating(alloc, m, s, t)?;
        if member.blocks() == n {
            return Ok(None);
        }
        common = common.meet(alloc, &member)?;
        put_in_order(&mut found, member)?;
    }
    Ok(Some(found))
}
