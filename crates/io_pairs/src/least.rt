//! The least partition of values that a partition of members makes a pair with.

ghost use Rattle.std.specs.Prelude.{◌≡◌, ◌<◌, IfOk, length};
ghost use Rattle.io_pairs.specs.Inner.Families.{FamilyPair, IsFamily, Ties, functions_of};
ghost use Rattle.partition.specs.Partners.{IsLeastWith};
ghost use Rattle.partition.specs.Partition.{IsPartition};

use crate::family::Family;
use partition::Partition;
use std::alloc::{AllocError, Global};

/// Merges the values of two members under each function, and nothing else.
pub(crate) fn tie(family: &Family, x: usize, y: usize, q: &mut Partition)
    requires family { IsFamily family.now }
    requires x { x < family.now.members }
    requires y { y < family.now.members }
    requires values { IsPartition family.now.values q.old }
    ensures { Ties (functions_of family.now) x y q.old q.new }
{
    for k in 0..family.functions.len() {
        let function = family.functions[k].as_slice();
        q.merge(usize::from(function[x]), usize::from(function[y]));
    }
}

/// The least partition of the values that p makes a pair with: the value of each member is merged with that of
/// the first member of its block, under each function.
pub(crate) fn least_partner(
    alloc: Global,
    family: &Family,
    p: &Partition,
) -> Result<Partition, AllocError>
    requires family { IsFamily family.now }
    requires members { length p.now ≡ family.now.members }
    ensures { IfOk result (IsLeastWith family.now.values (FamilyPair (functions_of family.now) p.now)) }
{
    let mut q = Partition::zero(alloc, family.values)?;
    for y in 0..family.members {
        let first = p.least_of(y);
        tie(family, first, y, &mut q);
    }
    Ok(q)
}
