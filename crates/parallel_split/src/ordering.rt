//! Partitions in their order.

ghost use Rattle.std.specs.Prelude.{◌≡◌, All, AllPairs, OnOk, length};
ghost use Rattle.hs_lattice.specs.Places.{IsInsertionPlace};
ghost use Rattle.parallel_split.specs.Inner.Members.{PutsInOrder};
ghost use Rattle.partition.specs.Order.{Before};
ghost use Rattle.partition.specs.Partition.{IsPartition};

use partition::Partition;
use std::alloc::AllocError;

/// Where a partition belongs in an ascending list of others.
fn place_for(found: &[Partition], p: &Partition) -> usize
    requires lawful { IsPartition (length p.now) p.now }
    requires found { All (IsPartition (length p.now)) found.now }
    requires ascending { AllPairs Before found.now }
    requires new { All (λ q. q ≡ p.now → ⊥) found.now }
    ensures { IsInsertionPlace Before found.now p.now result }
{
    for (place, q) in found.iter().enumerate() {
        if p.before(q) {
            return place;
        }
    }
    found.len()
}

/// Puts a partition into its place in an ascending list of others.
pub(crate) fn put_in_order(found: &mut Vec<Partition>, p: Partition) -> Result<(), AllocError>
    requires lawful { IsPartition (length p) p }
    requires found { All (IsPartition (length p)) found.old.items }
    requires ascending { AllPairs Before found.old.items }
    requires new { All (λ q. q ≡ p → ⊥) found.old.items }
    ensures { OnOk result (PutsInOrder found.old.items p found.new.items) }
{
    let place = place_for(found.as_slice(), &p);
    found.insert(place, p)?;
    Ok(())
}
