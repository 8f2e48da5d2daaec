//! All partitions that are closed and consistent, in order.
//!
//! States that are together in such a partition are alike, and the partition of alike states is closed and
//! consistent itself. So a closed partition is consistent exactly where it is below that partition. Joins of
//! closed and consistent partitions are closed and consistent. Each such partition is the join of the least
//! closed partitions of the pairs of states that it holds together. So the joins of the least closed partitions
//! of pairs of alike states are all of them.

ghost use Rattle.std.specs.Prelude.{ℕ, ◌≤◌, IfOk, List, length};
ghost use Rattle.hs_lattice.specs.Listing.{Evidence, IfMore, IfWhole, Lists};
ghost use Rattle.partition.specs.Order.{Before};
ghost use Rattle.output_consistent.specs.Outputs.{IsClosedAndConsistent};

use closed_lattice::principals_within;
use hs_lattice::{Listing, join_closure};
use machine_table::Machine;
use partition::{PartWorld, Partition};
use state_reduce::equivalence;
use std::alloc::{AllocError, Global};

/// The partitions that are closed and consistent, in ascending order, or limit + 1 of them if there are more
/// than the limit.
///
/// Which partitions are the evidence is left open.
pub fn all(alloc: Global, m: &Machine, limit: usize) -> Result<Listing<Partition>, AllocError>
    requires positive { 1 ≤ limit }
    requires bounded { limit ≤ 10000 }
    ensures whole { IfOk result (λ listing. IfWhole listing (Lists Before (IsClosedAndConsistent m.now))) }
    ensures within { IfOk result (λ listing. IfWhole listing (λ items. length items ≤ limit)) }
    ensures no_more { IfOk result (λ listing. IfWhole listing (λ _. (partitions : List (List ℕ))
        → Evidence Before (IsClosedAndConsistent m.now) limit partitions → ⊥)) }
    ensures more { IfOk result (λ listing. IfMore listing
        (Evidence Before (IsClosedAndConsistent m.now) limit)) }
{
    let world = PartWorld { n: m.states() };
    let alike = equivalence(alloc, m)?;
    let found = principals_within(alloc, m, &alike, limit)?;
    join_closure(alloc, &world, found.as_slice(), limit)
}
