//! Carriers that are as great as possible.
//!
//! A carrier c suffices for a part exactly where the meet of the two makes a pair with the part, that is, where
//! the meet is below M of the part. Where a carrier suffices, each smaller one does too. So two blocks that
//! could not be put together once cannot be put together later, and one pass over the pairs of states is
//! enough.

ghost use Rattle.std.specs.Prelude.{ℕ, ◌≡◌, ◌<◌, IfOk, length};
ghost use Rattle.feedback_split.specs.Carrier.{IsCarrierGrowth, IsGreatestCarrier, Suffices};
ghost use Rattle.pair_operators.specs.Extremes.{IsHigh};
ghost use Rattle.pair_operators.specs.Growth.{GrowsOver, pairs_from};
ghost use Rattle.partition.specs.Partition.{IsHold, IsPartition, Together};

use machine_table::Machine;
use pair_operators::high;
use partition::Partition;
use std::alloc::{AllocError, Global};

/// The growth over the pairs of one state and a greater one, where `going` is M(own).
fn grow_from(
    alloc: Global,
    m: &Machine,
    own: &Partition,
    going: &Partition,
    start: Partition,
    s: usize,
) -> Result<Partition, AllocError>
    requires own { length own.now ≡ length m.now.states }
    requires going { IsHigh m.now own.now going.now }
    requires lawful { IsPartition (length m.now.states) start }
    requires state { s < length m.now.states }
    ensures lawful { IfOk result (IsPartition (length m.now.states)) }
    ensures grown { IfOk result (GrowsOver (IsHold (length m.now.states)) (Suffices m.now own.now) start
        (pairs_from (length m.now.states) s)) }
{
    let n = m.states();
    let mut grown = start;
    for t in s + 1..n {
        let hold = Partition::hold(alloc, n, s, t)?;
        let joined = grown.join(alloc, &hold)?;
        let meet = own.meet(alloc, &joined)?;
        if meet.le(going) {
            grown = joined;
        }
    }
    Ok(grown)
}

/// The growth of the part `other`, as far as it suffices for the part `own`. The two parts meet in zero.
pub fn carrier(
    alloc: Global,
    m: &Machine,
    own: &Partition,
    other: &Partition,
) -> Result<Partition, AllocError>
    requires own { length own.now ≡ length m.now.states }
    requires other { length other.now ≡ length m.now.states }
    requires in_zero { (s t : ℕ) → Together own.now s t → Together other.now s t → s ≡ t }
    ensures growth { IfOk result (IsCarrierGrowth m.now own.now other.now) }
    ensures greatest { IfOk result (IsGreatestCarrier m.now own.now other.now) }
{
    let going = high(alloc, m, own)?;
    let mut carrier = other.copy(alloc)?;
    for s in 0..m.states() {
        carrier = grow_from(alloc, m, own, &going, carrier, s)?;
    }
    Ok(carrier)
}
