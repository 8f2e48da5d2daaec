//! Members that can be left out.

ghost use Rattle.std.specs.Prelude.{ℕ, ◌<◌, ◌↔◌, All, IfOk, IsTrue, OnOk, [], length};
ghost use Rattle.std.specs.List.{remove};
ghost use Rattle.parallel_split.specs.Choice.{AllMeetInZero, LeavesOut};
ghost use Rattle.partition.specs.Partition.{IsPartition, IsStateCount, Together};

use partition::Partition;
use std::alloc::{AllocError, Global};

/// The meet of a partition and all of a list.
fn meet_with_all(
    alloc: Global,
    start: Partition,
    list: &[Partition],
) -> Result<Partition, AllocError>
    requires lawful { IsPartition (length start) start }
    requires all { All (IsPartition (length start)) list.now }
    ensures lawful { IfOk result (IsPartition (length start)) }
    ensures together { IfOk result (λ meet. (s t : ℕ)
        → Together meet s t ↔ (Together start s t × All (λ p. Together p s t) list.now)) }
{
    let mut meet = start;
    for p in list {
        meet = meet.meet(alloc, p)?;
    }
    Ok(meet)
}

/// Whether the meet of all members but one is zero.
fn can_spare(alloc: Global, n: usize, list: &[Partition], place: usize) -> Result<bool, AllocError>
    requires count { IsStateCount n }
    requires place { place < length list.now }
    requires lawful { All (IsPartition n) list.now }
    ensures { IfOk result (λ spared. IsTrue spared ↔ AllMeetInZero n (remove list.now place)) }
{
    let one = Partition::one(alloc, n)?;
    let before = meet_with_all(alloc, one, &list[..place])?;
    let others = meet_with_all(alloc, before, &list[place + 1..])?;
    Ok(others.blocks() == n)
}

/// Leaves out, from first to last, each member without which the meet of those that remain is zero.
pub(crate) fn leave_out(
    alloc: Global,
    n: usize,
    list: &mut Vec<Partition>,
) -> Result<(), AllocError>
    requires count { IsStateCount n }
    requires lawful { All (IsPartition n) list.old.items }
    ensures { OnOk result (LeavesOut n [] list.old.items list.new.items) }
{
    let mut place = 0;
    while place < list.len() {
        if can_spare(alloc, n, list.as_slice(), place)? {
            list.remove(place);
        } else {
            place += 1;
        }
    }
    Ok(())
}
