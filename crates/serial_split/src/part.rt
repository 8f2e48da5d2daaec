//! A part of either split.

ghost use Rattle.std.specs.Prelude.{◌≡◌, ◌≤◌, IfOk};
ghost use Rattle.std.specs.List.{range_with_len};
ghost use Rattle.serial_split.specs.Inner.Chain.{part_after};

use partition::Partition;
use state_codes::{Part, PartNumbers};
use std::alloc::{AllocError, Global};

/// The part that is its own carrier and reads this many parts before it.
pub(crate) fn part_after(
    alloc: Global,
    partition: Partition,
    number: usize,
) -> Result<Part, AllocError>
    requires { number ≤ 256 }
    ensures { IfOk result (λ part. part ≡ part_after partition number) }
{
    let reads = numbers_below(alloc, number)?;
    Part::new(alloc, partition, reads)
}

/// The numbers of the parts before this one.
fn numbers_below(alloc: Global, number: usize) -> Result<PartNumbers, AllocError>
    requires { number ≤ 256 }
    ensures { IfOk result (λ numbers. numbers ≡ range_with_len 0 number) }
{
    let mut numbers = PartNumbers::new(alloc);
    for part in 0..number {
        numbers.push(part as u16)?;
    }
    Ok(numbers)
}
