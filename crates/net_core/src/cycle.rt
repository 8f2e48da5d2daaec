//! The cycle at the end of a path.

ghost use Rattle.std.specs.Prelude.{◌≡◌, ◌<◌, Contains, IfOk, length, nat_lt, slice_index};
ghost use Rattle.std.specs.List.{IsFirstBest};
ghost use Rattle.net_core.specs.Inner.Cycle.{IsTurned};

use std::alloc::{AllocError, Global};

/// The path from the gate `next` on, rotated so that the least place comes first.
pub(crate) fn cycle_of(alloc: Global, path: &[usize], next: usize) -> Result<Vec<usize>, AllocError>
    requires { Contains path.now next }
    ensures { IfOk result (λ cycle. IsTurned path.now next cycle.items) }
{
    let from = place_of(path, next);
    let cycle = &path[from..];
    let least = place_of_least(cycle);
    let mut turned = Vec::from_slice(alloc, &cycle[least..])?;
    turned.extend_from_slice(&cycle[..least])?;
    Ok(turned)
}

/// The index of a gate on the path.
fn place_of(path: &[usize], gate: usize) -> usize
    requires { Contains path.now gate }
    ensures within { result < length path.now }
    ensures is { slice_index path.now result ≡ gate }
{
    for (i, other) in path.iter().enumerate() {
        if *other == gate {
            return i;
        }
    }
    unreachable!()
}

/// The first place of the least number.
fn place_of_least(numbers: &[usize]) -> usize
    requires { 0 < length numbers.now }
    ensures { IsFirstBest nat_lt numbers.now (length numbers.now) result }
{
    let mut least = 0;
    for i in 1..numbers.len() {
        if numbers[i] < numbers[least] {
            least = i;
        }
    }
    least
}
