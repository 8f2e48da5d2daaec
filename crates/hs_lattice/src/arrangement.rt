//! Items moved into a given order.

ghost use Rattle.std.specs.Prelude.{◌≡◌, ◌≢◌, ◌<◌, ℕ, All, AllPairs, IfOk, OnOk, length, slice_index};
ghost use Rattle.hs_lattice.specs.Inner.Arrangement.{AreNumbers, IsArranged};

use std::alloc::{AllocError, Global};

/// The numbers from 0 on, `count` of them.
fn numbers(alloc: Global, count: usize) -> Result<Vec<usize>, AllocError>
    ensures { IfOk result (λ numbers. AreNumbers count numbers.items) }
{
    let mut numbers = Vec::with_capacity(alloc, count)?;
    for number in 0..count {
        numbers.push(number)?;
    }
    Ok(numbers)
}

/// Puts at each place the item whose old place the order gives. Each step moves one item to its final place.
///
/// Items are named by their old places. For the items that are not yet at their final places, `standing` gives
/// the item at a place, and `places` the place of an item.
pub fn arrange<T>(alloc: Global, items: &mut [T], order: &[usize]) -> Result<(), AllocError>
    requires count { length order.now ≡ length items.old }
    requires within { All (λ i. i < length items.old) order.now }
    requires once { AllPairs (λ i j. i ≢ j) order.now }
    ensures { OnOk result (IsArranged items.old order.now (length order.now) items.new) }
{
    let mut standing = numbers(alloc, items.len())?;
    let mut places = numbers(alloc, items.len())?;
    for i in 0..order.len() {
        let item = order[i];
        let from = places[item];
        let other = standing[i];
        items.swap(i, from);
        standing[from] = other;
        places[other] = from;
    }
    Ok(())
}
