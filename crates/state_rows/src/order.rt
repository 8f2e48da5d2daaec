//! The order in which a machine keeps the rows of a state: by their cubes, and then by the outputs that they give.
//!
//! States whose rows have the same cubes then have equal cubes at equal places, whatever the order in the file. If rows
//! with one cube share the outputs among them, those that give the same outputs are at equal places too.
ghost use Rattle.std.specs.Prelude.{ℕ, ◌↔◌, Contains, IfOk, length};
ghost use Rattle.state_rows.specs.Places.{ArePlaces, ListRows};

use hs_list::Items;
use kiss_file::KissRow;
use std::alloc::{AllocError, Global};

/// The value and the care of the cube of the row with that number, and which outputs it gives.
fn cube_key(rows: &[KissRow], number: usize) -> Option<(u32, u32, u64)> {
    let row = rows.get(number)?;
    Some((row.cube.value, row.cube.care, row.care))
}

/// The numbers in the order of the cubes of their rows.
fn by_cubes(alloc: Global, rows: &[KissRow], numbers: &[usize]) -> Result<Vec<usize>, AllocError>
    ensures { IfOk result (λ ordered. (i : ℕ) → Contains ordered.items i ↔ Contains numbers.now i) }
{
    let mut ordered = numbers.to_vec(alloc)?;
    ordered.sort_unstable_by_key(|number| cube_key(rows, *number));
    Ok(ordered)
}

/// For each state, the numbers of its rows in the order of their cubes.
pub fn places_by_cubes(
    alloc: Global,
    rows: &[KissRow],
    places: &[Items<usize>],
) -> Result<Vec<Items<usize>>, AllocError>
    requires { ArePlaces rows.now (length places.now) (length rows.now) places.now }
    ensures { IfOk result (λ ordered. ListRows rows.now (length places.now) ordered.items) }
{
    let mut ordered = Vec::with_capacity(alloc, places.len())?;
    for list in places {
        let numbers = by_cubes(alloc, rows, list.as_slice())?;
        ordered.push(Items::from(numbers))?;
    }
    Ok(ordered)
}
