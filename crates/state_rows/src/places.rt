//! The numbers of the rows of each state.
ghost use Rattle.std.specs.Prelude.{◌<◌, All, IfOk, [], length, replicate, ◌≡◌};
ghost use Rattle.state_rows.specs.Places.{ArePlaces, places_of};

use hs_list::Items;
use kiss_file::KissRow;
use std::alloc::{AllocError, Global};

/// The list of a state.
pub fn list_of(lists: &[Items<usize>], s: usize) -> &[usize]
    requires { s < length lists.now }
    ensures { result.now ≡ places_of lists.now s }
{
    lists[s].as_slice()
}

/// For each state, the numbers of its rows in ascending order.
pub fn places_of_states(
    alloc: Global,
    rows: &[KissRow],
    states: usize,
) -> Result<Vec<Items<usize>>, AllocError>
    requires { All (λ row. row.from < states) rows.now }
    ensures { IfOk result (λ places. ArePlaces rows.now states (length rows.now) places.items) }
{
    let mut places = no_places(alloc, states)?;
    for (number, row) in rows.iter().enumerate() {
        places[usize::from(row.from)].push(number)?;
    }
    Ok(places)
}

/// An empty list for each state.
fn no_places(alloc: Global, states: usize) -> Result<Vec<Items<usize>>, AllocError>
    ensures { IfOk result (λ places. places.items ≡ replicate states []) }
{
    let mut places = Vec::with_capacity(alloc, states)?;
    for i in 0..states {
        places.push(Items::new(alloc))?;
    }
    Ok(places)
}
