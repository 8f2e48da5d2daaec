//! Classes of states whose rows have the same cubes.
ghost use Rattle.std.specs.Prelude.{ℕ, ◌≡◌, ◌<◌, All, IfOk, IsTrue, Some, length, slice_get, slice_index};
ghost use Rattle.state_rows.specs.Columns.{HaveOneCube, HaveSameCubes};
ghost use Rattle.kiss_file.specs.declared.file.KissRow.{KissRow};
ghost use Rattle.state_rows.specs.Places.{places_of};

use crate::places::list_of;
use hs_list::Items;
use kiss_file::KissRow;
use std::alloc::{AllocError, Global};

/// Whether the rows with these numbers have the same cube.
fn have_one_cube(rows: &[KissRow], first: usize, second: usize) -> bool
    ensures { IsTrue result → (row other : KissRow) → slice_get rows.now first ≡ Some row
        → slice_get rows.now second ≡ Some other → HaveOneCube row other }
{
    match (rows.get(first), rows.get(second)) {
        (Some(row), Some(other)) => {
            row.cube.care == other.cube.care && row.cube.value == other.cube.value
        }
        _ => false,
    }
}

/// Whether at each place of the lists the rows have the same cube.
fn have_same_cubes(rows: &[KissRow], first: &[usize], second: &[usize]) -> bool
    ensures { IsTrue result → HaveSameCubes rows.now first.now second.now }
{
    if first.len() != second.len() {
        return false;
    }
    for i in 0..first.len() {
        if !have_one_cube(rows, first[i], second[i]) {
            return false;
        }
    }
    true
}

/// The first state whose rows have the same cubes as the rows of the state.
fn leader_of(rows: &[KissRow], places: &[Items<usize>], s: usize) -> usize
    requires state { s < length places.now }
    ensures state { result < length places.now }
    ensures cubes { HaveSameCubes rows.now (places_of places.now result) (places_of places.now s) }
{
    for t in 0..s {
        if have_same_cubes(rows, list_of(places, t), list_of(places, s)) {
            return t;
        }
    }
    s
}

/// For each state, the first state whose rows have the same cubes.
pub fn leaders_of_states(
    alloc: Global,
    rows: &[KissRow],
    places: &[Items<usize>],
) -> Result<Vec<usize>, AllocError>
    ensures size { IfOk result (λ leaders. length leaders.items ≡ length places.now) }
    ensures inside { IfOk result (λ leaders. All (λ leader. leader < length places.now) leaders.items) }
    ensures cubes { IfOk result
        (λ leaders. (s : ℕ) → s < length places.now
        → HaveSameCubes rows.now (places_of places.now (slice_index leaders.items s)) (places_of places.now s)) }
{
    let mut leaders = Vec::with_capacity(alloc, places.len())?;
    for s in 0..places.len() {
        leaders.push(leader_of(rows, places, s))?;
    }
    Ok(leaders)
}
