//! The columns of next states of states with the same cubes.
//!
//! A column holds the next state that each of the states names at one place of its list. Of places with equal
//! columns one is kept, so that a question about next states is asked once for each different column.
ghost use Rattle.std.specs.Prelude.{ℕ, ◌≡◌, ◌<◌, ◌↔◌, All, Contains, IfOk, IsTrue, false, length, slice_index};
ghost use Rattle.state_rows.specs.Columns.{
  AreColumns,
  AreKept,
  ArePicked,
  HaveSameCubes,
  IsAtPlace,
  IsNamedByKept,
  IsLedBy,
  NameOne,
  RepresentColumns,
};
ghost use Rattle.state_rows.specs.Places.{ListRows, places_of};

use crate::places::list_of;
use hs_list::Items;
use kiss_file::KissRow;
use std::alloc::{AllocError, Global};

/// The next state that the row at a place of the list names, if it names one.
fn next_at(rows: &[KissRow], numbers: &[usize], place: usize) -> Option<u16>
    ensures { (row : KissRow) → IsAtPlace rows.now numbers.now place row → result ≡ row.to }
{
    let number = *numbers.get(place)?;
    rows.get(number)?.to
}

/// A hash of the column at a place.
fn column_number(rows: &[KissRow], places: &[Items<usize>], states: &[usize], place: usize) -> u64 {
    let mut number = 0u64;
    for s in states {
        let next = match places.get(*s) {
            Some(numbers) => next_at(rows, numbers.as_slice(), place),
            None => None,
        };
        let digit = match next {
            Some(t) => u64::from(t),
            None => 65536,
        };
        number = number
            .wrapping_add(digit)
            .wrapping_mul(0x9E37_79B9_7F4A_7C15);
        number ^= number >> 29;
    }
    number
}

/// Whether each of the states names the same next state at both places.
fn are_equal_columns(
    rows: &[KissRow],
    places: &[Items<usize>],
    states: &[usize],
    first: usize,
    second: usize,
) -> bool
    requires { All (λ s. s < length places.now) states.now }
    ensures { IsTrue result → (s : ℕ) → Contains states.now s → NameOne rows.now (places_of places.now s) first second }
{
    for s in states {
        let numbers = list_of(places, *s);
        if next_at(rows, numbers, first) != next_at(rows, numbers, second) {
            return false;
        }
    }
    true
}

/// The numbers below the count.
fn numbers_below(alloc: Global, count: usize) -> Result<Vec<usize>, AllocError>
    ensures { IfOk result (λ numbers. (k : ℕ) → Contains numbers.items k ↔ (k < count)) }
{
    let mut numbers = Vec::with_capacity(alloc, count)?;
    for k in 0..count {
        numbers.push(k)?;
    }
    Ok(numbers)
}

/// The places below the count, ordered so that equal columns are neighbours.
fn by_columns(
    alloc: Global,
    rows: &[KissRow],
    places: &[Items<usize>],
    states: &[usize],
    count: usize,
) -> Result<Vec<usize>, AllocError>
    ensures { IfOk result (λ order. (k : ℕ) → Contains order.items k ↔ (k < count)) }
{
    let mut order = numbers_below(alloc, count)?;
    order.sort_unstable_by_key(|place| column_number(rows, places, states, *place));
    Ok(order)
}

/// Whether the column at the place differs from the column at the last place that was kept.
fn is_new_column(
    rows: &[KissRow],
    places: &[Items<usize>],
    states: &[usize],
    kept: &[usize],
    place: usize,
) -> bool
    requires { All (λ s. s < length places.now) states.now }
    ensures { (result ≡ false) → IsNamedByKept rows.now places.now states.now kept.now place }
{
    match kept.last() {
        Some(last) => !are_equal_columns(rows, places, states, place, *last),
        None => true,
    }
}

/// At least one of the places below the count for each different column.
fn kept_places(
    alloc: Global,
    rows: &[KissRow],
    places: &[Items<usize>],
    states: &[usize],
    count: usize,
) -> Result<Vec<usize>, AllocError>
    requires { All (λ s. s < length places.now) states.now }
    ensures { IfOk result (λ kept. RepresentColumns rows.now places.now (Contains states.now) count kept.items) }
{
    let order = by_columns(alloc, rows, places, states, count)?;
    let kept = kept_among(alloc, rows, places, states, &order)?;
    Ok(kept)
}

/// At least one of these places for each different column; equal columns may be kept if they are not neighbours.
fn kept_among(
    alloc: Global,
    rows: &[KissRow],
    places: &[Items<usize>],
    states: &[usize],
    order: &[usize],
) -> Result<Vec<usize>, AllocError>
    requires { All (λ s. s < length places.now) states.now }
    ensures within { IfOk result (λ kept. (j : ℕ) → Contains kept.items j → Contains order.now j) }
    ensures each { IfOk result
        (λ kept. (k : ℕ) → Contains order.now k → IsNamedByKept rows.now places.now states.now kept.items k) }
{
    let mut kept = Vec::new(alloc);
    for place in order {
        if is_new_column(rows, places, states, &kept, *place) {
            kept.push(*place)?;
        }
    }
    Ok(kept)
}

/// The states with that leader.
fn states_of(alloc: Global, leaders: &[usize], leader: usize) -> Result<Vec<usize>, AllocError>
    ensures { IfOk result (λ states. (s : ℕ) → Contains states.items s ↔ IsLedBy leaders.now leader s) }
{
    let mut states = Vec::new(alloc);
    for (s, other) in leaders.iter().enumerate() {
        if *other == leader {
            states.push(s)?;
        }
    }
    Ok(states)
}

/// For each leader, at least one place for each different column of the states that it leads.
fn kept_of_leaders(
    alloc: Global,
    rows: &[KissRow],
    places: &[Items<usize>],
    leaders: &[usize],
) -> Result<Vec<Items<usize>>, AllocError>
    requires size { length leaders.now ≡ length places.now }
    ensures { IfOk result (λ kept. AreKept rows.now places.now leaders.now (length places.now) kept.items) }
{
    let mut kept = Vec::with_capacity(alloc, places.len())?;
    for leader in 0..places.len() {
        let states = states_of(alloc, leaders, leader)?;
        let count = list_of(places, leader).len();
        kept.push(Items::from(kept_places(alloc, rows, places, &states, count)?))?;
    }
    Ok(kept)
}

/// The numbers at the places.
fn picked(alloc: Global, numbers: &[usize], kept: &[usize]) -> Result<Vec<usize>, AllocError>
    requires { All (λ k. k < length numbers.now) kept.now }
    ensures { IfOk result (λ picked. ArePicked numbers.now kept.now picked.items) }
{
    let mut picked = Vec::with_capacity(alloc, kept.len())?;
    for place in kept {
        picked.push(numbers[*place])?;
    }
    Ok(picked)
}

/// For each state, the numbers of its rows at the places that were kept for its leader.
pub fn columns_of_states(
    alloc: Global,
    rows: &[KissRow],
    places: &[Items<usize>],
    leaders: &[usize],
) -> Result<Vec<Items<usize>>, AllocError>
    requires rows { ListRows rows.now (length places.now) places.now }
    requires size { length leaders.now ≡ length places.now }
    requires inside { All (λ leader. leader < length places.now) leaders.now }
    requires alike { (s : ℕ) → s < length places.now
        → HaveSameCubes rows.now (places_of places.now (slice_index leaders.now s)) (places_of places.now s) }
    ensures { IfOk result (λ columns. AreColumns rows.now places.now leaders.now columns.items) }
{
    let kept = kept_of_leaders(alloc, rows, places, leaders)?;
    let mut columns = Vec::with_capacity(alloc, places.len())?;
    for (s, leader) in leaders.iter().enumerate() {
        let numbers = list_of(places, s);
        columns.push(Items::from(picked(alloc, numbers, list_of(&kept, *leader))?))?;
    }
    Ok(columns)
}
