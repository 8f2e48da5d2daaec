//! The rows of each state of a KISS2 file, arranged for questions about states and symbols.
//!
//! All calls take the rows of a file as a slice. The number of a row is its place in that slice.
//! `places_of_states` lists the numbers of the rows of each state, as the file has them, and `places_by_cubes` orders
//! each list by the cubes, so that states with the same cubes have them at the same places. `leaders_of_states` tells
//! which states these are, and `columns_of_states` keeps one place for each different column of their next states.
//! `bundles_of_states` puts the rows of each state into bundles of 64, which mark all rows that share a symbol with a
//! cube in one step. `first_conflict` finds with them the first two rows that contradict one another.
//!
//! `specs/Places` says which lists of numbers are those of the states, `specs/Columns` what leaders and columns are,
//! `specs/Bundles` what a bundle holds and marks, `specs/Conflict` which two rows are the first that contradict one
//! another, `specs/Least` what a search for the least number has found, and `specs/Worked` three rows to try this on.
//! [`worked_conflict`] is a law: which two of these rows contradict one another.
#![tactic(auto)]

mod bundles;
mod classes;
mod columns;
mod contradiction;
mod laws;
mod order;
mod places;

pub use bundles::{RowBundle, bundles_of_states};
pub use classes::leaders_of_states;
pub use columns::columns_of_states;
pub use contradiction::first_conflict;
pub use laws::worked_conflict;
pub use order::places_by_cubes;
pub use places::{list_of, places_of_states};
