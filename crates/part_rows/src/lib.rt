//! The rows of the machine of a part, and of the machine of the outputs.
//!
//! A part of a split is a machine whose states are the blocks of the part. Its rows come cell by cell, in the order
//! of the least states of the cells. [`rows_of_part`] goes over the cells that `part_machines` lists. A cell is given
//! the filled rows of its least state. For a part those are left out that name no next state, and for the outputs
//! those that give none. Each row is narrowed to the inputs that the part reads, and the field of its cell follows.
//! Rows that are then equal are kept once.
//!
//! What the rows have to be is said by `ArePartRows` in `part_machines/specs/PartRows`. `specs/Inner` has what the
//! steps on the way promise.
#![tactic(auto)]

mod distinct;
mod narrowed;
mod part_row;
mod rows;
mod shown;

pub use rows::rows_of_part;
