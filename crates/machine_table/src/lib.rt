//! The machine of a KISS2 file, kept as its rows.
//!
//! A [`Machine`] is built from a file whose rows do not contradict one another and, with `Fill::Refuse`,
//! leave nothing open. Contracts see it as that file, so every question it answers is about the next states
//! and outputs that `kiss_file/specs/Machine` defines. There is no table indexed by symbols: answers come from
//! the rows of the states in question. `state_rows` arranges the rows of each state, and `state_pairs` compares
//! those of two states, asking only rows that share a symbol.
//!
//! `specs/Table` says which files have a machine, `specs/Conflict` which two rows a refusal names,
//! `specs/OpenEntries` which open entry it names, and `specs/Cause` when each refusal occurs. `specs/NextStates` says
//! that a machine never leaves its states, `specs/Pairs` what is
//! asked of two states at all symbols, `specs/Pieces` what the images and pieces list and what filled rows
//! say, and `specs/MergedStates` what becomes of a partition in which the next states of two states are merged. The
//! definitions of `Table`, `NextStates`, `Pairs` and `MergedStates` are those of `state_pairs`. `specs/Worked` has a
//! small file, and [`worked_file`] says what these definitions make of it.
#![tactic(auto)]

mod builder;
mod images;
mod laws;
mod machine;
mod open_entry;
mod open_part;
mod pairs;
mod part_trees;
mod pieces;
mod row_tree;
mod walk;

pub use builder::BuildFail;
pub use kiss_file::Fill;
pub use laws::{lawful_is_a_table, worked_file};
pub use machine::Machine;
pub use open_entry::{all_outputs, says};
pub use open_part::Missing;
pub use pieces::Piece;
