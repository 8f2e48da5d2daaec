//! Two states of a KISS2 file compared at all symbols, by their rows.
//!
//! [`RowsByState`] keeps the rows of a file without conflicts, as `state_rows` arranges them. A [`Question`] asks for
//! one part of what rows give. A [`Search`] finds a symbol at which the answers of two states differ, or one at which both
//! leave the part open. The pairs of next states that the rows of two states name are listed, or merged in a partition.
//! Symbols are never enumerated: only rows that share a symbol are compared, and what rows leave open is found by
//! halving cubes.
//!
//! `specs/Table` says which files these are, `specs/RowLabels` what the rows of two states say of a part,
//! `specs/AlignedRows` and `specs/MarkedRows` which rows a search goes through, `specs/AddedPairs` which pairs rows
//! name, and `specs/MergedStates` what becomes of a partition. `specs/Pairs` and `specs/NextStates` speak of next
//! states at all symbols.
#![tactic(auto)]

mod aligned_rows;
mod merged_states;
mod named_pairs;
mod open_parts;
mod pair_list;
mod placed_outputs;
mod question;
mod row_pairs;
mod rows;
mod search;

pub use aligned_rows::AlignedRows;
pub use pair_list::PairList;
pub use question::{NextState, OutputBit, OutputWord, Question, WordBits, given};
pub use row_pairs::{is_settled, least_of_both, lesser};
pub use rows::RowsByState;
pub use search::Search;
