//! What a KISS2 text says: the record of a machine, and the machine of such a record.
//!
//! A [`KissFile`] has the numbers of inputs and outputs, the names of the states, the rows, the reset state, and the
//! names of inputs and outputs if the text gives them. `kiss2` reads it from a text and writes its text. States without
//! names of their own are named by [`numbered_names`]: s0, s1, s2 and so on.
//!
//! `specs/Names` says which names a state may have, `specs/NumberedNames` what the names of numbers are, and
//! `specs/LawfulFile` which records a text can have. `specs/Machine` is the machine of a file: its next states and
//! outputs, its answers to words, and which files have one. The functions of `laws` state what follows from these
//! definitions, and what they come to for a file of three rows.
#![tactic(auto)]

mod copies;
mod file;
mod fill;
mod laws;
mod number_names;
mod state_names;

pub use copies::{copied_file, copied_given, copied_states};
pub use file::{KissFile, KissRow, Rows};
pub use fill::Fill;
pub use laws::{next_is_a_state, rows_decide, worked_machine};
pub use number_names::numbered_names;
pub use state_names::StateNames;
