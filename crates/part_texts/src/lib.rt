//! The machine of a part of a split, as a KISS2 text.
//!
//! [`part`] splits the machine that a command works on as the command of the kind does, with the same parts, codes, read
//! sets and names of signals. It gives the text of the machine of one part, or of the machine of the outputs.
//! It refuses what the command of the kind refuses, and then, in this order:
//!
//! - a number that no part has;
//! - a part that has no bits;
//! - a machine with more than 32 inputs;
//! - a name of more than 64 bytes.
//!
//! `specs/SplitMachine` says what the split of a job is, `specs/PartText` what holds of the text, and
//! `specs/PartCauses` which refusals a job calls for. All of them have one answer ([`part_has_one_answer`]), and a job
//! has one split ([`split_is_one`]).
#![tactic(auto)]

mod blocks;
mod flaws;
mod laws;
mod machines;
mod part_names;
mod split_machine;

pub use laws::{part_has_one_answer, split_is_one};
pub use machines::part;
