//! The gates of a network: their rows, from what is asked of them, and the names that they list.
//!
//! The columns of a gate are the inputs that it reads, in order, and then the bits that it reads of a word. The
//! word is the code of a state, for example, or the content of a register. A [`Demand`] asks for a bit at the
//! symbols of a cube and a word. [`demanded_rows`] gives the rows of a gate that meets all demands: its texts are
//! a good cover, in ascending order of their bytes.
//!
//! [`listed_names`] gives the names that a gate lists, and [`latches`] the latches that start at the bits of a word.
//!
//! The definitions are in `specs/`: `Columns` has what a gate reads, `Demands` what is asked of it, and `Covers` the one
//! definition of a good cover over texts of rows. `Names` and `Latches` have the names and the latches.
#![tactic(auto)]

mod columns;
mod demands;
mod gate_names;
mod latch_starts;
mod texts;

pub use demands::{Demand, demanded_rows};
pub use gate_names::{listed_names, name_from};
pub use latch_starts::latches;
