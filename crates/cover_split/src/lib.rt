//! State splitting by closed covers, after Hartmanis and Stearns.
//!
//! A cover is a list of blocks of states that may overlap. It is closed where, for each block and symbol, some
//! block has the next states of all states of the block. A state then gets a copy in each block that has it.
//! The copies are the pairs of a block and a state in it. A pair goes to the first block that has the next
//! states of its whole block, which does not depend on the state of the pair. So the machine of the pairs has a
//! serial decomposition, even where the machine itself has none.
//!
//! [`parse`] reads a cover from its text, or gives the first thing that is wrong with it. [`expand`] makes the
//! machine of the pairs, which answers every word as the machine does, or gives where the cover is not closed.
//! [`split`] is the serial split of that machine: the block, and the place in the block.
//!
//! The definitions are in `specs/`: `Text` has the pieces of a text, `StateCover` what a cover is, `Refusal` the
//! refusals of a text, `Expansion` the machine of the pairs and where a cover is not closed, and `Parts` the
//! split. What is in `specs/Inner` serves private functions and proofs alone.
#![tactic(auto)]

mod expansion;
mod holders;
mod joint;
mod laws;
mod pairs;
mod parts;
mod rows;
mod state_cover;
mod text;

pub use expansion::{ExpandFail, expand};
pub use laws::{pairs_fill_places, worked_texts};
pub use pairs::pairs_of;
pub use parts::split;
pub use state_cover::{Block, Blocks, Cover, CoverFail};
pub use text::parse;
