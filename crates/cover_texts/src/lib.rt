//! The network of a machine that is split by a closed cover of its states.
//!
//! [`cover`] reads a cover, makes the machine whose states are pairs of a block and a state in it, and splits
//! that machine in series (`cover_split`). It gives the network of this split, with the comments that stand before it:
//! those of the blocks, of the code of each pair and of the latches.
//!
//! The definitions are in `specs/`: `Flaws` says which refusal a text calls for, `Lines` lays out the comments, and
//! `CoverText` says all that is promised of the network and its text. `specs/Laws` has what follows from the cause.
#![tactic(auto)]

mod blocks;
mod covers;
mod flaws;
mod lines;
mod networks;
mod pairs;

pub use covers::cover;
