//! Pairs on the inputs and on the outputs of a machine, after Hartmanis and Stearns.
//!
//! (p, q) is an input-state pair where symbols that are together in p lead, from every state, to states that
//! are together in q. So p says which inputs need not be distinguished to know the block of q of the next
//! state. (p, q) is a state-output pair where states that are together in p have, at every symbol, outputs that
//! are together in q. So p says how much of the state the block of q of an output needs. A machine has at most
//! 8 inputs here, and at most 256 of its outputs may occur; [`outputs`] lists them.
//!
//! [`input_low`] and [`output_low`] give the least q for a p, [`input_high`] and [`output_high`] the greatest p
//! for a q. [`input_pairs`] and [`output_pairs`] list the Mm pairs: those of which each side is what the other
//! gives. These are values of two worlds that can be joined, [`InputWorld`] and [`OutputWorld`]. That joins of Mm
//! pairs are Mm pairs, and that each Mm pair is such a join, are clauses of [`mm_pairs_are_joins`].
//!
//! Both kinds are families of functions from members to values: from each state the symbols lead to states, and
//! at each symbol the states have outputs. So the work is done for any family, over a table of at most 65,536
//! numbers that each call makes once. Two members go together into q where each function gives them values that
//! are together in q. The least q is merged value by value, and the greatest p is split function by function.
//!
//! The definitions are in `specs/`:
//!
//! - `Inputs` has input-state pairs;
//! - `Outputs` has the outputs that occur, and state-output pairs;
//! - `Sides` says how contracts see an [`IoPair`];
//! - `Laws` says that smaller left sides and greater right sides keep pairs.
//!
//! The least and the greatest side, the Mm pairs of any relation of partitions, and the laws of their worlds are in
//! `partition`.
//!
//! What is in `specs/Inner` is for private functions alone.
#![tactic(auto)]

mod family;
mod greatest;
mod laws;
mod least;
mod listing;
mod marks;
mod output_words;
mod right_sides;
mod states;
mod symbols;
mod worlds;

pub use laws::{mm_pairs_are_joins, partners_decide, words_write_outputs};
pub use output_words::{Outs, OutsFail, outputs};
pub use states::{output_high, output_low, output_pairs};
pub use symbols::{input_high, input_low, input_pairs};
pub use worlds::{InputWorld, IoPair, OutputWorld};
