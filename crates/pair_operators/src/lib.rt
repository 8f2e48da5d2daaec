//! Partition pairs of a machine, and the operators m and M of Hartmanis and Stearns.
//!
//! (p, q) is a pair where states that are together in p go, for each symbol, to states that are together in q.
//! [`is_pair`] decides it, [`low`] gives the least q for a p, and [`high`] the greatest p for a q, each among
//! all partitions of the machine's states. None of them goes through all symbols: they ask the machine about
//! two states at a time. [`high_beside`] asks first the symbols that told states apart in earlier calls, and
//! [`high_above`] compares of each block of a closed partition only the least state.
//!
//! The definitions are in `specs/`: `Pair` has pairs and closed partitions, `Extremes` the least and the
//! greatest, `NextColumns` the symbols that are asked first, and `Consistency` what the outputs of a machine demand of
//! a partition. What follows from them, for the crates above, is in `specs/Laws` and is promised by the functions of
//! `laws`.
#![tactic(auto)]

mod greatest;
mod laws;
mod least;
mod next_columns;
mod pairs;

pub use greatest::{high, high_above, high_beside};
pub use laws::{
    chains_of_operators, least_and_greatest, mm_pairs, operators_grow, pairs_of_bounds,
    pairs_of_sides,
};
pub use least::low;
pub use next_columns::{AskedSymbols, NextColumn};
pub use pairs::is_pair;
