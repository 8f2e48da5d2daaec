//! Terms of a gate, and the values that they hold.
//!
//! A [`Term`] of at most 128 columns has a 0, a 1 or a dash at each. It holds the values that have its literals
//! (`specs/Term`). `specs/Pair` says what two terms share, and `specs/Lists` what the terms of a list hold together.
//! `distinct_terms` leaves out terms of a list that repeat others, and `gap` finds a value that a list does not hold.
//! `chart` has a number for each value of at most 16 columns (`specs/Charts`). `specs/Laws` has facts about terms
//! that crates above use as well.
#![tactic(auto)]

pub mod chart;
pub mod distinct_terms;
pub mod gap;
mod term;

pub use term::Term;
