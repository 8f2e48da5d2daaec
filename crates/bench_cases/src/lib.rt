//! What the benchmarks share: the cases, and numbers that look as if drawn at random.
//!
//! [`case_of`] reads a case from a line. [`drawn`], [`drawn_index`] and [`drawn_word`] draw a number from two
//! numbers, the same number everywhere. `specs/Lines` and `specs/Numbers` have the definitions.
#![tactic(auto)]

mod case;
mod numbers;

pub use case::{Case, case_of};
pub use numbers::{drawn, drawn_index, drawn_word};
