//! Machines made from a seed, with a known decomposition.
//!
//! [`make`] gives the file of a machine whose states have two parts. The words of a seed say where each part
//! goes, which depends on that part and the symbol alone. So such a machine has a parallel decomposition into
//! two, whatever its size (`parallel_exists`), and the same numbers give the same file everywhere.
//!
//! `specs/Words` says what the words of a seed are, `specs/WordMachine` what the machine of words is,
//! `specs/PartSteps` what it does, and `specs/ParallelParts` how it is decomposed. What is in `specs/Inner` serves
//! private functions alone.
#![tactic(auto)]

mod draws;
mod generator;
mod laws;
mod rows;

pub use generator::make;
pub use laws::{one_machine, parallel_exists, parts_go, parts_of_42, words_of_42};
