//! Serial splits of machines, and cascades, after Hartmanis and Stearns.
//!
//! [`split`] divides a machine into a part that reads only itself and one that reads both: a greatest closed
//! partition other than one, and its complement. [`cascade`] follows a chain of closed partitions from one down to
//! zero. No closed partition is strictly between two neighbours of the chain, and each part reads those before it.
//! Both answer None exactly where no closed partition is nontrivial.
//!
//! `specs/Kind` says what such splits are, `specs/Best` that no step of them can be made smaller, and
//! `specs/Choice` which of several right ones is given, step by step. `specs/Inner` is only for private functions.
#![tactic(auto)]

mod chain;
mod laws;
mod part;
mod serial;

pub use chain::cascade;
pub use laws::{cascade_choice_is_one, serial_choice_is_one};
pub use serial::split;
