//! Parallel splits of machines, after Hartmanis and Stearns.
//!
//! [`split`] divides a machine into parts that run side by side and do not read each other: nontrivial closed
//! partitions whose meet is zero. No part has a parallel split of its own, and none can be left out. It answers
//! None exactly where no two nontrivial closed partitions meet in zero.
//!
//! The parts are taken from a list of members. Each member is a greatest closed partition that has some two states
//! in two blocks. Each closed partition strictly above it holds the two together, so no two of these meet in it.
//! Where a member is zero, all other closed partitions hold its two states together, and no two of them meet in zero.
//!
//! `specs/Kind` says what such a split is, `specs/Best` that nothing of it can be left out, and `specs/Choice`
//! which of several right ones is given, step by step. `specs/Inner` is only for private functions.
#![tactic(auto)]

mod laws;
mod members;
mod ordering;
mod parallel;
mod spare_members;

pub use laws::choice_is_one;
pub use parallel::split;
