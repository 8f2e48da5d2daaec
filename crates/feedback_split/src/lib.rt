//! Feedback splits of machines, after Hartmanis and Stearns.
//!
//! [`split`] splits a machine into two parts that read each other: a right side of an Mm pair, greatest
//! strictly below one, and its complement. It gives None exactly where no right side of an Mm pair is
//! nontrivial.
//!
//! A part need not read all of the other part. The carrier of a part is a partition at or above it. The block
//! of the carrier and the block of the other part determine the next block of the other part, so only the
//! carrier is read. [`carrier`] makes it as great as possible: no two of its blocks can be put together.
//!
//! `specs/Carrier` says what carriers are, `specs/Kind` what such a split is, `specs/Best` that nothing of it
//! can be made greater, and `specs/Choice` which of several right splits is given, step by step. What is in
//! `specs/Inner` serves private functions alone. [`suffices_by_meet`] promises that a carrier suffices exactly
//! where its meet with the other part makes a pair with the other part. [`choice_is_one`] promises that the
//! steps of `specs/Choice` have only one result.
#![tactic(auto)]

mod carriers;
mod feedback;
mod laws;

pub use carriers::carrier;
pub use feedback::split;
pub use laws::{choice_is_one, suffices_by_meet};
