//! Patterns of 0, 1 and dash in bundles of 64, compared with a pattern many at a time.
//!
//! A pattern has at most 64 places. Two patterns agree if they have the same bit wherever neither has a dash: two input
//! cubes share a symbol exactly where they agree as patterns, and two rows give the same outputs, as far as both give
//! any, exactly where their outputs agree. A [`Bundle`] keeps, for each place, a word of the patterns that allow a 0
//! there and a word of those that allow a 1. So which of its patterns agree with another is found with one step on
//! words for each place at which the other has no dash.
//!
//! `specs/Pattern` says what it means to agree, and what a word of marks says of a list.
#![tactic(auto)]

mod bundle;
mod marks;
mod pattern;

pub use bundle::Bundle;
pub use marks::take_first;
pub use pattern::Pattern;
