//! Answers of the program, refusals with their values, and the one function that puts what a command made.
//!
//! A command gives a [`Report`], or the [`Refusal`] that says why there is none. A [`Page`] is what is put of a
//! report: where this is a network, the network is written first. A refusal has the values that its line shows, so
//! that each cause is stated only once:
//!
//! - `specs/Cause` says what it means that something calls for a refusal, and which of several causes is judged
//!   first;
//! - `specs/Refusal` has the answer and the line of each refusal;
//! - `specs/Answer` has the number of each answer;
//! - `specs/Delivery` says what [`deliver`] puts.
//!
//! Commands are in crates above this one. The contract of each says which causes it judges, in their order, and
//! what its text is (`specs/Outcome`).
#![tactic(auto)]

mod delivery;
mod digits;
mod kiss_texts;
mod limit_texts;
mod lines;
mod net_texts;
mod numbers;
mod refusals;
mod reports;

pub use delivery::deliver;
pub use digits::symbol_text;
pub use numbers::Answer;
pub use refusals::{CoverFlaw, PartFlaw, Refusal};
pub use reports::{Bytes, Page, Report};
