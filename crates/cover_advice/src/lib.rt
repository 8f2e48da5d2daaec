//! Advice on how far a row of a gate can be widened.
//!
//! A row is widened as long as it holds no value that the gate has to leave out. The steps to try are found by marks
//! of all values in a gate of few columns (`Ground`), by the columns of all terms in a gate of long lists (`Slices`),
//! and from the terms that stopped a row before (`Limits`).
//!
//! Each call is safe and ends, and no clause says what it answers. The caller asks a table or an index of its own
//! before it changes a row. So a wrong answer can cost time or rows, but never makes the cover wrong.
#![tactic(auto)]

mod growth;
mod limits;
mod literals;
mod prospects;
mod slices;

pub use growth::{Cell, Ground};
pub use limits::Limits;
pub use literals::apart;
pub use prospects::Prospects;
pub use slices::{Advice, Slices};
