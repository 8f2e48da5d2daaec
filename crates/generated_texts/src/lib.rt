//! What is made of machines that come from a seed and three sizes.
//!
//! [`generate`] gives the machine of the numbers as a file. [`trial`] gives the network of its parallel
//! decomposition, with a summary of the machine and of its decomposition among the comments. Such a machine always has
//! a parallel decomposition, so a trial is refused only for codes that are too long or if memory runs out.
//!
//! `specs/SeedMachine` says what the machine of the numbers is, `specs/Figures` what the figures of the summary
//! are, and `specs/Trial` what the network and the text of a trial are and why there may be none.
#![tactic(auto)]

mod figures;
mod machines;
mod trials;

pub use machines::generate;
pub use trials::trial;
