//! The texts that the program prints: the lines that go to err with an answer, and the reports.
//!
//! `specs/ErrLines` has each line as a function of the numbers and names in it, `specs/Reports` the texts of reports,
//! and `specs/Comparisons` the lines of a comparison. A call makes one such text, and promises exactly that. The lines
//! that need no memory are constants. The lines before the network of a trial are comments, as
//! [`trial_lines_are_comments`] says.
#![tactic(auto)]

pub mod comparisons;
pub mod err_lines;
mod laws;
pub mod reports;

pub use laws::trial_lines_are_comments;
