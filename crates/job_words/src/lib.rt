//! The words of a command line, and the job that they ask for.
//!
//! [`job`] gives the job of a list of words, or the number of the refused word, exactly as the definition
//! *JobOf* says:
//!
//! - `specs/Table` has the rows of the commands that are built, each with its operands and its options.
//! - `specs/Item` separates operands from options with the words that they take.
//! - `specs/Job` says which item is refused after which others, and what job the items give.
//! - `specs/SplitWords` says which words name a split, and a machine of it.
//! - `specs/Examples` has small cases of all this, which [`judged_lines`] states.
//!
//! [`judge`] does the same by a table that is handed in.
//!
//! A command that is not built has no row, and an option that is not built is in no row, so the words do not
//! know it. To build it is to change the table, in `specs/Table` and in [`built_forms`]; the judgement stays. A
//! new row also has an item in the lists of `proofs/Slashes` and `proofs/Sizes`.
//!
//! The words are judged item by item in a draft of the job, which knows the number of operands and the options
//! so far (`specs/Inner/Draft`).
#![tactic(auto)]

mod command;
mod draft;
mod fields;
mod items;
mod job_reader;
mod jobs;
mod laws;
mod names;
mod numbers;
mod splits;
mod table;
mod words;

pub use command::Command;
pub use job_reader::{form_named, job, judge};
pub use jobs::{Job, JobFail};
pub use laws::{judged_lines, limits_are_limits, names_are_names, parts_are_few, sizes_are_sizes};
pub use table::{CommandOption, Form, OperandKind, built_forms};
pub use words::Words;
