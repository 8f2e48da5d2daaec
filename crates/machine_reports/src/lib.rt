//! Reports on a machine: what those commands print that write no network.
//!
//! Each function makes the whole text of one command, or gives the refusal that says why there is none. The
//! causes of `specs/Causes` say what a machine calls for. Each contract says which of them are judged, in their
//! order, and what the text is:
//!
//! - [`check`] gives the counts of a file, and [`reduce`] the machine of its classes of alike states;
//! - [`closed`], [`output`], [`pairs`], [`ispairs`] and [`sopairs`] give a list, or evidence that there are
//!   more than the limit;
//! - [`low`] and [`high`] give the partner of a partition that is given as a text;
//! - [`definite`] shows how the states of a machine come together symbol by symbol, and [`order_of`] gives the
//!   number of symbols that this takes.
//!
//! Where the partitions are of states, [`Shown`] says whether their labels or the names of the states are
//! printed, as `specs/StateTexts` tells.
//!
//! `specs/` says what each text is, one file for each kind of report. The laws of `specs/Laws` say that all
//! refusals that a command calls for have one answer.
#![tactic(auto)]

mod bounds;
mod chains;
mod classes;
mod counts;
mod input_lists;
mod laws;
mod lines;
mod listings;
mod orders;
mod output_lines;
mod output_lists;
mod partners;
mod state_texts;

pub use chains::definite;
pub use classes::reduce;
pub use counts::check;
pub use input_lists::ispairs;
pub use laws::{
    chains_tell_definite_machines, commands_have_one_answer, lines_show_outputs, texts_show_states,
};
pub use listings::{closed, output, pairs};
pub use orders::order_of;
pub use output_lists::sopairs;
pub use partners::{high, low};
pub use state_texts::Shown;
