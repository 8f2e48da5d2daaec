//! Laws of KISS2 texts, each the contract of a function that does nothing. The definitions are those of `kiss2`.
//!
//! [`read_is_lawful`] says that what is read is lawful, and [`written_is_read`] that the text of a lawful record is
//! read back as that record. The others are worked texts: the machine that each says, the fault for which it is refused,
//! or the record that it is written of. A reading of the form that gives one of them another machine or another fault
//! is refused by the check. `specs/Worked` has the longer texts.
#![tactic(auto)]

mod records;
mod worked;

pub use records::{read_is_lawful, written_is_read};
pub use worked::{
    worked_counts, worked_ends, worked_faults, worked_limits, worked_names, worked_orders,
    worked_rows, worked_start, worked_text, worked_words, worked_writing,
};
