//! KISS2 files, read and written.
//!
//! A [`KissFile`] of the crate `kiss_file` is the content of a text. [`read()`] returns it, or the first fault of the
//! text with its line and kind. [`write`] returns the text of a record.
//!
//! The grammar is defined line by line. `specs/Words` says what a line is, `specs/Standing` what the lines before
//! it say, `specs/Faults` which fault comes first, and `specs/Kiss` what a text says as a whole. `specs/KissText`
//! is the text of a record. The function of `laws` states what follows from these definitions. The crate `kiss2_laws`
//! proves that what is read is lawful and that what is written is read back, and has what the definitions say of
//! worked texts.
#![tactic(auto)]

mod fault;
mod kept_lines;
mod laws;
mod line_kind;
mod line_operands;
mod reader;
mod record;
mod standing;
mod words;
mod writer;

pub use fault::{KissFail, KissFault, KissKind, KissLimit};
pub use kiss_file::{Fill, KissFile, KissRow, Rows, StateNames};
pub use laws::read_once;
pub use line_kind::LineKind;
pub use reader::read;
pub use writer::write;
