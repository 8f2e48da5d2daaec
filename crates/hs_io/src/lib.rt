//! Where bytes come from and where they go.
//!
//! A [`Shelf`] holds bytes under names, and a [`Sink`] takes bytes. Each is a trait whose meaning is in its
//! ghost members: what a shelf holds and which names it grants, what a sink was given, and a count of faults
//! that never falls. A fault is answered only if the count rose in that call, so that a caller with a shelf and
//! sinks can say what each answer is due to. `specs/Counts.antt` defines "rose".
//!
//! Contracts know the bytes of [`MemShelf`] and [`MemSink`], which serve tests and fail only where they are
//! made to. [`FileShelf`] and [`StdSink`] are built on the system, and contracts do not know their bytes.
//! [`load_from`] loads from any reader within a limit, for shelves.
//!
//! Three forms of text are read as lines of fields. [`cut_lines`] gives all lines of a text at once, and a
//! [`LineReader`] one after another. [`first_line`], [`content_of`], [`is_clean`] and [`first_field`] read them
//! without memory.
//! `specs/Lines.antt` says what the lines of a text are, and the functions of `laws` say what it comes to for
//! small texts.
#![tactic(auto)]

mod file_shelf;
mod laws;
mod lines;
mod memory_shelf;
mod memory_sink;
mod name;
mod reader;
mod shelf;
mod sink;
mod std_sink;

pub use file_shelf::FileShelf;
pub use laws::{worked_bytes, worked_comments, worked_fields, worked_lines, worked_returns};
pub use lines::{
    Fields, Line, LineReader, content_of, cut_lines, first_field, first_line, is_clean,
};
pub use memory_shelf::MemShelf;
pub use memory_sink::MemSink;
pub use name::{Name, Names, copied_names};
pub use reader::load_from;
pub use shelf::{LoadFail, Shelf};
pub use sink::{Sink, SinkFail};
pub use std_sink::StdSink;
