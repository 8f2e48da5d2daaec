//! The lines of a comparison, without the line feeds that end them.

ghost use Rattle.std.specs.Prelude.{◌≡◌, ◌∷◌, [], ◌++◌, IfOk, OnOk};
ghost use Rattle.std.specs.Fmt.{decimal};
ghost use Rattle.std.specs.List.{flat_map};
ghost use Rattle.hs_io.specs.Spelling.{line_text, spaced};
ghost use Rattle.hs_texts.specs.Comparisons.{counted_fields, reason_fields, short_fields};

use crate::err_lines::{append_name, append_number};
use std::alloc::{AllocError, Global};

/// What is counted of a network.
#[derive(Clone, Copy)]
pub struct NetworkCounts {
    /// The number of its latches.
    pub latches: usize,
    /// The number of latch outputs that the gates of its latches list.
    pub reads: usize,
    /// The number of those whose latch belongs to another part than the gate.
    pub across: usize,
    /// The number of rows of its gates.
    pub rows: usize,
    /// The number of characters `0` and `1` in these rows.
    pub literals: usize,
}

/// Why there is nothing to count.
#[derive(Clone, Copy)]
pub enum Reason {
    /// The machine has no such network.
    Lacking,
    /// The network would have too many latches, this many.
    Bits { bits: usize },
    /// The machine has too few or too many states, this many.
    States { states: usize },
    /// No content of the register stands for the reset state.
    Unreached,
}

/// The line of a network: its word, a measure of the machine, and what is counted.
pub fn counted(
    alloc: Global,
    word: &[u8],
    measure: &[u8],
    number: usize,
    counts: &NetworkCounts,
) -> Result<Vec<u8>, AllocError>
    ensures { IfOk result (λ line. line.items ≡ line_text (counted_fields word.now measure.now number counts.now)) }
{
    let mut line = Vec::from_slice(alloc, word)?;
    append_figure(alloc, &mut line, measure, number)?;
    append_figure(alloc, &mut line, b"latches", counts.latches)?;
    append_figure(alloc, &mut line, b"reads", counts.reads)?;
    append_figure(alloc, &mut line, b"across", counts.across)?;
    append_figure(alloc, &mut line, b"rows", counts.rows)?;
    append_figure(alloc, &mut line, b"literals", counts.literals)?;
    Ok(line)
}

/// The line of a network that there is not: its word and the reason.
pub fn short(alloc: Global, word: &[u8], reason: Reason) -> Result<Vec<u8>, AllocError>
    ensures { IfOk result (λ line. line.items ≡ line_text (short_fields word.now reason)) }
{
    let mut line = Vec::from_slice(alloc, word)?;
    append_reason(alloc, &mut line, reason)?;
    Ok(line)
}

/// Appends the words of a reason, each after a space.
fn append_reason(alloc: Global, line: &mut Vec<u8>, reason: Reason) -> Result<(), AllocError>
    ensures { OnOk result (line.new.items ≡ line.old.items ++ flat_map spaced (reason_fields reason)) }
{
    match reason {
        Reason::Lacking => append_name(line, b"none"),
        Reason::Bits { bits } => append_figure(alloc, line, b"bits", bits),
        Reason::States { states } => append_figure(alloc, line, b"states", states),
        Reason::Unreached => append_name(line, b"unreached"),
    }
}

/// Appends a label and a number, each after a space.
fn append_figure(
    alloc: Global,
    line: &mut Vec<u8>,
    label: &[u8],
    number: usize,
) -> Result<(), AllocError>
    ensures { OnOk result (line.new.items ≡ line.old.items ++ flat_map spaced (label.now ∷ decimal number ∷ [])) }
{
    append_name(line, label)?;
    append_number(alloc, line, b" ", number as u64)?;
    Ok(())
}
