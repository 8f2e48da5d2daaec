//! The comments at the head of a network, line by line.

ghost use Rattle.std.specs.Prelude.{◌≡◌, ◌<◌, ◌≤◌, ◌++◌, OnOk, length};
ghost use Rattle.std.specs.List.{enumerate_from, flat_map, zip};
ghost use Rattle.hs_io.specs.Spelling.{ended};
ghost use Rattle.blif_out.specs.Head.{comment_text, classes_fields, head_lines, kind_fields, kind_word};
ghost use Rattle.blif_out.specs.Inner.Pieces.{part_line, state_line, note_line};

use crate::fields::{
    append_code_field, append_field, append_number_field, append_numbers_field,
    append_partition_field,
};
use crate::{Header, LatchNote};
use kiss_file::StateNames;
use partition::Partition;
use state_codes::{Kind, Part};
use std::alloc::{AllocError, Global};

/// Appends the lines of a header.
pub fn append_header(alloc: Global, text: &mut Vec<u8>, header: &Header) -> Result<(), AllocError>
    requires words { length header.now.words ≡ length header.now.states }
    requires latches { length header.now.latches ≤ 64 }
    ensures { OnOk result (text.new.items ≡ text.old.items ++ flat_map ended (head_lines header.now)) }
{
    let latches = header.latches.as_slice();
    append_kind(text, header.kind)?;
    append_classes(alloc, text, &header.classes)?;
    append_parts(alloc, text, header.parts.as_slice())?;
    append_states(text, latches.len(), &header.states, header.words.as_slice())?;
    append_notes(alloc, text, latches)?;
    Ok(())
}

/// Appends the line of the kind.
fn append_kind(text: &mut Vec<u8>, kind: Kind) -> Result<(), AllocError>
    ensures { OnOk result (text.new.items ≡ text.old.items ++ ended (comment_text (kind_fields kind))) }
{
    text.extend_from_slice(b"# hsdec")?;
    append_field(text, word_of_kind(kind))?;
    text.push(b'\n')?;
    Ok(())
}

/// The word of a kind, as the first line of a header and the lines of err name it.
pub fn word_of_kind(kind: Kind) -> &'static [u8]
    ensures { result.now ≡ kind_word kind }
{
    match kind {
        Kind::Code => b"code",
        Kind::Assign => b"assign",
        Kind::Parallel => b"parallel",
        Kind::Serial => b"serial",
        Kind::Cascade => b"cascade",
        Kind::Feedback => b"feedback",
        Kind::Least => b"least",
    }
}

/// Appends the line of the classes, if there are any.
fn append_classes(
    alloc: Global,
    text: &mut Vec<u8>,
    classes: &Option<Partition>,
) -> Result<(), AllocError>
    ensures { OnOk result
        (text.new.items ≡ text.old.items ++ flat_map (λ fields. ended (comment_text fields))
        (classes_fields classes.now)) }
{
    let Some(classes) = classes else {
        return Ok(());
    };
    text.extend_from_slice(b"# classes")?;
    append_partition_field(alloc, text, classes)?;
    text.push(b'\n')?;
    Ok(())
}

/// Appends the line of each part.
fn append_parts(alloc: Global, text: &mut Vec<u8>, parts: &[Part]) -> Result<(), AllocError>
    ensures { OnOk result (text.new.items ≡ text.old.items ++ flat_map part_line (enumerate_from 0 parts.now)) }
{
    for (number, part) in parts.iter().enumerate() {
        append_part(alloc, text, number, part)?;
    }
    Ok(())
}

/// Appends the line of a part.
fn append_part(
    alloc: Global,
    text: &mut Vec<u8>,
    number: usize,
    part: &Part,
) -> Result<(), AllocError>
    ensures { OnOk result (text.new.items ≡ text.old.items ++ part_line (number, part.now)) }
{
    text.extend_from_slice(b"# part")?;
    append_number_field(text, number)?;
    append_partition_field(alloc, text, &part.partition)?;
    append_field(text, b"carrier")?;
    append_partition_field(alloc, text, &part.carrier)?;
    append_field(text, b"reads")?;
    append_numbers_field(text, part.reads.as_slice())?;
    text.push(b'\n')?;
    Ok(())
}

/// Appends the line of each state.
fn append_states(
    text: &mut Vec<u8>,
    bits: usize,
    states: &StateNames,
    words: &[u64],
) -> Result<(), AllocError>
    requires bits { bits ≤ 64 }
    requires words { length words.now ≡ length states.now }
    ensures { OnOk result (text.new.items ≡ text.old.items ++ flat_map (state_line bits) (zip states.now words.now)) }
{
    for (number, word) in words.iter().enumerate() {
        append_state(text, bits, states.name(number), *word)?;
    }
    Ok(())
}

/// Appends the line of a state.
fn append_state(text: &mut Vec<u8>, bits: usize, name: &[u8], word: u64) -> Result<(), AllocError>
    requires { bits ≤ 64 }
    ensures { OnOk result (text.new.items ≡ text.old.items ++ state_line bits (name.now, word)) }
{
    text.extend_from_slice(b"# code")?;
    append_field(text, name)?;
    append_code_field(text, bits, word)?;
    text.push(b'\n')?;
    Ok(())
}

/// Appends the line of each latch, numbered from 0.
pub fn append_notes(
    alloc: Global,
    text: &mut Vec<u8>,
    latches: &[LatchNote],
) -> Result<(), AllocError>
    ensures { OnOk result (text.new.items ≡ text.old.items ++ flat_map note_line (enumerate_from 0 latches.now)) }
{
    for (number, latch) in latches.iter().enumerate() {
        append_note(alloc, text, number, latch)?;
    }
    Ok(())
}

/// Appends the line of a latch.
fn append_note(
    alloc: Global,
    text: &mut Vec<u8>,
    number: usize,
    latch: &LatchNote,
) -> Result<(), AllocError>
    ensures { OnOk result (text.new.items ≡ text.old.items ++ note_line (number, latch.now)) }
{
    text.extend_from_slice(b"# latch")?;
    append_number_field(text, number)?;
    append_field(text, b"part")?;
    append_number_field(text, usize::from(latch.part))?;
    append_field(text, b"from")?;
    append_partition_field(alloc, text, &latch.from)?;
    append_field(text, b"to")?;
    append_partition_field(alloc, text, &latch.to)?;
    text.push(b'\n')?;
    Ok(())
}
