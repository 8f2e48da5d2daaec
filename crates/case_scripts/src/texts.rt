//! The texts of a file of cases.

use crate::files::CaseFiles;
use anyhow::Context;
use case_lines::{number, unescaped};
use std::alloc::{AllocError, Global};
use std::fs;
use std::rt::Files;

/// Adds what a line of a text says to the text.
pub(crate) fn add<R: Files + AllocGlobal>(
    rt: &R,
    files: &CaseFiles,
    text: &mut Vec<u8>,
    word: &str,
    rest: &str,
) -> anyhow::Result<()> {
    match word {
        "|" | "copy" | "cut" => change(files, text, word, rest),
        "data" => append_data(rt, text, rest),
        _ => append_pieces(rt.alloc(), text, word, rest),
    }
}

/// Appends the line or the file, or cuts the text.
fn change(files: &CaseFiles, text: &mut Vec<u8>, word: &str, rest: &str) -> anyhow::Result<()> {
    if word == "cut" {
        text.truncate(number(rest)?);
        return Ok(());
    }
    if word == "copy" {
        let bytes = files.bytes(rest.as_bytes())?;
        text.extend_from_slice(bytes)?;
        return Ok(());
    }
    text.extend_from_slice(rest.as_bytes())?;
    text.push(b'\n')?;
    Ok(())
}

/// Appends the file of this name in `data/`.
fn append_data<R: Files + AllocGlobal>(
    rt: &R,
    text: &mut Vec<u8>,
    name: &str,
) -> anyhow::Result<()> {
    let bytes = fs::read(rt, name).context(format_args!("reading {name}"))?;
    text.extend_from_slice(bytes.as_slice())?;
    Ok(())
}

/// Appends the bytes of a piece once, or as often as the word and the number say.
fn append_pieces(alloc: Global, text: &mut Vec<u8>, word: &str, rest: &str) -> anyhow::Result<()> {
    let (count, piece) = if word == "bytes" {
        (1, rest)
    } else {
        number_and_text(rest)?
    };
    let piece = unescaped(alloc, piece)?;
    append_repeated(alloc, text, word, count, piece.as_slice())?;
    Ok(())
}

/// Appends a piece as often as the word and the number say.
fn append_repeated(
    alloc: Global,
    text: &mut Vec<u8>,
    word: &str,
    count: usize,
    piece: &[u8],
) -> Result<(), AllocError> {
    match word {
        "each" => append_each(alloc, text, count, piece),
        "fill" => append_to_length(text, count, piece),
        _ => append_times(text, count, piece),
    }
}

/// A number, and the text after the first space.
pub(crate) fn number_and_text(text: &str) -> anyhow::Result<(usize, &str)> {
    let (front, rest) = word_and_rest(text);
    Ok((number(front)?, rest))
}

/// A word, and the text after the first space.
pub(crate) fn word_and_rest(text: &str) -> (&str, &str) {
    text.split_once(' ').unwrap_or((text, ""))
}

/// Appends the piece a number of times.
fn append_times(text: &mut Vec<u8>, times: usize, piece: &[u8]) -> Result<(), AllocError> {
    for _ in 0..times {
        text.extend_from_slice(piece)?;
    }
    Ok(())
}

/// Appends the piece again and again, while the text is shorter than `length`.
fn append_to_length(text: &mut Vec<u8>, length: usize, piece: &[u8]) -> Result<(), AllocError> {
    for _ in text.len()..length {
        if text.len() < length {
            text.extend_from_slice(piece)?;
        }
    }
    Ok(())
}

/// Appends the piece for each number below the count, with each `@` replaced by the number.
fn append_each(
    alloc: Global,
    text: &mut Vec<u8>,
    count: usize,
    piece: &[u8],
) -> Result<(), AllocError> {
    for number in 0..count {
        let digits = number.to_string(alloc)?;
        append_with(text, piece, digits.as_bytes())?;
    }
    Ok(())
}

/// Appends the piece with each `@` replaced by the digits.
fn append_with(text: &mut Vec<u8>, piece: &[u8], digits: &[u8]) -> Result<(), AllocError> {
    for byte in piece {
        if *byte == b'@' {
            text.extend_from_slice(digits)?;
        } else {
            text.push(*byte)?;
        }
    }
    Ok(())
}
