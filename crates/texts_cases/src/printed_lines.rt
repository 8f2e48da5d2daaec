//! Lines to err and reports.

use crate::words::{count, cut, is_word, number, pieces};
use case_lines::Answer;
use hs_list::Items;
use hs_texts::err_lines;
use hs_texts::reports::{TrialFigures, counts, trial};
use std::alloc::{AllocError, Global};

/// Puts what a call answers.
pub(crate) fn put_answer(alloc: Global, call: &str, words: &[u8], answer: &mut Answer) {
    match text_of(alloc, call, words) {
        Ok(text) => answer.add(text.as_slice()),
        Err(_) => answer.fail(),
    }
}

/// The text of a call.
fn text_of(alloc: Global, call: &str, words: &[u8]) -> Result<Vec<u8>, AllocError> {
    let (first, rest) = cut(words, b' ');
    match call {
        "counts" => counted(alloc, first, rest),
        "trial" => summary(alloc, words),
        "cycle" => cycle(alloc, words),
        "kiss" => err_lines::kiss(alloc, count(first), rest),
        "net" => err_lines::net(alloc, count(first), rest),
        "usage" | "symbols" | "conflict" | "more" | "code_bits" | "part_place" | "part_length" => {
            numbered(alloc, call, first, rest)
        }
        "no_part" | "part_bits" | "part_inputs" | "outputs_inputs" | "part_name" | "outputs_name" =>
            { of_part(alloc, call, count(first) as usize, count(rest) as usize) }
        _ => named(alloc, call, first, rest),
    }
}

/// The lines that have names alone.
fn named(alloc: Global, call: &str, name: &[u8], rest: &[u8]) -> Result<Vec<u8>, AllocError> {
    match call {
        "cannot_read" => err_lines::cannot_read(alloc, name),
        "too_long" => err_lines::too_long(alloc, name),
        "two_drivers" => err_lines::two_drivers(alloc, name),
        "undriven" => err_lines::undriven(alloc, name),
        "bad_start" => err_lines::bad_start(alloc),
        "start_unknown" => err_lines::start_unknown(alloc, name),
        "not_apart" => err_lines::not_apart(alloc, name, rest),
        "no_split" => err_lines::no_split(alloc, name),
        "clock" => err_lines::clock(alloc, name),
        _ => unspecified(alloc, name, rest),
    }
}

/// The line of what a machine leaves open.
fn unspecified(alloc: Global, state: &[u8], words: &[u8]) -> Result<Vec<u8>, AllocError> {
    let (symbol, part) = cut(words, b' ');
    err_lines::unspecified(alloc, state, symbol, part)
}

/// The lines that have numbers alone.
fn numbered(alloc: Global, call: &str, first: &[u8], rest: &[u8]) -> Result<Vec<u8>, AllocError> {
    let (second, third) = cut(rest, b' ');
    let (first, second, third) = (count(first), count(second), count(third));
    match call {
        "usage" => err_lines::usage(alloc, first),
        "symbols" => err_lines::symbols(alloc, first),
        "conflict" => err_lines::conflict(alloc, first, second),
        "more" => err_lines::more(alloc, first as usize),
        "code_bits" => err_lines::code_bits(alloc, first as usize),
        "part_place" => err_lines::part_place(alloc, first as usize, second as usize),
        _ => err_lines::part_length(alloc, first as usize, second as usize, third as usize),
    }
}

/// The lines of the machines of a split.
fn of_part(alloc: Global, call: &str, first: usize, second: usize) -> Result<Vec<u8>, AllocError> {
    match call {
        "no_part" => err_lines::no_part(alloc, first),
        "part_bits" => err_lines::part_bits(alloc, first),
        "part_inputs" => err_lines::part_inputs(alloc, first, second),
        "outputs_inputs" => err_lines::outputs_inputs(alloc, first),
        "part_name" => err_lines::part_name(alloc, first, second),
        _ => err_lines::outputs_name(alloc, first),
    }
}

/// The line of a cycle.
fn cycle(alloc: Global, words: &[u8]) -> Result<Vec<u8>, AllocError> {
    let names = pieces(alloc, words, b' ')?;
    err_lines::cycle(alloc, names.as_slice())
}

/// The counts of a machine whose reset state is named last.
fn counted(alloc: Global, states: &[u8], words: &[u8]) -> Result<Vec<u8>, AllocError> {
    let (inputs, rest) = cut(words, b' ');
    let (outputs, rest) = cut(rest, b' ');
    let (rows, reset) = cut(rest, b' ');
    let inputs = number(inputs).min(255) as u8;
    let outputs = number(outputs).min(255) as u8;
    let (states, rows) = (count(states) as usize, count(rows) as usize);
    counts(alloc, states, inputs, outputs, rows, reset)
}

/// The summary of the trial of 42 2 2 1 with the given number of closed partitions, or with more than 1,000.
fn summary(alloc: Global, closed: &[u8]) -> Result<Vec<u8>, AllocError> {
    let closed = if is_word(closed, b"more") {
        None
    } else {
        Some(count(closed) as usize)
    };
    let parts = vec![in alloc; 2, 2]?;
    let figures = TrialFigures {
        seed: 42,
        a: 2,
        b: 2,
        k: 1,
        states: 4,
        closed,
        parts: Items::from(parts),
        latches: 2,
        ones: 1000,
    };
    trial(alloc, &figures)
}
