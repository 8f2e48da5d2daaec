//! KISS2 texts and names of states.

use crate::cubes_and_gaps::put_cube;
use crate::words::{cut, number, pieces, readable};
use case_lines::Answer;
use hs_io::Name;
use kiss_file::{KissFile, KissRow, StateNames};
use kiss2::{KissFail, KissFault, read, write};
use std::alloc::{AllocError, Global};

/// Puts what a call answers.
pub(crate) fn put_answer(alloc: Global, call: &str, words: &[u8], answer: &mut Answer) {
    match call {
        "state_names" => put_numbered(alloc, words, answer),
        "read" => put_read(alloc, words, answer),
        "front" => put_read(alloc, front(words), answer),
        "read_repeated" => put_repeated(alloc, words, answer),
        _ => put_rewritten(alloc, words, answer),
    }
}

/// Puts the number of each name, and then all names.
fn put_numbered(alloc: Global, words: &[u8], answer: &mut Answer) {
    match pieces(alloc, words, b' ') {
        Ok(words) => put_numbers(alloc, words.as_slice(), answer),
        Err(_) => answer.fail(),
    }
}

/// Puts the number of each name, and then all names.
fn put_numbers(alloc: Global, words: &[Name], answer: &mut Answer) {
    let mut names = StateNames::new(alloc);
    for word in words {
        add_name(&mut names, word.bytes(), answer);
    }
    put_state_names(&names, answer);
}

/// Adds a name and puts its number.
fn add_name(names: &mut StateNames, word: &[u8], answer: &mut Answer) {
    if names.count() < 1000 {
        match names.add(word) {
            Ok(number) => put_number(number, answer),
            Err(_) => answer.fail(),
        }
    }
}

/// Puts a number and a space.
fn put_number(number: u16, answer: &mut Answer) {
    answer.add_number(u64::from(number));
    answer.add(b" ");
}

/// Puts the names of states in order.
fn put_state_names(names: &StateNames, answer: &mut Answer) {
    answer.add(b"/");
    for i in 0..names.count() {
        answer.add(b" ");
        answer.add(names.name(i));
    }
}

/// The toggle, whose fronts are read.
const TOGGLE: &[u8] = b".i 1\n.o 1\n0 a a 0\n1 a b 1\n0 b b 1\n1 b a 0\n.e\n";

/// The front of the toggle that has this length.
fn front(length: &[u8]) -> &'static [u8] {
    let length = number(length).min(1000) as usize;
    &TOGGLE[..length.min(TOGGLE.len())]
}

/// Puts what a piece, repeated the given number of times, is read as.
fn put_repeated(alloc: Global, words: &[u8], answer: &mut Answer) {
    let (times, piece) = cut(words, b' ');
    let mut text = Vec::new(alloc);
    if repeat(piece, number(times), &mut text).is_err() {
        answer.fail();
    }
    put_read(alloc, text.as_slice(), answer);
}

/// Appends a piece the given number of times.
fn repeat(piece: &[u8], times: u64, into: &mut Vec<u8>) -> Result<(), AllocError> {
    for _ in 0..times {
        into.extend_from_slice(piece)?;
    }
    Ok(())
}

/// Puts what a text is read as, or its first fault.
fn put_read(alloc: Global, text: &[u8], answer: &mut Answer) {
    match read(alloc, readable(text)) {
        Ok(file) => put_file(&file, answer),
        Err(KissFail::Refused(fault)) => put_fault(&fault, answer),
        Err(KissFail::NoMemory) => answer.fail(),
    }
}

/// Puts a fault.
fn put_fault(fault: &KissFault, answer: &mut Answer) {
    answer.add_displayed(format_args!("{} {:?}", fault.line, fault.kind));
}

/// Puts the counts, the reset state and the names of a file, and then its rows.
fn put_file(file: &KissFile, answer: &mut Answer) {
    answer.add_displayed(format_args!("{} {} {} ", file.inputs, file.outputs, file.reset));
    put_state_names(&file.states, answer);
    for row in file.rows.as_slice() {
        put_row(row, answer);
    }
}

/// Puts the numbers of a row, with the bits of cubes and outputs in hexadecimal.
fn put_row(row: &KissRow, answer: &mut Answer) {
    answer.add(b"; ");
    put_cube(&row.cube, answer);
    answer.add_displayed(format_args!(", {} ", row.from));
    put_next(row.to, answer);
    answer.add_displayed(format_args!(", {:x} {:x}", row.care, row.value));
}

/// Puts the number of the next state, or a star.
fn put_next(to: Option<u16>, answer: &mut Answer) {
    match to {
        Some(to) => answer.add_number(u64::from(to)),
        None => answer.add(b"*"),
    }
}

/// Reads a text, and puts what is written of the file.
fn put_rewritten(alloc: Global, text: &[u8], answer: &mut Answer) {
    match read(alloc, readable(text)) {
        Ok(file) => put_written(alloc, &file, answer),
        Err(_) => answer.add(b"not read"),
    }
}

/// Puts what is written of a file.
pub(crate) fn put_written(alloc: Global, file: &KissFile, answer: &mut Answer) {
    match write(alloc, file) {
        Ok(text) => answer.add(text.as_slice()),
        Err(_) => answer.fail(),
    }
}
