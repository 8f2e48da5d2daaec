//! The calls of `hs_list` and `hs_io`.

use crate::words::{is_word, pieces};
use crate::{line_texts, shelves};
use case_lines::Answer;
use hs_io::{LoadFail, Name, Names, SinkFail, copied_names};
use hs_list::Items;
use std::alloc::Global;

/// Puts what a call answers.
pub(crate) fn put_answer(alloc: Global, call: &str, words: &[u8], answer: &mut Answer) {
    match call {
        "items" | "names" => put_listed(alloc, call, words, answer),
        "messages" => put_message(words, answer),
        "mem_shelf" => shelves::load_all(alloc, words, answer),
        "mem_sink" => shelves::put_pieces(alloc, words, answer),
        "closed_stream" => shelves::put_to_closed(answer),
        _ => line_texts::put_lines(alloc, words, answer),
    }
}

/// Puts the names of a list.
fn put_listed(alloc: Global, call: &str, words: &[u8], answer: &mut Answer) {
    match pieces(alloc, words, b'/') {
        Ok(names) if call == "items" => put_items(names, answer),
        Ok(names) => put_copies(alloc, names.as_slice(), answer),
        Err(_) => answer.fail(),
    }
}

/// Puts the names of a list that is made from the vector of another list.
fn put_items(names: Names, answer: &mut Answer) {
    let list = Items::from(names.into_vec());
    put_counted(list.as_slice(), answer);
}

/// Puts the names of a copy.
fn put_copies(alloc: Global, names: &[Name], answer: &mut Answer) {
    match copied_names(alloc, names) {
        Ok(copies) => put_counted(copies.as_slice(), answer),
        Err(_) => answer.fail(),
    }
}

/// Puts the number of names, and then the names.
fn put_counted(names: &[Name], answer: &mut Answer) {
    answer.add_number(names.len() as u64);
    for name in names {
        answer.add(b"/");
        answer.add(name.bytes());
    }
}

/// Puts the message of a failure.
fn put_message(word: &[u8], answer: &mut Answer) {
    if is_word(word, b"SinkFail::Failed") {
        answer.add_displayed(SinkFail::Failed);
    } else {
        answer.add_displayed(load_fail(word));
    }
}

/// The failure of a load that a word names.
fn load_fail(word: &[u8]) -> LoadFail {
    if is_word(word, b"LoadFail::Failed") {
        LoadFail::Failed
    } else if is_word(word, b"LoadFail::TooLong") {
        LoadFail::TooLong
    } else {
        LoadFail::NoMemory
    }
}
