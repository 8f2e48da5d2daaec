//! Lines of texts, all at once and one after another.

use crate::words::readable;
use case_lines::Answer;
use hs_io::{Line, content_of, cut_lines, first_field, first_line, is_clean};
use std::alloc::Global;

/// Puts the lines of a text, and then, if these differ, the lines as they are read one after another.
pub(crate) fn put_lines(alloc: Global, text: &[u8], answer: &mut Answer) {
    let mut in_turn = Answer::new(alloc);
    put_in_turn(text, &mut in_turn);
    put_at_once(alloc, text, answer);
    if in_turn.bytes() != answer.bytes() {
        answer.add(b"; in turn ");
        answer.add(in_turn.bytes());
    }
}

/// Puts the number of a line, and a mark if it is bad.
fn put_number(number: u32, bad: bool, answer: &mut Answer) {
    answer.add_number(u64::from(number));
    if bad {
        answer.add(b"!");
    }
    answer.add(b":");
}

/// Puts the lines as a list gives them.
fn put_at_once(alloc: Global, text: &[u8], answer: &mut Answer) {
    match cut_lines(alloc, readable(text)) {
        Ok(lines) => put_each(lines.as_slice(), answer),
        Err(_) => answer.fail(),
    }
}

/// Puts lines.
fn put_each(lines: &[Line], answer: &mut Answer) {
    for line in lines {
        put_number(line.number, line.bad, answer);
        put_fields(line, answer);
    }
}

/// Puts the fields of a line.
fn put_fields(line: &Line, answer: &mut Answer) {
    for field in line.fields.as_slice() {
        answer.add(field.bytes());
        answer.add(b";");
    }
}

/// Puts the lines as they are read one after another.
fn put_in_turn(text: &[u8], answer: &mut Answer) {
    let mut rest = text;
    let mut number = 0u32;
    while !rest.is_empty() {
        let (line, more) = first_line(rest);
        number = number.saturating_add(1);
        put_content(number, content_of(line), answer);
        rest = more;
    }
}

/// Puts the number of a line and its fields.
fn put_content(number: u32, content: &[u8], answer: &mut Answer) {
    put_number(number, !is_clean(content), answer);
    let (mut field, mut rest) = first_field(content);
    while !field.is_empty() {
        answer.add(field);
        answer.add(b";");
        (field, rest) = first_field(rest);
    }
}
