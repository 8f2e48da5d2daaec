//! The calls of `cover_logic`. A gate is its width and the lists of its terms, those that are on and those that are
//! off.

ghost use Rattle.std.specs.Prelude.{◌≤◌};
ghost use Rattle.cover_logic.specs.TermCover.{CanCover};

use crate::functions::put_functions;
use crate::terms::{add_terms, masked, put_terms};
use crate::words::{cut, number};
use case_lines::Answer;
use cover_logic::{Term, can_cover, cover};
use std::alloc::Global;

/// Puts what a call answers.
pub(crate) fn put_answer(alloc: Global, call: &str, words: &str, answer: &mut Answer) {
    if call == "functions" {
        put_functions(alloc, words, answer);
    } else {
        put_of_gate(alloc, call, words, answer);
    }
}

/// Puts what a call asks of the gate that words say.
fn put_of_gate(alloc: Global, call: &str, words: &str, answer: &mut Answer) {
    let mut on = Vec::new(alloc);
    let mut off = Vec::new(alloc);
    match add_gate(call, words, &mut on, &mut off) {
        Some(width) => put_asked(alloc, call, &on, &off, width, answer),
        None => answer.fail(),
    }
}

/// Adds the terms of the gate that words say for a call, and gives its width.
fn add_gate(call: &str, words: &str, on: &mut Vec<Term>, off: &mut Vec<Term>) -> Option<u8> {
    match call {
        "can" | "cover" => add_lists(words, on, off),
        "first" => add_columns(words, false, on, off),
        "odd" => add_columns(words, true, on, off),
        _ => None,
    }
}

/// The small number that a word says.
fn small(word: &str) -> Option<u8> {
    match number(word) {
        Some(number) if number <= 255 => Some(number as u8),
        _ => None,
    }
}

/// Adds the terms of the words `WIDTH on TERMS off TERMS`, and gives the width.
fn add_lists(words: &str, on: &mut Vec<Term>, off: &mut Vec<Term>) -> Option<u8> {
    let (width, lists) = words.split_once(" on")?;
    let (front, back) = lists.split_once(" off")?;
    add_terms(front, on)?;
    add_terms(back, off)?;
    small(width)
}

/// Adds the values of the words `WIDTH COLUMNS`, with at most 12 columns, and gives the width.
fn add_columns(words: &str, odd: bool, on: &mut Vec<Term>, off: &mut Vec<Term>) -> Option<u8> {
    let (width, columns) = cut(words);
    let columns = small(columns)?;
    if columns > 12 {
        return None;
    }
    add_values(columns, odd, on, off)?;
    small(width)
}

/// Adds the values of columns: on where they have an odd number of ones, or else where column 0 is 1, and off
/// elsewhere.
fn add_values(columns: u8, odd: bool, on: &mut Vec<Term>, off: &mut Vec<Term>) -> Option<()>
    requires { columns ≤ 12 }
{
    let end = 1u32 << columns;
    for value in 0..end {
        let ones = if odd { value.count_ones() } else { value };
        let term = masked(u128::from(end - 1), u128::from(value));
        if ones % 2 == 1 {
            on.push(term).ok()?;
        } else {
            off.push(term).ok()?;
        }
    }
    Some(())
}

/// Puts what a call asks of a gate.
fn put_asked(alloc: Global, call: &str, on: &[Term], off: &[Term], width: u8, answer: &mut Answer) {
    if call != "can" {
        put_covered(alloc, call, on, off, width, answer);
    } else if can_cover(on, off, width) {
        answer.add(b"yes");
    } else {
        answer.add(b"no");
    }
}

/// The rows of a cover, if there is one and if a second cover has the same rows in the same order.
pub(crate) fn rows(alloc: Global, on: &[Term], off: &[Term], width: u8) -> Option<Vec<Term>> {
    if !can_cover(on, off, width) {
        return None;
    }
    match cover(alloc, on, off, width) {
        Ok(rows) if is_made_again(alloc, on, off, width, rows.as_slice()) => Some(rows),
        _ => None,
    }
}

/// Whether another cover of the gate has these rows in this order.
fn is_made_again(alloc: Global, on: &[Term], off: &[Term], width: u8, rows: &[Term]) -> bool
    requires { CanCover width on.now off.now }
{
    match cover(alloc, on, off, width) {
        Ok(again) => again.as_slice() == rows,
        Err(_) => false,
    }
}

/// Puts what a call asks of the rows of a gate.
fn put_covered(
    alloc: Global,
    call: &str,
    on: &[Term],
    off: &[Term],
    width: u8,
    answer: &mut Answer,
) {
    match rows(alloc, on, off, width) {
        Some(rows) if call == "odd" => put_count(on, rows.as_slice(), answer),
        Some(rows) => put_terms(alloc, rows.as_slice(), width, answer),
        None => answer.fail(),
    }
}

/// Puts the number of rows, if each of the terms is a row.
fn put_count(terms: &[Term], rows: &[Term], answer: &mut Answer) {
    if are_among(terms, rows) {
        answer.add_number(rows.len() as u64);
    } else {
        answer.fail();
    }
}

/// Whether each term is a row.
fn are_among(terms: &[Term], rows: &[Term]) -> bool {
    for term in terms {
        if !is_among(*term, rows) {
            return false;
        }
    }
    true
}

/// Whether a term is a row.
fn is_among(term: Term, rows: &[Term]) -> bool {
    for row in rows {
        if row.care == term.care && row.value == term.value {
            return true;
        }
    }
    false
}
