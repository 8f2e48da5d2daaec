//! Terms as texts: a character for each column, `0`, `1` or `-`, column 0 first; `.` is the term of no columns.

use case_lines::Answer;
use cover_logic::Term;
use std::alloc::{AllocError, Global};

/// The term with literals at the columns of `care`, which are the bits of `value` there.
pub(crate) fn masked(care: u128, value: u128) -> Term {
    Term {
        care,
        value: value & care,
    }
}

/// The term of a text of at most 128 characters.
fn term(text: &[u8]) -> Option<Term> {
    let mut care: u128 = 0;
    let mut value: u128 = 0;
    let mut bit: u128 = 1;
    for character in text {
        match *character {
            b'0' if bit != 0 => care |= bit,
            b'1' if bit != 0 => {
                care |= bit;
                value |= bit;
            }
            b'-' | b'.' => {}
            _ => return None,
        }
        bit <<= 1;
    }
    Some(masked(care, value))
}

/// Adds the terms of texts that are separated by spaces.
pub(crate) fn add_terms(texts: &str, terms: &mut Vec<Term>) -> Option<()> {
    for text in texts.split_whitespace() {
        terms.push(term(text.as_bytes())?).ok()?;
    }
    Some(())
}

/// The character of a term at a column, which is that of the bit.
fn character(term: Term, bit: u128) -> u8 {
    if term.care & bit == 0 {
        b'-'
    } else if term.value & bit == 0 {
        b'0'
    } else {
        b'1'
    }
}

/// The text of a term.
fn text_of(alloc: Global, term: Term, width: u8) -> Result<Vec<u8>, AllocError> {
    let mut text = Vec::new(alloc);
    if width == 0 {
        text.push(b'.')?;
    }
    let mut bit: u128 = 1;
    for _ in 0..width {
        text.push(character(term, bit))?;
        bit <<= 1;
    }
    Ok(text)
}

/// The texts of terms in ascending order.
fn ordered(alloc: Global, terms: &[Term], width: u8) -> Result<Vec<Vec<u8>>, AllocError> {
    let mut texts = Vec::new(alloc);
    for term in terms {
        texts.push(text_of(alloc, *term, width)?)?;
    }
    texts.sort_unstable();
    Ok(texts)
}

/// Puts texts, separated by spaces.
fn put_texts(texts: &[Vec<u8>], answer: &mut Answer) {
    for (place, item) in texts.iter().enumerate() {
        if place > 0 {
            answer.add(b" ");
        }
        answer.add(item.as_slice());
    }
}

/// Puts the texts of terms in ascending order.
pub(crate) fn put_terms(alloc: Global, terms: &[Term], width: u8, answer: &mut Answer) {
    match ordered(alloc, terms, width) {
        Ok(texts) => put_texts(texts.as_slice(), answer),
        Err(_) => answer.fail(),
    }
}
