//! Covers of functions of two columns, judged by trying all four values. A set of values is a number with value
//! v at 2^v. The bits of v are its columns.

use crate::gates::rows;
use crate::terms::masked;
use case_lines::Answer;
use cover_logic::Term;
use std::alloc::Global;

/// Puts the number of the functions of two columns, with free values, that have a good cover. The answer fails where
/// one of them has no cover.
pub(crate) fn put_functions(alloc: Global, words: &str, answer: &mut Answer) {
    if words != "of two columns" {
        answer.fail();
    }
    let mut good = 0u64;
    for pair in 0..256u32 {
        match is_good(alloc, (pair % 16) as u8, (pair / 16) as u8) {
            Some(true) => good = good.wrapping_add(1),
            Some(false) => {}
            None => answer.fail(),
        }
    }
    answer.add_number(good);
}

/// Whether two sets of values are those that are on and those that are off in a function that has a good cover. Sets
/// with a value in common are in no function.
fn is_good(alloc: Global, on: u8, off: u8) -> Option<bool> {
    if on & off != 0 {
        return Some(false);
    }
    let mut ones = Vec::new(alloc);
    let mut zeros = Vec::new(alloc);
    add_values(on, &mut ones)?;
    add_values(off, &mut zeros)?;
    let rows = rows(alloc, &ones, &zeros, 2)?;
    Some(are_good(rows.as_slice(), on, off))
}

/// Adds the values of a set.
fn add_values(set: u8, list: &mut Vec<Term>) -> Option<()> {
    for value in 0..4u32 {
        if set >> value & 1 == 1 {
            list.push(masked(3, u128::from(value))).ok()?;
        }
    }
    Some(())
}

/// The values that the literal of a term at a column holds: all values if it has no literal there.
fn held_at(term: Term, column: u8) -> u8 {
    let (zeros, ones) = if column == 0 {
        (0b0101, 0b1010)
    } else {
        (0b0011, 0b1100)
    };
    let bit = 1u128 << (column & 1);
    if term.care & bit == 0 {
        0b1111
    } else if term.value & bit == 0 {
        zeros
    } else {
        ones
    }
}

/// The values that some term holds.
fn held_by_any(terms: &[Term]) -> u8 {
    let mut held = 0;
    for term in terms {
        held |= held_at(*term, 0) & held_at(*term, 1);
    }
    held
}

/// The values that two terms or more hold.
fn held_twice(terms: &[Term]) -> u8 {
    let mut once = 0;
    let mut twice = 0;
    for term in terms {
        let held = held_at(*term, 0) & held_at(*term, 1);
        twice |= once & held;
        once |= held;
    }
    twice
}

/// Whether a row holds a value of on that no other row holds, and each of its literals excludes a value of off.
fn is_needed(row: Term, twice: u8, on: u8, off: u8) -> bool {
    let (first, second) = (held_at(row, 0), held_at(row, 1));
    let alone = first & second & on & !twice != 0;
    let keeps_first = row.care & 1 == 0 || second & off != 0;
    let keeps_second = row.care & 2 == 0 || first & off != 0;
    alone && keeps_first && keeps_second
}

/// Whether rows hold each value of on and none of off, and each row and literal is needed.
fn are_good(rows: &[Term], on: u8, off: u8) -> bool {
    let held = held_by_any(rows);
    let twice = held_twice(rows);
    for row in rows {
        if !is_needed(*row, twice, on, off) {
            return false;
        }
    }
    held & on == on && held & off == 0
}
