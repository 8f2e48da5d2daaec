//! The calls of `BitPart`.

ghost use Rattle.std.specs.Prelude.{◌≡◌, ◌<◌, length};

use crate::words::{cut, number, part, put_made, put_truth, states};
use case_lines::Answer;
use partition::BitPart;
use std::alloc::{AllocError, Global};

/// Puts what a call answers.
pub(crate) fn put_answer(alloc: Global, call: &str, words: &str, answer: &mut Answer) {
    let (first, rest) = cut(words);
    match call {
        "rows_of" | "rows_len" | "rows_blocks" | "rows_copy" => {
            put_of_word(alloc, call, words, "", answer);
        }
        _ => put_of_word(alloc, call, first, rest, answer),
    }
}

/// Puts what is asked of the partition that a word says and of the words after it.
fn put_of_word(alloc: Global, call: &str, word: &str, words: &str, answer: &mut Answer) {
    match bit_part(alloc, word) {
        Some(p) => put_of_part(alloc, call, &p, words, answer),
        None => answer.fail(),
    }
}

/// The partition that a word says, with rows of bits.
pub(crate) fn bit_part(alloc: Global, word: &str) -> Option<BitPart> {
    match part(alloc, word) {
        Some(p) => BitPart::of(alloc, &p).ok(),
        None => None,
    }
}

/// Puts a partition with rows of bits.
pub(crate) fn put_bit_part(alloc: Global, p: &BitPart, answer: &mut Answer) {
    put_made(alloc, p.labels(alloc), answer);
}

/// Puts a partition with rows of bits that a call makes.
fn put_made_rows(alloc: Global, made: Result<BitPart, AllocError>, answer: &mut Answer) {
    match made {
        Ok(p) => put_bit_part(alloc, &p, answer),
        Err(_) => answer.fail(),
    }
}

/// Puts what is asked of a partition and of the words after it.
fn put_of_part(alloc: Global, call: &str, p: &BitPart, words: &str, answer: &mut Answer) {
    match call {
        "rows_of" => put_bit_part(alloc, p, answer),
        "rows_len" => answer.add_number(p.len() as u64),
        "rows_blocks" => answer.add_number(p.blocks() as u64),
        "rows_copy" => put_made_rows(alloc, p.copy(alloc), answer),
        "row" => put_of_state(p, words, answer),
        "rows_same" => put_of_states(p, words, answer),
        _ => put_of_second(alloc, call, p, words, answer),
    }
}

/// Puts the row of the state that a word says.
fn put_of_state(p: &BitPart, word: &str, answer: &mut Answer) {
    match number(word) {
        Some(s) if s < p.len() => put_row(p.row(s), answer),
        _ => answer.fail(),
    }
}

/// Puts whether the two states that words say are together.
fn put_of_states(p: &BitPart, words: &str, answer: &mut Answer) {
    match states(words) {
        Some((s, t)) if s < p.len() && t < p.len() => put_truth(p.same(s, t), answer),
        _ => answer.fail(),
    }
}

/// Puts the words of a row.
fn put_row(row: &[u64], answer: &mut Answer) {
    for word in row {
        answer.add_displayed(format_args!("{word:x};"));
    }
}

/// Puts what is asked of a partition and of the one that a word says.
fn put_of_second(alloc: Global, call: &str, p: &BitPart, word: &str, answer: &mut Answer) {
    match bit_part(alloc, word) {
        Some(q) => put_of_two(alloc, call, p, &q, answer),
        None => answer.fail(),
    }
}

/// Puts what is asked of two partitions.
fn put_of_two(alloc: Global, call: &str, p: &BitPart, q: &BitPart, answer: &mut Answer) {
    if call == "rows_equal" {
        put_truth(p.equal(q), answer);
    } else if p.len() == q.len() {
        put_compared(alloc, call, p, q, answer);
    } else {
        answer.fail();
    }
}

/// Puts how two partitions of the same states compare, or their meet or join.
fn put_compared(alloc: Global, call: &str, p: &BitPart, q: &BitPart, answer: &mut Answer)
    requires { length q.now ≡ length p.now }
{
    match call {
        "rows_before" => put_truth(p.before(q), answer),
        "rows_meet" => put_made_rows(alloc, p.meet(alloc, q), answer),
        "rows_join" => put_made_rows(alloc, p.join(alloc, q), answer),
        _ => answer.fail(),
    }
}
