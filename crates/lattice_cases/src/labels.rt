//! The calls of `Partition`.

ghost use Rattle.std.specs.Prelude.{◌≡◌, ◌<◌, length};
ghost use Rattle.partition.specs.Partition.{IsStateCount};

use crate::words::{
    count, cut, labels, named, number, part, put_made, put_part, put_part_or_fault, put_truth,
    states,
};
use case_lines::Answer;
use partition::{Partition, parse_of_show};
use std::alloc::Global;

/// Puts what a call answers.
pub(crate) fn put_answer(alloc: Global, call: &str, words: &str, answer: &mut Answer) {
    let (first, rest) = cut(words);
    match call {
        "from_labels" => put_from_labels(alloc, words, answer),
        "zero" | "one" => put_of_count(alloc, call, words, "", answer),
        "parse" | "hold" => put_of_count(alloc, call, first, rest, answer),
        "len" | "blocks" | "copy" | "parse_of_show" | "complement" => {
            put_of_word(alloc, call, words, "", answer);
        }
        _ => put_of_word(alloc, call, first, rest, answer),
    }
}

/// Puts the partition with labels.
fn put_from_labels(alloc: Global, words: &str, answer: &mut Answer) {
    match labels(alloc, words) {
        Some(labels) => {
            let read = Partition::from_labels(alloc, labels.as_slice());
            put_part_or_fault(alloc, read, answer);
        }
        None => answer.fail(),
    }
}

/// Puts the partition that words say of the number of states in the first one.
fn put_of_count(alloc: Global, call: &str, n: &str, words: &str, answer: &mut Answer) {
    match count(n) {
        Some(n) => put_of_size(alloc, call, n, words, answer),
        None => answer.fail(),
    }
}

/// Puts the partition of n states that a call and its further words say.
fn put_of_size(alloc: Global, call: &str, n: usize, words: &str, answer: &mut Answer)
    requires { IsStateCount n }
{
    match call {
        "parse" => put_part_or_fault(alloc, Partition::parse(alloc, words.as_bytes(), n), answer),
        "hold" => put_hold(alloc, n, words, answer),
        _ => put_named(alloc, call, n, answer),
    }
}

/// Puts the partition in which two states are together.
fn put_hold(alloc: Global, n: usize, words: &str, answer: &mut Answer)
    requires { IsStateCount n }
{
    match states(words) {
        Some((s, t)) if s < n && t < n => put_made(alloc, Partition::hold(alloc, n, s, t), answer),
        _ => answer.fail(),
    }
}

/// Puts the partition of n states that a word names.
fn put_named(alloc: Global, kind: &str, n: usize, answer: &mut Answer)
    requires { IsStateCount n }
{
    match named(alloc, kind, n) {
        Some(p) => put_part(alloc, &p, answer),
        None => answer.fail(),
    }
}

/// Puts what is asked of the partition that a word says and of the words after it.
fn put_of_word(alloc: Global, call: &str, word: &str, words: &str, answer: &mut Answer) {
    match part(alloc, word) {
        Some(mut p) => put_of_part(alloc, call, &mut p, words, answer),
        None => answer.fail(),
    }
}

/// Puts what is asked of a partition and of the words after it.
fn put_of_part(alloc: Global, call: &str, p: &mut Partition, words: &str, answer: &mut Answer) {
    match call {
        "label" => put_label(p, words, answer),
        "same" | "merge" => put_of_states(alloc, call, p, words, answer),
        "len" | "blocks" | "copy" | "parse_of_show" | "complement" => {
            put_of_one(alloc, call, p, answer);
        }
        _ => put_of_second(alloc, call, p, words, answer),
    }
}

/// Puts what is asked of one partition.
fn put_of_one(alloc: Global, call: &str, p: &Partition, answer: &mut Answer) {
    match call {
        "len" => answer.add_number(p.len() as u64),
        "blocks" => answer.add_number(p.blocks() as u64),
        "copy" => put_made(alloc, p.copy(alloc), answer),
        "complement" => put_made(alloc, p.complement(alloc), answer),
        _ => put_part_or_fault(alloc, parse_of_show(alloc, p), answer),
    }
}

/// Puts the label of the state that a word says.
fn put_label(p: &Partition, word: &str, answer: &mut Answer) {
    match number(word) {
        Some(s) if s < p.len() => answer.add_number(u64::from(p.label(s))),
        _ => answer.fail(),
    }
}

/// Puts what is asked of a partition and of two of its states, which words say.
fn put_of_states(alloc: Global, call: &str, p: &mut Partition, words: &str, answer: &mut Answer) {
    match states(words) {
        Some((s, t)) if s < p.len() && t < p.len() => {
            put_at_states(alloc, call, p, s, t, answer);
        }
        _ => answer.fail(),
    }
}

/// Puts what is asked of two states of a partition.
fn put_at_states(
    alloc: Global,
    call: &str,
    p: &mut Partition,
    s: usize,
    t: usize,
    answer: &mut Answer,
)
    requires s { s < length p.old }
    requires t { t < length p.old }
{
    if call == "same" {
        put_truth(p.same(s, t), answer);
    } else {
        p.merge(s, t);
        put_part(alloc, p, answer);
    }
}

/// Puts what is asked of a partition and of the one that a word says.
fn put_of_second(alloc: Global, call: &str, p: &Partition, word: &str, answer: &mut Answer) {
    match part(alloc, word) {
        Some(q) => put_of_two(alloc, call, p, &q, answer),
        None => answer.fail(),
    }
}

/// Puts what is asked of two partitions.
fn put_of_two(alloc: Global, call: &str, p: &Partition, q: &Partition, answer: &mut Answer) {
    if call == "equal" {
        put_truth(p.equal(q), answer);
    } else if p.len() == q.len() {
        put_compared(alloc, call, p, q, answer);
    } else {
        answer.fail();
    }
}

/// Puts how two partitions of the same states compare, or their meet or join, or the one inside the other.
fn put_compared(alloc: Global, call: &str, p: &Partition, q: &Partition, answer: &mut Answer)
    requires { length q.now ≡ length p.now }
{
    match call {
        "le" => put_truth(p.le(q), answer),
        "before" => put_truth(p.before(q), answer),
        "meet" => put_made(alloc, p.meet(alloc, q), answer),
        "join" => put_made(alloc, p.join(alloc, q), answer),
        "inside" if q.le(p) => put_made(alloc, p.inside(alloc, q), answer),
        _ => answer.fail(),
    }
}
