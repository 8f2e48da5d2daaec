//! Words of cases that say numbers and partitions, and the words of answers.

ghost use Rattle.std.specs.Prelude.{◌<◌, ◌≤◌, IfSome};
ghost use Rattle.partition.specs.Partition.{IsStateCount};

use case_lines::Answer;
use partition::{PartFail, Partition};
use std::alloc::{AllocError, Global};

/// The first word, and the words after it.
pub(crate) fn cut(words: &str) -> (&str, &str) {
    words.split_once(' ').unwrap_or((words, ""))
}

/// The number that a word says.
pub(crate) fn number(word: &str) -> Option<usize> {
    word.parse().ok()
}

/// The number of states that a word says.
pub(crate) fn count(word: &str) -> Option<usize>
    ensures { IfSome result IsStateCount }
{
    let n = number(word)?;
    if n > 0 && n <= 256 { Some(n) } else { None }
}

/// The numbers of two states.
pub(crate) fn states(words: &str) -> Option<(usize, usize)> {
    let (s, t) = cut(words);
    match (number(s), number(t)) {
        (Some(s), Some(t)) => Some((s, t)),
        _ => None,
    }
}

/// The label that a word says.
fn label(word: &str) -> Option<u16> {
    match number(word) {
        Some(label) if label <= 65535 => Some(label as u16),
        _ => None,
    }
}

/// The labels that a word says: `-` says none, and `0*300` says 0 three hundred times.
pub(crate) fn labels(alloc: Global, word: &str) -> Option<Vec<u16>> {
    match word.split_once('*') {
        Some((label, times)) => repeated(alloc, label, times),
        None => listed(alloc, word),
    }
}

/// A label, the given number of times.
fn repeated(alloc: Global, word: &str, times: &str) -> Option<Vec<u16>> {
    let label = label(word)?;
    vec![in alloc; label; number(times)?].ok()
}

/// Labels that are separated by commas.
fn listed(alloc: Global, word: &str) -> Option<Vec<u16>> {
    let mut labels = Vec::new(alloc);
    if word == "-" || add_labels(&mut labels, word).is_some() {
        Some(labels)
    } else {
        None
    }
}

/// Adds labels that are separated by commas.
fn add_labels(labels: &mut Vec<u16>, words: &str) -> Option<()> {
    for word in words.split(',') {
        labels.push(label(word)?).ok()?;
    }
    Some(())
}

/// The partition that a word says: its labels, or the name of a partition of n states.
pub(crate) fn part(alloc: Global, word: &str) -> Option<Partition> {
    match word.split_once('*') {
        Some((kind, n)) => named(alloc, kind, count(n)?),
        None => Partition::from_labels(alloc, labels(alloc, word)?.as_slice()).ok(),
    }
}

/// The partition of n states that a word names.
pub(crate) fn named(alloc: Global, kind: &str, n: usize) -> Option<Partition>
    requires { IsStateCount n }
{
    match kind {
        "zero" => Partition::zero(alloc, n).ok(),
        "one" => Partition::one(alloc, n).ok(),
        "even" => neighbours(alloc, n, 0),
        "odd" => neighbours(alloc, n, 1),
        _ => None,
    }
}

/// The partition of n states into pairs of neighbours, of which the first begins with the state `first`.
fn neighbours(alloc: Global, n: usize, first: u16) -> Option<Partition>
    requires n { n ≤ 256 }
    requires first { first ≤ 1 }
{
    let mut labels = Vec::new(alloc);
    for s in 0..n as u16 {
        labels.push((s + first) / 2).ok()?;
    }
    Partition::from_labels(alloc, labels.as_slice()).ok()
}

/// Puts a partition: its labels, or its name if it has more than eight states and is zero or one.
pub(crate) fn put_part(alloc: Global, p: &Partition, answer: &mut Answer) {
    let n = p.len();
    if n > 8 && p.blocks() == n {
        put_name(b"zero*", n, answer);
    } else if n > 8 && p.blocks() == 1 {
        put_name(b"one*", n, answer);
    } else {
        put_labels(alloc, p, answer);
    }
}

/// Puts the name of a partition of n states.
fn put_name(kind: &[u8], n: usize, answer: &mut Answer) {
    answer.add(kind);
    answer.add_number(n as u64);
}

/// Puts the labels of a partition.
fn put_labels(alloc: Global, p: &Partition, answer: &mut Answer) {
    let mut text = Vec::new(alloc);
    if p.show(alloc, &mut text).is_err() {
        answer.fail();
    }
    answer.add(text.as_slice());
}

/// Puts a partition that a call makes.
pub(crate) fn put_made(alloc: Global, made: Result<Partition, AllocError>, answer: &mut Answer) {
    match made {
        Ok(p) => put_part(alloc, &p, answer),
        Err(_) => answer.fail(),
    }
}

/// Puts a partition, or why there is none.
pub(crate) fn put_part_or_fault(
    alloc: Global,
    read: Result<Partition, PartFail>,
    answer: &mut Answer,
) {
    match read {
        Ok(p) => put_part(alloc, &p, answer),
        Err(fail) => answer.add_displayed(format_args!("{fail:?}")),
    }
}

/// Puts a truth.
pub(crate) fn put_truth(holds: bool, answer: &mut Answer) {
    if holds {
        answer.add(b"true");
    } else {
        answer.add(b"false");
    }
}
