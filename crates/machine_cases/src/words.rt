//! Words of cases that say partitions, and the words of answers.

ghost use Rattle.std.specs.Prelude.{IfSome};
ghost use Rattle.partition.specs.Partition.{IsPartition};

use case_lines::Answer;
use partition::Partition;
use std::alloc::Global;

/// The first word, and the words after it.
pub(crate) fn cut(words: &str) -> (&str, &str) {
    words.split_once(' ').unwrap_or((words, ""))
}

/// The number that a word says.
pub(crate) fn number(word: &str) -> Option<u8> {
    word.parse().ok()
}

/// The partition of n members that a word says.
pub(crate) fn part(alloc: Global, word: &str, n: usize) -> Option<Partition>
    ensures { IfSome result (IsPartition n) }
{
    if n == 0 || n > 256 {
        return None;
    }
    match Partition::parse(alloc, word.as_bytes(), n) {
        Ok(part) => Some(part),
        Err(_) => None,
    }
}

/// Puts nothing in the first place and a space in the others.
pub(crate) fn put_between(place: usize, answer: &mut Answer) {
    if place > 0 {
        answer.add(b" ");
    }
}

/// Puts a partition.
pub(crate) fn put_part(alloc: Global, p: &Partition, answer: &mut Answer) {
    let mut text = Vec::new(alloc);
    if p.show(alloc, &mut text).is_err() {
        answer.fail();
    }
    answer.add(text.as_slice());
}

/// Puts partitions with a space between each two.
pub(crate) fn put_partitions(alloc: Global, list: &[Partition], answer: &mut Answer) {
    for (place, p) in list.iter().enumerate() {
        put_between(place, answer);
        put_part(alloc, p, answer);
    }
}
