//! A judge of words that looks at each word on its own and counts the words before it.

use crate::words::{is_word, number};
use job_words::{CommandOption, Form, OperandKind, Words, built_forms};

/// The number of the refused word, counted from 1, or 0 where the words are a job.
pub(crate) fn refused_word(words: &Words) -> usize {
    let Some(form) = form_of(words) else {
        return 1;
    };
    for place in 1..words.count() {
        if !can_stand(&form, words, place) {
            return place + 1;
        }
    }
    if operands_before(words, words.count()) < form.operands.len()
        || is_taken(words, words.count())
    {
        return words.count().saturating_add(1);
    }
    0
}

/// The form whose command is the first word.
fn form_of(words: &Words) -> Option<Form> {
    if words.count() == 0 {
        return None;
    }
    for form in built_forms() {
        if form.command.word() == words.word(0) {
            return Some(*form);
        }
    }
    None
}

/// Whether a word can be at its place, after the words before it.
fn can_stand(form: &Form, words: &Words, place: usize) -> bool {
    if place == 0 || place >= words.count() {
        return false;
    }
    let word = words.word(place);
    if is_taken(words, place) {
        return can_be_taken(words.word(place - 1), word);
    }
    if word.starts_with(b"--".as_slice()) {
        return has_option(form, word) && !stands_before(words, place);
    }
    let before = operands_before(words, place);
    !word.is_empty()
        && before < form.operands.len()
        && is_of_kind(form.operands[before], words, place)
}

/// Whether an option takes the word at a place.
fn is_taken(words: &Words, place: usize) -> bool {
    let mut taken = false;
    for i in 1..place.min(words.count()) {
        taken = !taken && takes_word(words.word(i));
    }
    taken
}

/// Whether a word is an option that takes the next word.
fn takes_word(word: &[u8]) -> bool {
    is_word(word, b"--limit")
        || is_word(word, b"--start")
        || is_word(word, b"--fill")
        || is_word(word, b"--clock")
        || is_word(word, b"--model")
}

/// Whether an option can take a word.
fn can_be_taken(option: &[u8], word: &[u8]) -> bool {
    if is_word(option, b"--limit") {
        return is_between(1, 10_000, word);
    }
    if is_word(option, b"--clock") {
        return is_name(word) && !is_word(word, b"NIL");
    }
    if is_word(option, b"--model") {
        return is_name(word);
    }
    is_word(option, b"--start") || is_word(word, b"hold")
}

/// Whether the form has the option that a word names.
fn has_option(form: &Form, word: &[u8]) -> bool {
    for option in form.options {
        let name: &[u8] = match option {
            CommandOption::Limit => b"--limit",
            CommandOption::Reduce => b"--reduce",
            CommandOption::Start => b"--start",
            CommandOption::Fill => b"--fill",
            CommandOption::Names => b"--names",
            CommandOption::Clock => b"--clock",
            CommandOption::Model => b"--model",
        };
        if name == word {
            return true;
        }
    }
    false
}

/// Whether the word at a place also comes before it, as an option.
fn stands_before(words: &Words, place: usize) -> bool {
    for i in 1..place.min(words.count()) {
        if place < words.count() && words.word(i) == words.word(place) && !is_taken(words, i) {
            return true;
        }
    }
    false
}

/// The number of operands before a place.
fn operands_before(words: &Words, place: usize) -> usize {
    let mut count = 0usize;
    for i in 1..place.min(words.count()) {
        if !is_taken(words, i) && !words.word(i).starts_with(b"--".as_slice()) {
            count = count.saturating_add(1);
        }
    }
    count
}

/// Whether the word at a place is an operand of a kind. Here B comes directly after A.
fn is_of_kind(kind: OperandKind, words: &Words, place: usize) -> bool {
    if place == 0 || place >= words.count() {
        return false;
    }
    let word = words.word(place);
    match kind {
        OperandKind::Seed => is_between(0, 999_999_999, word),
        OperandKind::A => is_between(2, 128, word),
        OperandKind::B => {
            is_between(2, 128, word) && product(words.word(place - 1), word) <= 256
        }
        OperandKind::K => is_between(1, 8, word),
        OperandKind::Split => is_split(word),
        OperandKind::J => is_word(word, b"outputs") || is_between(0, 999, word) && word.len() < 4,
        _ => true,
    }
}

/// Whether a word is a kind of split that needs no partitions, or begins as partitions do.
fn is_split(word: &[u8]) -> bool {
    is_word(word, b"code")
        || is_word(word, b"parallel")
        || is_word(word, b"serial")
        || is_word(word, b"cascade")
        || is_word(word, b"feedback")
        || is_word(word, b"least")
        || !word.is_empty() && are_digits(&word[..1])
}

/// The product of two numbers.
fn product(a: &[u8], b: &[u8]) -> u64 {
    number(a).saturating_mul(number(b))
}

/// Whether a word is a number in a range.
fn is_between(low: u64, high: u64, word: &[u8]) -> bool {
    let value = number(word);
    are_digits(word) && !word.is_empty() && word.len() < 10 && low <= value && value <= high
}

/// Whether a word can be a model, or a clock other than `NIL`.
fn is_name(word: &[u8]) -> bool {
    let mut length = 0usize;
    for byte in word {
        if *byte <= b' ' || *byte > b'~' || *byte == b'#' || *byte == b'\\' {
            return false;
        }
        length = length.saturating_add(1);
    }
    length > 0 && length < 65
}

/// Whether each byte is a digit.
fn are_digits(word: &[u8]) -> bool {
    for byte in word {
        if *byte < b'0' || *byte > b'9' {
            return false;
        }
    }
    true
}
