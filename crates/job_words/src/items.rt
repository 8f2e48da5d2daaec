//! What the words after the command are.

ghost use Rattle.std.specs.Prelude.{◌≡◌, ◌+◌, ◌<◌, ◌≤◌, length, drop, ◌∷◌, slice_get};
ghost use Rattle.job_words.specs.Inner.Draft.{item_of};
ghost use Rattle.job_words.specs.Item.{items_of, option_named, takes_word, width_of};

use crate::{CommandOption, Words};

/// An operand, or an option with the word that it takes.
#[derive(Clone, Copy)]
pub enum Entry<'a> {
    /// A word that does not begin as an option.
    Operand(&'a [u8]),
    /// An option and the word that it takes; an option that takes none has the empty word.
    Chosen(CommandOption, &'a [u8]),
    /// An option whose word is missing.
    Lacking(CommandOption),
    /// A word that begins as an option and is not one.
    Unknown,
}

impl<'a> Entry<'a> {
    /// The number of its words.
    pub fn width(&self) -> usize
        ensures { result ≡ width_of (item_of self.now) }
    {
        match self {
            Entry::Chosen(option, _) if takes_word(*option) => 2,
            _ => 1,
        }
    }
}

/// The item that begins at a word.
pub fn item_at(words: &Words, i: usize) -> Entry<'_>
    requires { i < length words.now }
    ensures item { items_of (drop i words.now) ≡ item_of result ∷ items_of
        (drop (i + width_of (item_of result)) words.now) }
    ensures within { i + width_of (item_of result) ≤ length words.now }
{
    let count = words.count();
    let word = words.word(i);
    match named_option(word) {
        None if word.starts_with(b"--".as_slice()) => Entry::Unknown,
        None => Entry::Operand(word),
        Some(option) if !takes_word(option) => Entry::Chosen(option, b""),
        Some(option) if i + 1 < count => Entry::Chosen(option, words.word(i + 1)),
        Some(option) => Entry::Lacking(option),
    }
}

/// The option of a word.
fn named_option(word: &[u8]) -> Option<CommandOption>
    ensures { result ≡ option_named word.now }
{
    if word == b"--limit".as_slice() {
        Some(CommandOption::Limit)
    } else if word == b"--reduce".as_slice() {
        Some(CommandOption::Reduce)
    } else if word == b"--start".as_slice() {
        Some(CommandOption::Start)
    } else if word == b"--fill".as_slice() {
        Some(CommandOption::Fill)
    } else if word == b"--names".as_slice() {
        Some(CommandOption::Names)
    } else if word == b"--clock".as_slice() {
        Some(CommandOption::Clock)
    } else if word == b"--model".as_slice() {
        Some(CommandOption::Model)
    } else {
        None
    }
}

/// Whether an option takes the next word.
fn takes_word(option: CommandOption) -> bool
    ensures { result ≡ takes_word option }
{
    match option {
        CommandOption::Limit
        | CommandOption::Start
        | CommandOption::Fill
        | CommandOption::Clock
        | CommandOption::Model => true,
        CommandOption::Reduce | CommandOption::Names => false,
    }
}
