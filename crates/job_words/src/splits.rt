//! The words that name a split, and a machine of it.

ghost use Rattle.std.specs.Prelude.{◌≡◌, ◌&&◌};
ghost use Rattle.std.specs.List.{list_any};
ghost use Rattle.std.specs.Str.{bytes_eq};
ghost use Rattle.job_words.specs.Command.{command_word};
ghost use Rattle.job_words.specs.SplitWords.{
  begins_with_digit,
  has_few_slashes,
  is_split_word,
  names_outputs,
  split_commands,
};

use crate::Command;

/// The commands that split a machine and need no partitions for it.
const SPLITS: [Command; 6] = [
    Command::Code,
    Command::Parallel,
    Command::Serial,
    Command::Cascade,
    Command::Feedback,
    Command::Least,
];

/// Whether a word can be the operand SPLIT.
pub fn is_split(word: &[u8]) -> bool
    ensures { result ≡ (is_split_word word.now && has_few_slashes word.now) }
{
    (is_of_split(word) || begins_with_digit(word)) && has_few_slashes(word)
}

/// Whether a word is that of a command that needs no partitions.
fn is_of_split(word: &[u8]) -> bool
    ensures { result ≡ list_any (λ command. bytes_eq word.now (command_word command)) split_commands }
{
    SPLITS.iter().any(|command| word == command.word())
}

/// Whether the first byte of a word is a digit.
fn begins_with_digit(word: &[u8]) -> bool
    ensures { result ≡ begins_with_digit word.now }
{
    match word {
        [] => false,
        [first, ..] => first.is_ascii_digit(),
    }
}

/// Whether a word has at most 255 slashes.
pub fn has_few_slashes(word: &[u8]) -> bool
    ensures { result ≡ has_few_slashes word.now }
{
    word.iter().filter(|byte| **byte == b'/').count() <= 255
}

/// Whether a word names the machine of the outputs.
pub fn names_outputs(word: &[u8]) -> bool
    ensures { result ≡ names_outputs word.now }
{
    word == b"outputs".as_slice()
}
