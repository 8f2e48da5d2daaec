//! Words of cases.

ghost use Rattle.std.specs.Prelude.{◌≡◌, ◌<◌, ◌≤◌, codes, if◌then◌else◌, length};

use hs_io::{Name, Names};
use std::alloc::{AllocError, Global};

/// Whether the text is the word.
pub fn is_word(text: &[u8], word: &[u8]) -> bool {
    text == word
}

/// The text before the first `mark` and the text after it; the whole text and nothing if there is no `mark`.
pub fn cut(text: &[u8], mark: u8) -> (&[u8], &[u8]) {
    for i in 0..text.len() {
        if text[i] == mark {
            return (&text[..i], &text[i + 1..]);
        }
    }
    (text, &text[text.len()..])
}

/// The pieces of a text between its bytes `mark`.
pub fn pieces(alloc: Global, text: &[u8], mark: u8) -> Result<Names, AllocError> {
    let mut pieces = Names::new(alloc);
    add_pieces(alloc, text, mark, &mut pieces)?;
    Ok(pieces)
}

/// Adds the pieces of a text between its bytes `mark`.
fn add_pieces(alloc: Global, text: &[u8], mark: u8, pieces: &mut Names) -> Result<(), AllocError> {
    for piece in text.split(|byte| *byte == mark) {
        pieces.push(Name::new(alloc, piece)?)?;
    }
    Ok(())
}

/// The number that a word says.
pub fn number(word: &[u8]) -> u64 {
    let mut number = 0u64;
    for byte in word {
        number = number
            .saturating_mul(10)
            .saturating_add(u64::from(byte.saturating_sub(b'0')));
    }
    number
}

/// The number of a line or of words.
pub fn count(word: &[u8]) -> u32 {
    number(word).min(0xffff_ffff) as u32
}

/// A text that is short enough to be read.
pub fn readable(text: &[u8]) -> &[u8]
    ensures { length result.now < 4294967295 }
{
    &text[..text.len().min(0xffff_fffe)]
}

/// The word of a truth value.
pub fn truth(value: bool) -> &'static [u8]
    ensures { result.now ≡ (if value then codes "true" else codes "false") }
{
    if value { b"true" } else { b"false" }
}
