//! The words of a command.

ghost use Rattle.std.specs.Prelude.{◌≡◌, ℕ, ◌<◌, List, [], ◌∷◌, ◌++◌, Some, OnOk, OnErr, length, slice_get};

use hs_io::{Name, Names};
use std::alloc::{AllocError, Global};
use std::marker::Model;

/// The words of a command, in order.
#[derive(Drop)]
pub struct Words {
    alloc: Global,
    words: Names,
}

impl Model for Words {
    ghost Value = { List (List ℕ) };

    ghost view = { λ list. list.words };
}

impl Words {
    /// No words. The list keeps the allocator, and takes no memory.
    pub fn new(alloc: Global) -> Words
        ensures { result ≡ [] }
    {
        Words {
            alloc,
            words: Names::new(alloc),
        }
    }

    /// Adds a word at the end.
    pub fn push(&mut self, word: &[u8]) -> Result<(), AllocError>
        ensures ok { OnOk result (self.new ≡ self.old ++ word.now ∷ []) }
        ensures err { OnErr result (self.new ≡ self.old) }
    {
        let word = Name::new(self.alloc, word)?;
        self.words.push(word)
    }

    /// The number of words.
    pub fn count(&self) -> usize
        ensures { result ≡ length self.now }
    {
        self.words.as_slice().len()
    }

    /// Lends the word of this number, counted from 0.
    pub fn word(&self, i: usize) -> &[u8]
        requires { i < length self.now }
        ensures { slice_get self.now i ≡ Some result.now }
    {
        self.words.as_slice()[i].bytes()
    }
}
