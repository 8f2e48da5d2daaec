//! Sets of states as four words of bits.

ghost use Rattle.std.specs.Prelude.{
  ◌≡◌,
  ℕ,
  ◌+◌,
  ◌-◌,
  ◌%◌,
  ◌^◌,
  ◌<◌,
  ◌≤◌,
  ◌≢◌,
  ◌↔◌,
  min,
  max,
  IsTrue,
  IfSome,
  IfNone,
  take,
  length,
  slice_index,
};
ghost use Rattle.partition.specs.Bits.{bit_of};
ghost use Rattle.partition.specs.Inner.Rows.{Has, four_of};

use std::marker::Model;

/// A set of states below 256, a bit for each.
#[derive(Clone, Copy)]
pub struct StateSet {
    words: [u64; 4],
}

impl Model for StateSet {
    ghost use Rattle.std.specs.Prelude.{List, ℕ};

    ghost Value = { List ℕ };

    ghost view = { λ a. a.words };

    ghost inverse = { λ words. record { words = words } };
}

impl StateSet {
    /// The states whose bits are in up to four words.
    pub fn of(words: &[u64]) -> StateSet
        ensures { result ≡ four_of words.now }
    {
        StateSet {
            words: [
                word_at(words, 0),
                word_at(words, 1),
                word_at(words, 2),
                word_at(words, 3),
            ],
        }
    }

    /// Removes a state from the set.
    pub fn remove(&mut self, t: usize)
        requires { t < 256 }
        ensures out { bit_of self.new t ≡ 0 }
        ensures others { (u : ℕ) → u ≢ t → bit_of self.new u ≡ bit_of self.old u }
    {
        self.words[t / 64] &= !(1 << (t % 64));
    }

    /// The least state of the set.
    pub fn first(&self) -> Option<usize>
        ensures some { IfSome result (λ t. Has self.now t) }
        ensures least { IfSome result (λ t. (u : ℕ) → u < t → bit_of self.now u ≡ 0) }
        ensures none { IfNone result ((t : ℕ) → bit_of self.now t ≡ 0) }
    {
        first_bit(self.words.as_slice())
    }
}

/// The least bit that is 1 in up to four words.
pub fn first_bit(words: &[u64]) -> Option<usize>
    requires { length words.now ≤ 4 }
    ensures some { IfSome result (λ t. Has words.now t) }
    ensures least { IfSome result (λ t. (u : ℕ) → u < t → bit_of words.now u ≡ 0) }
    ensures none { IfNone result ((t : ℕ) → bit_of words.now t ≡ 0) }
{
    for (i, word) in words.iter().enumerate() {
        if *word != 0 {
            return Some(i * 64 + word.trailing_zeros() as usize);
        }
    }
    None
}

/// A word, or 0 past the last word.
fn word_at(words: &[u64], i: usize) -> u64
    ensures { result ≡ slice_index words.now i }
{
    if i < words.len() { words[i] } else { 0 }
}
