//! The worlds of the cases: how words say their values.

ghost use Rattle.std.specs.Prelude.{IfSome};

use crate::numbers::Below;
use crate::rows::{bit_part, put_bit_part};
use crate::words::{part, put_part};
use case_lines::Answer;
use hs_lattice::JoinWorld;
use partition::{BitPart, BitWorld, PartWorld, Partition};
use std::alloc::Global;

/// A world whose values words say.
pub(crate) trait Worded: JoinWorld {
    /// The value that a word says.
    fn value(&self, alloc: Global, word: &str) -> Option<Self::Item>
        ensures { IfSome result (λ item. Self.fits self.now (Self.meaning item)) };

    /// Puts the word of a value.
    fn put_word(&self, alloc: Global, item: &Self::Item, answer: &mut Answer);
}

impl Worded for Below {
    fn value(&self, _alloc: Global, word: &str) -> Option<u16> {
        let x: u16 = word.parse().ok()?;
        if x < self.n { Some(x) } else { None }
    }

    fn put_word(&self, _alloc: Global, item: &u16, answer: &mut Answer) {
        answer.add_number(u64::from(*item));
    }
}

impl Worded for PartWorld {
    fn value(&self, alloc: Global, word: &str) -> Option<Partition> {
        match part(alloc, word) {
            Some(p) if p.len() == self.n => Some(p),
            _ => None,
        }
    }

    fn put_word(&self, alloc: Global, item: &Partition, answer: &mut Answer) {
        put_part(alloc, item, answer);
    }
}

impl Worded for BitWorld {
    fn value(&self, alloc: Global, word: &str) -> Option<BitPart> {
        match bit_part(alloc, word) {
            Some(p) if p.len() == self.n => Some(p),
            _ => None,
        }
    }

    fn put_word(&self, alloc: Global, item: &BitPart, answer: &mut Answer) {
        put_bit_part(alloc, item, answer);
    }
}
