//! The bits that a network computes.

ghost use Rattle.std.specs.Prelude.{◌≡◌, ◌<◌, ◌↔◌, IsTrue, length};
ghost use Rattle.dependence.specs.Bit.{GiveTheSame, IsBit, value_of};

use machine_table::Machine;

/// A bit that a network computes at each step, and so the gate that gives it: the next value of a latch, which
/// is that bit of the code of the next state, or an output. Latches and outputs are counted from 0.
#[derive(Clone, Copy, PartialEq, Eq)]
pub enum Bit {
    Latch(usize),
    Output(u8),
}

impl Bit {
    /// Whether the gate gives the same bit at both states, for each symbol. The words are the codes of the
    /// states.
    pub fn gives_the_same(self, m: &Machine, words: &[u64], s: usize, t: usize) -> bool
        requires words { length words.now ≡ length m.now.states }
        requires bit { IsBit m.now self }
        requires s { s < length m.now.states }
        requires t { t < length m.now.states }
        ensures { IsTrue result ↔ GiveTheSame m.now (value_of m.now words.now self) s t }
    {
        match self {
            Bit::Latch(i) => m.bit_goes(s, t, words, i),
            Bit::Output(b) => m.bit_agrees(s, t, b),
        }
    }
}
