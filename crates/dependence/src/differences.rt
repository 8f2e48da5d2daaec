//! What tells two states apart, asked once for all latches.

ghost use Rattle.std.specs.Prelude.{◌≡◌, ◌↔◌, ◌+◌, ◌*◌, ◌<◌, ◌≤◌, ℕ, List, Contains, IfOk, IsTrue, OnOk, length};
ghost use Rattle.kiss_file.specs.declared.file.KissFile.{KissFile};
ghost use Rattle.dependence.specs.Bit.{GiveTheSame, IsBit, value_of};
ghost use Rattle.dependence.specs.Inner.Differences.{AreFound, DifferInPair, IsDifference};
ghost use Rattle.dependence.specs.SufficientBits.{InWord};

use crate::bit::Bit;
use crate::words::has_bit;
use machine_table::Machine;
use std::alloc::{AllocError, Global};

/// The most states of a machine.
const MOST_STATES: usize = 256;

/// The latches that tell two states apart, for pairs of states that were compared. A latch tells them apart
/// where its gate gives different bits at the two states and some symbol.
#[derive(Drop)]
pub(crate) struct Differences {
    found: Vec<Option<u64>>,
}

impl Differences {
    /// No two states were compared yet.
    pub(crate) fn new(alloc: Global, states: usize) -> Result<Differences, AllocError>
        requires { states ≤ 256 }
        ensures { (F : KissFile) (words : List ℕ) → length F.states ≡ states
            → IfOk result (λ differences. AreFound F words differences.found.items) }
    {
        Ok(Differences {
            found: vec![in alloc; None; MOST_STATES * states]?,
        })
    }

    /// Whether the gate gives the same bit at both states, for each symbol. What tells the states apart is found
    /// for all latches at once, and kept.
    pub(crate) fn gives_the_same(
        &mut self,
        alloc: Global,
        m: &Machine,
        words: &[u64],
        gate: Bit,
        s: usize,
        t: usize,
    ) -> Result<bool, AllocError>
        requires words { length words.now ≡ length m.now.states }
        requires gate { IsBit m.now gate }
        requires s { s < length m.now.states }
        requires t { t < length m.now.states }
        requires found { AreFound m.now words.now self.old.found.items }
        ensures same { IfOk result (λ same. IsTrue same ↔ GiveTheSame m.now (value_of m.now words.now gate) s t) }
        ensures found { OnOk result (AreFound m.now words.now self.new.found.items) }
    {
        match gate {
            Bit::Latch(i) => {
                let latches = self.latches(alloc, m, words, s, t)?;
                Ok(!has_bit(latches, i as u32))
            }
            Bit::Output(_) => Ok(gate.gives_the_same(m, words, s, t)),
        }
    }

    /// The latches that tell the two states apart.
    fn latches(
        &mut self,
        alloc: Global,
        m: &Machine,
        words: &[u64],
        s: usize,
        t: usize,
    ) -> Result<u64, AllocError>
        requires words { length words.now ≡ length m.now.states }
        requires s { s < length m.now.states }
        requires t { t < length m.now.states }
        requires found { AreFound m.now words.now self.old.found.items }
        ensures latches { IfOk result (IsDifference m.now words.now s t) }
        ensures found { OnOk result (AreFound m.now words.now self.new.found.items) }
    {
        m.keeps_its_states();
        let place = place_of(s, t);
        if let Some(latches) = self.found[place] {
            return Ok(latches);
        }
        let images = m.image_pairs(alloc, s, t)?;
        let latches = bits_apart(words, images.as_slice());
        self.found[place] = Some(latches);
        Ok(latches)
    }
}

/// The place of two states in the table.
fn place_of(s: usize, t: usize) -> usize
    requires s { s < 256 }
    requires t { t < 256 }
    ensures { result ≡ 256 * s + t }
{
    MOST_STATES * s + t
}

/// The bits at which the words of the two states of some pair differ.
fn bits_apart(words: &[u64], pairs: &[(u16, u16)]) -> u64
    requires { (u v : ℕ) → Contains pairs.now (u, v) → (u < length words.now) × (v < length words.now) }
    ensures { (i : ℕ) → InWord result i ↔ DifferInPair words.now pairs.now i }
{
    let mut apart = 0;
    for (u, v) in pairs {
        apart |= words[usize::from(*u)] ^ words[usize::from(*v)];
    }
    apart
}
