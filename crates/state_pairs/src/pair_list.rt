//! Pairs of states in a list that has each of them once.
//!
//! A table with a bit for each pair of states says which pairs are in the list.
ghost use Rattle.std.specs.Prelude.{◌≡◌, ◌≢◌, ◌<◌, ◌≤◌, ◌↔◌, AllPairs, Contains, IfOk, IsTrue, OnErr, OnOk, Some, []};
ghost use Rattle.state_pairs.specs.AddedPairs.{AddsPairs, IsFound};

use std::alloc::{AllocError, Global};
use std::marker::Model;

/// Pairs of states, each once. Contracts see the pairs in order, and the number of states.
#[derive(Drop)]
pub struct PairList {
    pairs: Vec<(u16, u16)>,
    /// Which pairs are in the list: four words for each first state, with a bit for each second state.
    seen: Vec<u64>,
    states: usize,
}

impl Model for PairList {
    ghost use Rattle.state_pairs.specs.SeenPairs.{AreSeen, PairsOf};

    ghost Value = { PairsOf };

    ghost view = { λ l. record { pairs = l.pairs.items; states = l.states } };

    ghost invariant = { λ l. AreSeen l.pairs.items l.seen.items l.states };
}

impl PairList {
    /// The empty list of pairs of that many states.
    pub fn new(alloc: Global, states: usize) -> Result<PairList, AllocError>
        requires { states ≤ 256 }
        ensures pairs { IfOk result (λ list. list.pairs ≡ []) }
        ensures states { IfOk result (λ list. list.states ≡ states) }
    {
        Ok(PairList {
            pairs: Vec::new(alloc),
            seen: vec![in alloc; 0u64; states * 4]?,
            states,
        })
    }

    /// Adds the pair, unless it is in the list. The answer is whether it was added.
    pub(crate) fn add(&mut self, pair: (u16, u16)) -> Result<bool, AllocError>
        requires first { pair.0 < self.old.states }
        requires second { pair.1 < self.old.states }
        ensures pairs { OnOk result (AddsPairs (IsFound (Some pair)) self.old.pairs self.new.pairs) }
        ensures added { IfOk result (λ added. IsTrue added ↔ (¬ Contains self.old.pairs pair)) }
        ensures states { self.new.states ≡ self.old.states }
        ensures err { OnErr result (self.new ≡ self.old) }
    {
        let word = usize::from(pair.0) * 4 + usize::from(pair.1) / 64;
        let place = pair.1 % 64;
        if (self.seen[word] >> place) & 1 == 1 {
            return Ok(false);
        }
        self.pairs.push(pair)?;
        self.seen[word] |= 1u64 << place;
        Ok(true)
    }

    /// The pairs, in the order in which they were added.
    pub fn as_slice(&self) -> &[(u16, u16)]
        ensures { result.now ≡ self.now.pairs }
    {
        self.pairs.as_slice()
    }

    /// The pairs.
    pub fn into_pairs(self) -> Vec<(u16, u16)>
        ensures pairs { result.items ≡ self.pairs }
        ensures once { AllPairs (λ a b. a ≢ b) self.pairs }
    {
        self.pairs
    }
}
