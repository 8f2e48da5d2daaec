//! The questions about two states at all symbols.
ghost use Rattle.std.specs.Prelude.{ℕ, ◌≡◌, ◌<◌, ◌≤◌, ◌^◌, ◌↔◌, IfNone, IfSome, IsNone, IsTrue, length};
ghost use Rattle.kiss_file.specs.Machine.{Specified};
ghost use Rattle.partition.specs.Partition.{Together};
ghost use Rattle.machine_table.specs.Inner.OpenSymbol.{SaysAll};
ghost use Rattle.state_pairs.specs.RowLabels.{DifferAt, HaveOneLabel, NoneIsOpen};
ghost use Rattle.state_rows.specs.Least.{IsMetBy};
ghost use Rattle.state_pairs.specs.Pairs.{AgreeAt, AgreeInBit, AtEachSymbol, GoInto, HaveOneBit, IsFirstWithout};

use crate::Machine;
use crate::open_entry::all_outputs;
use partition::Partition;
use state_pairs::{OutputBit, OutputWord, Question, Search, WordBits, is_settled, lesser};

impl Machine {
    /// A symbol at which the answer differs between the states.
    fn first_differing<Q: Question>(&self, search: &Search<'_, Q>) -> Option<u32>
        requires s { search.now.s < length self.now.states }
        requires t { search.now.t < length self.now.states }
        requires known { length self.now.states ≤ Q.states search.now.question.now }
        requires one { HaveOneLabel (Q.said search.now.question.now) self.now }
        requires none_open { Specified self.now
            → NoneIsOpen (Q.said search.now.question.now) self.now search.now.s search.now.t }
        ensures some { IfSome result
            (DifferAt (Q.said search.now.question.now)
            (Q.unsaid search.now.question.now) self.now search.now.s search.now.t) }
        ensures within { IfSome result (λ x. x < 2 ^ self.now.inputs) }
        ensures met { (y : ℕ)
            → DifferAt (Q.said search.now.question.now)
            (Q.unsaid search.now.question.now) self.now search.now.s search.now.t y
            → IsMetBy result search.now.least y }
    {
        let found = self.rows.first_said(search);
        if is_settled(found, search.least) {
            return found;
        }
        if self.is_complete() {
            return found;
        }
        lesser(found, self.rows.first_open_differing(search))
    }

    /// Whether the next states are together in the partition at each symbol.
    pub fn pair_goes(&self, s: usize, t: usize, q: &Partition) -> bool
        requires s { s < length self.now.states }
        requires t { t < length self.now.states }
        requires states { length q.now ≡ length self.now.states }
        ensures { IsTrue result ↔ AtEachSymbol self.now.inputs (GoInto (Together q.now) self.now s t) }
    {
        self.keeps_its_states();
        let any = Search {
            question: q,
            s,
            t,
            least: false,
        };
        self.first_differing(&any).is_none()
    }

    /// The least symbol at which the next states are not together in the partition.
    pub fn first_apart(&self, s: usize, t: usize, q: &Partition) -> Option<u32>
        requires s { s < length self.now.states }
        requires t { t < length self.now.states }
        requires states { length q.now ≡ length self.now.states }
        ensures some { IfSome result (IsFirstWithout self.now.inputs (GoInto (Together q.now) self.now s t)) }
        ensures none { IfNone result (AtEachSymbol self.now.inputs (GoInto (Together q.now) self.now s t)) }
    {
        self.keeps_its_states();
        let first = Search {
            question: q,
            s,
            t,
            least: true,
        };
        self.first_differing(&first)
    }

    /// Whether at each symbol the words of the next states have the same bit at 2^at. There is one word for
    /// each state.
    pub fn bit_goes(&self, s: usize, t: usize, words: &[u64], at: usize) -> bool
        requires s { s < length self.now.states }
        requires t { t < length self.now.states }
        requires states { length words.now ≡ length self.now.states }
        requires at { at < 64 }
        ensures { IsTrue result ↔ AtEachSymbol self.now.inputs (GoInto (HaveOneBit words.now at) self.now s t) }
    {
        self.keeps_its_states();
        let question = WordBits::new(words, at);
        let any = Search {
            question: &question,
            s,
            t,
            least: false,
        };
        self.first_differing(&any).is_none()
    }

    /// Whether output `b` is the same at each symbol.
    pub fn bit_agrees(&self, s: usize, t: usize, b: u8) -> bool
        requires s { s < length self.now.states }
        requires t { t < length self.now.states }
        requires b { b < self.now.outputs }
        ensures { IsTrue result ↔ AtEachSymbol self.now.inputs (AgreeInBit b self.now s t) }
    {
        self.keeps_its_states();
        let question = OutputBit::new(b);
        let any = Search {
            question: &question,
            s,
            t,
            least: false,
        };
        self.first_differing(&any).is_none()
    }

    /// The least symbol at which output `b` differs.
    fn first_bit_apart(&self, s: usize, t: usize, b: u8) -> Option<u32>
        requires s { s < length self.now.states }
        requires t { t < length self.now.states }
        requires b { b < self.now.outputs }
        ensures some { IfSome result (IsFirstWithout self.now.inputs (AgreeInBit b self.now s t)) }
        ensures none { IfNone result (AtEachSymbol self.now.inputs (AgreeInBit b self.now s t)) }
    {
        self.keeps_its_states();
        let question = OutputBit::new(b);
        let first = Search {
            question: &question,
            s,
            t,
            least: true,
        };
        self.first_differing(&first)
    }

    /// A symbol at which the outputs differ, for states whose rows give every part; the least one, if `least`
    /// is set.
    fn first_word_apart(&self, s: usize, t: usize, least: bool) -> Option<u32>
        requires s { s < length self.now.states }
        requires t { t < length self.now.states }
        requires first { SaysAll self.now s }
        requires second { SaysAll self.now t }
        ensures least { IsTrue least → IfSome result (IsFirstWithout self.now.inputs (AgreeAt self.now s t)) }
        ensures none { IsNone result ↔ AtEachSymbol self.now.inputs (AgreeAt self.now s t) }
    {
        self.keeps_its_states();
        let all = all_outputs(self.outputs());
        let question = OutputWord::new(all);
        let search = Search {
            question: &question,
            s,
            t,
            least,
        };
        self.first_differing(&search)
    }

    /// Whether the outputs are the same at each symbol.
    pub fn outputs_agree(&self, s: usize, t: usize) -> bool
        requires s { s < length self.now.states }
        requires t { t < length self.now.states }
        ensures { IsTrue result ↔ AtEachSymbol self.now.inputs (AgreeAt self.now s t) }
    {
        if let Some(found) = self.rows.first_placed_apart(s, t, false) {
            return found.is_none();
        }
        if self.says_all(s) && self.says_all(t) {
            return self.first_word_apart(s, t, false).is_none();
        }
        for b in 0..self.outputs() {
            if !self.bit_agrees(s, t, b) {
                return false;
            }
        }
        true
    }

    /// The least symbol at which the outputs differ.
    pub fn first_output_apart(&self, s: usize, t: usize) -> Option<u32>
        requires s { s < length self.now.states }
        requires t { t < length self.now.states }
        ensures some { IfSome result (IsFirstWithout self.now.inputs (AgreeAt self.now s t)) }
        ensures none { IfNone result (AtEachSymbol self.now.inputs (AgreeAt self.now s t)) }
    {
        if let Some(found) = self.rows.first_placed_apart(s, t, true) {
            return found;
        }
        if self.says_all(s) && self.says_all(t) {
            return self.first_word_apart(s, t, true);
        }
        let mut first = None;
        for b in 0..self.outputs() {
            first = lesser(first, self.first_bit_apart(s, t, b));
        }
        first
    }
}
