//! Sets of bits that distinguish states.

ghost use Rattle.std.specs.Prelude.{◌≡◌, ◌↔◌, ◌<◌, ◌≤◌, ℕ, All, IfNone, IfSome, IsTrue, length};
ghost use Rattle.dependence.specs.SufficientBits.{AgreeOn, InWord};
ghost use Rattle.least_codes.specs.Inner.StatePairs.{IsPair, TellsApart};
ghost use Rattle.least_codes.specs.Inner.Choice.{HasNone, IsFirstChoice, IsLeastChoice};

use crate::two_states::TwoStates;
use dependence::{has_bit, with_bit};

/// What a set of bits has to be: candidates, all below `bits`, that distinguish the two states of each pair.
#[derive(Clone, Copy)]
pub(crate) struct Question<'a> {
    pub(crate) words: &'a [u64],
    pub(crate) apart: &'a [TwoStates],
    pub(crate) candidates: u64,
    pub(crate) bits: u32,
}

/// A set of bits, and its size.
#[derive(Clone, Copy)]
pub(crate) struct Choice {
    pub(crate) set: u64,
    pub(crate) size: u32,
}

/// Whether the codes of the two states differ at a bit of the set.
fn differ_on(words: &[u64], pair: TwoStates, set: u64) -> bool
    requires s { pair.s < length words.now }
    requires t { pair.t < length words.now }
    ensures { IsTrue result ↔ (AgreeOn words.now (InWord set) pair.s pair.t → ⊥) }
{
    words[pair.s] & set != words[pair.t] & set
}

/// Whether the set distinguishes the two states of each pair.
fn tells_apart(words: &[u64], apart: &[TwoStates], set: u64) -> bool
    requires { All (IsPair (length words.now)) apart.now }
    ensures { IsTrue result ↔ TellsApart words.now apart.now (InWord set) }
{
    for pair in apart {
        if !differ_on(words, *pair, set) {
            return false;
        }
    }
    true
}

/// The first set that has the chosen bits and `left` candidates from bit `from` on, and distinguishes the
/// states.
fn first_with(question: &Question, chosen: u64, from: u32, left: u32) -> Option<u64>
    requires pairs { All (IsPair (length question.now.words.now)) question.now.apart.now }
    requires bits { question.now.bits ≤ 64 }
    requires from { from ≤ question.now.bits }
    requires below { (c : ℕ) → InWord question.now.candidates c → c < question.now.bits }
    ensures some { IfSome result (IsFirstChoice question.now chosen from left) }
    ensures none { IfNone result (HasNone question.now chosen from left) }
{
    if left == 0 {
        return if tells_apart(question.words, question.apart, chosen) {
            Some(chosen)
        } else {
            None
        };
    }
    if from == question.bits {
        return None;
    }
    if !has_bit(question.candidates, from) {
        return first_with(question, chosen, from + 1, left);
    }
    match first_with(question, with_bit(chosen, from), from + 1, left - 1) {
        Some(set) => Some(set),
        None => first_with(question, chosen, from + 1, left),
    }
}

/// The least set of candidates that distinguishes the states, and among those of its size the one with the
/// first list.
pub(crate) fn least_choice(question: &Question) -> Choice
    requires pairs { All (IsPair (length question.now.words.now)) question.now.apart.now }
    requires bits { question.now.bits ≤ 64 }
    requires below { (c : ℕ) → InWord question.now.candidates c → c < question.now.bits }
    requires enough { TellsApart question.now.words.now question.now.apart.now (InWord question.now.candidates) }
    ensures least { IsLeastChoice question.now result }
    ensures few { result.size ≤ question.now.bits }
{
    for size in 0..question.bits + 1 {
        if let Some(set) = first_with(question, 0, 0, size) {
            return Choice { set, size };
        }
    }
    unreachable!()
}
