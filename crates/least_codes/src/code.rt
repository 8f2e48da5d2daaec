//! All codes of few bits, one after another.

ghost use Rattle.std.specs.Prelude.{
  ◌≡◌,
  ◌↔◌,
  ◌⊎◌,
  ◌<◌,
  ◌≤◌,
  ◌+◌,
  ℕ,
  All,
  IfOk,
  IsTrue,
  List,
  OnOk,
  length,
  slice_index,
};
ghost use Rattle.kiss_file.specs.declared.file.KissFile.{KissFile};
ghost use Rattle.least_codes.specs.Inner.Lists.{
  AreBefore,
  AreSeen,
  IsDraft,
  IsBestWith,
  IsBestSeen,
  IsLessThan,
  IsUsed,
};
ghost use Rattle.least_codes.specs.Inner.Table.{IsInside, IsImageTable};
ghost use Rattle.least_codes.specs.LeastCode.{AreCodeWords, IsLeastCode};
ghost use Rattle.state_codes.specs.Code.{need};

use crate::cost::code_cost;
use crate::table::{Images, image_table};
use machine_table::Machine;
use std::alloc::{AllocError, Global};

/// Codes, with bit i of a code at 2^i in the word of its state, and what they cost.
#[derive(Drop)]
pub(crate) struct Best {
    pub(crate) words: Vec<u64>,
    pub(crate) cost: u32,
}

/// Whether the cost is below that of the best codes so far, if there are any.
fn is_less(cost: u32, best: &Option<Best>) -> bool
    ensures { IsTrue result ↔ IsLessThan cost best.now }
{
    match best {
        None => true,
        Some(best) => cost < best.cost,
    }
}

/// Replaces the best codes so far by these codes if these cost less.
fn judge(
    alloc: Global,
    table: &[Images],
    bits: u32,
    words: &[u64],
    best: &mut Option<Best>,
) -> Result<(), AllocError>
    requires bits { bits ≤ 3 }
    requires inside { All (IsInside (length words.now)) table.now }
    requires codes { AreCodeWords (length words.now) bits words.now }
    ensures { OnOk result (IsBestWith table.now bits words.now best.old best.new) }
{
    let cost = code_cost(alloc, table, words, bits)?;
    if is_less(cost, best) {
        let words = words.to_vec(alloc)?;
        *best = Some(Best { words, cost });
    }
    Ok(())
}

/// Whether a state before s has the same code.
fn is_used(words: &[u64], s: usize) -> bool
    requires { s < length words.now }
    ensures { IsTrue result ↔ IsUsed words.now s }
{
    for word in &words[..s] {
        if *word == words[s] {
            return true;
        }
    }
    false
}

/// Tries all codes that begin with those of the states before s and with the first i bits of the code of s, in the
/// order of their texts.
fn try_codes(
    alloc: Global,
    table: &[Images],
    bits: u32,
    words: &mut [u64],
    s: usize,
    i: u32,
    best: &mut Option<Best>,
) -> Result<(), AllocError>
    requires bits { bits ≤ 3 }
    requires inside { All (IsInside (length words.old)) table.now }
    requires draft { IsDraft bits words.old s i }
    requires kept { (F : KissFile) → IsImageTable F table.now → length F.states ≡ length words.old
        → IsBestSeen F bits (AreBefore words.old s i) best.old }
    ensures words { OnOk result (words.new ≡ words.old) }
    ensures kept { OnOk result ((F : KissFile) → IsImageTable F table.now → length F.states ≡ length words.old
        → IsBestSeen F bits (AreSeen words.old s i) best.new) }
{
    if s == words.len() {
        return judge(alloc, table, bits, words, best);
    }
    if i == bits {
        if is_used(words, s) {
            return Ok(());
        }
        return try_codes(alloc, table, bits, words, s + 1, 0, best);
    }
    try_codes(alloc, table, bits, words, s, i + 1, best)?;
    let code = words[s];
    words[s] = code | (1 << i);
    try_codes(alloc, table, bits, words, s, i + 1, best)?;
    words[s] = code;
    Ok(())
}

/// The number of bits that distinguish n states.
pub(crate) fn bits_for(n: usize) -> u32
    requires some { 3 ≤ n }
    requires most { n ≤ 8 }
    ensures need { result ≡ need n }
    ensures few { result ≤ 3 }
{
    if n <= 4 { 2 } else { 3 }
}

/// The words of the least code.
pub(crate) fn least_code(alloc: Global, m: &Machine) -> Result<Vec<u64>, AllocError>
    requires some { 3 ≤ length m.now.states }
    requires most { length m.now.states ≤ 8 }
    ensures least { IfOk result (λ words. IsLeastCode m.now words.items) }
    ensures zero { IfOk result (λ words. slice_index words.items 0 ≡ 0) }
{
    m.keeps_its_states();
    let n = m.states();
    let table = image_table(alloc, m)?;
    let mut words = vec![in alloc; 0; n]?;
    let mut best = None;
    try_codes(
        alloc,
        table.as_slice(),
        bits_for(n),
        words.as_mut_slice(),
        1,
        0,
        &mut best,
    )?;
    match best {
        Some(best) => Ok(best.words),
        None => unreachable!(),
    }
}
