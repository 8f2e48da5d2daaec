//! For which gates each input matters.

ghost use Rattle.std.specs.Prelude.{
  ◌≡◌,
  ◌≢◌,
  ◌↔◌,
  ◌+◌,
  ◌<◌,
  ◌≤◌,
  ◌^◌,
  ℕ,
  All,
  IfNone,
  IfOk,
  IfSome,
  IsTrue,
  OnOk,
  length,
};
ghost use Rattle.cubes.specs.Symbol.{bit};
ghost use Rattle.kiss_file.specs.Machine.{given_bit};
ghost use Rattle.dependence.specs.SufficientBits.{InWord};
ghost use Rattle.dependence.specs.Effects.{ActsBy, AddsState, HasPlace, acts_on};
ghost use Rattle.dependence.specs.Inner.Effects.{
  Adds,
  AreGivenApart,
  AreEffects,
  DifferMore,
  HasBits,
  IsActed,
  Show,
  ShowAcross,
  ShowBeside,
};
ghost use Rattle.dependence.specs.RowBits.{next_bit};

use crate::bit::Bit;
use crate::whole_rows::filled_rows;
use crate::words::{has_bit, with_bit};
use kiss_file::KissRow;
use machine_table::Machine;
use std::alloc::{AllocError, Global};

/// For which gates an input matters: latch i has its bit at 2^i, output b at 2^b.
#[derive(Clone, Copy)]
pub struct Effect {
    pub(crate) latches: u64,
    pub(crate) outputs: u64,
}

/// Two lists of at most this many rows each are compared row by row.
const FEW: usize = 8;

/// The places at which all rows of a list have a 1, and those at which all have a 0.
#[derive(Clone, Copy)]
struct SharedBits {
    ones: u32,
    zeros: u32,
}

/// The effects of the inputs in order, at all states.
pub(crate) fn effects_of(
    alloc: Global,
    m: &Machine,
    words: &[u64],
) -> Result<Vec<Effect>, AllocError>
    requires { length words.now ≡ length m.now.states }
    ensures { IfOk result (λ effects. AreEffects m.now words.now effects.items (length m.now.states)) }
{
    let mut effects = no_effects(alloc, m.inputs())?;
    for s in 0..m.states() {
        add_effects(alloc, m, words, s, &mut effects)?;
    }
    Ok(effects)
}

/// A list of no effects, one for each input.
pub fn no_effects(alloc: Global, inputs: u8) -> Result<Vec<Effect>, AllocError>
    ensures size { IfOk result (λ effects. length effects.items ≡ inputs) }
    ensures none { IfOk result (λ effects. (a : ℕ) (gate : Bit) → ActsBy effects.items a gate → ⊥) }
{
    let none = Effect {
        latches: 0,
        outputs: 0,
    };
    let mut effects = Vec::new(alloc);
    for _ in 0..inputs {
        effects.push(none)?;
    }
    Ok(effects)
}

/// Adds the gates for which each input matters at the state.
///
/// An input matters for a gate where two filled rows of the state both say what the gate gives, they say
/// different bits, and their cubes have different bits at that input and at no other.
pub fn add_effects(
    alloc: Global,
    m: &Machine,
    words: &[u64],
    s: usize,
    effects: &mut [Effect],
) -> Result<(), AllocError>
    requires words { length words.now ≡ length m.now.states }
    requires state { s < length m.now.states }
    requires size { length effects.old ≡ m.now.inputs }
    ensures { OnOk result (AddsState m.now words.now s effects.old effects.new) }
{
    let mut rows = filled_rows(alloc, m, s)?;
    rows.sort_by_key(|row| row.cube.value)?;
    add_within(effects, words, rows.as_slice());
    Ok(())
}

/// Adds what two of the rows show.
fn add_within(effects: &mut [Effect], words: &[u64], rows: &[KissRow])
    requires next { All (λ row. IfSome row.to (λ t. t < length words.now)) rows.now }
    requires inputs { All (λ row. row.cube.width ≡ length effects.old) rows.now }
    ensures { Adds effects.old effects.new (ShowAcross (length effects.old) words.now rows.now rows.now) }
{
    if rows.len() < 2 {
        return;
    }
    let (front, back) = rows.split_at(rows.len() / 2);
    add_within(effects, words, front);
    add_within(effects, words, back);
    add_across(effects, words, front, back);
}

/// Adds what one of the rows and one of the others show.
///
/// Two rows that differ at two places or more show nothing. So two lists are skipped where the bits that the
/// rows of each list have in common show this for all of them. Other long lists are halved.
fn add_across(effects: &mut [Effect], words: &[u64], rows: &[KissRow], others: &[KissRow])
    requires next { All (λ row. IfSome row.to (λ t. t < length words.now)) rows.now }
    requires other_next { All (λ row. IfSome row.to (λ t. t < length words.now)) others.now }
    requires inputs { All (λ row. row.cube.width ≡ length effects.old) rows.now }
    requires other_inputs { All (λ row. row.cube.width ≡ length effects.old) others.now }
    ensures { Adds effects.old effects.new (ShowAcross (length effects.old) words.now rows.now others.now) }
{
    if rows.len() <= FEW && others.len() <= FEW {
        add_each(effects, words, rows, others);
    } else if !differ_more(rows, others) {
        if rows.len() < others.len() {
            let (front, back) = others.split_at(others.len() / 2);
            add_across(effects, words, front, rows);
            add_across(effects, words, back, rows);
        } else {
            let (front, back) = rows.split_at(rows.len() / 2);
            add_across(effects, words, front, others);
            add_across(effects, words, back, others);
        }
    }
}

/// Whether the bits that the rows of each list have in common show that each row of the one list differs from
/// each row of the other at two places or more.
fn differ_more(rows: &[KissRow], others: &[KissRow]) -> bool
    ensures { IsTrue result → DifferMore rows.now others.now }
{
    let first = shared_bits(rows);
    let second = shared_bits(others);
    let clash = (first.ones & second.zeros) | (first.zeros & second.ones);
    clash != 0 && lone_place(clash).is_none()
}

/// The bits that the rows have in common.
fn shared_bits(rows: &[KissRow]) -> SharedBits
    ensures { All (HasBits result.ones result.zeros) rows.now }
{
    let mut ones = u32::MAX;
    let mut zeros = u32::MAX;
    for row in rows {
        ones &= row.cube.value;
        zeros &= row.cube.care ^ row.cube.value;
    }
    SharedBits { ones, zeros }
}

/// Adds what one of the rows and one of the others show, row by row.
fn add_each(effects: &mut [Effect], words: &[u64], rows: &[KissRow], others: &[KissRow])
    requires next { All (λ row. IfSome row.to (λ t. t < length words.now)) rows.now }
    requires other_next { All (λ row. IfSome row.to (λ t. t < length words.now)) others.now }
    requires other_inputs { All (λ row. row.cube.width ≡ length effects.old) others.now }
    ensures { Adds effects.old effects.new (ShowAcross (length effects.old) words.now rows.now others.now) }
{
    for row in rows {
        add_of_row(effects, words, others, row);
    }
}

/// Adds what the row and one of the others show.
fn add_of_row(effects: &mut [Effect], words: &[u64], others: &[KissRow], row: &KissRow)
    requires next { All (λ row. IfSome row.to (λ t. t < length words.now)) others.now }
    requires inputs { All (λ row. row.cube.width ≡ length effects.old) others.now }
    requires own_next { IfSome row.now.to (λ t. t < length words.now) }
    ensures { Adds effects.old effects.new (ShowBeside (length effects.old) words.now others.now row.now) }
{
    for other in others {
        add_of_two(effects, words, other, row);
    }
}

/// Adds what the two rows show.
fn add_of_two(effects: &mut [Effect], words: &[u64], one: &KissRow, other: &KissRow)
    requires next { IfSome one.now.to (λ t. t < length words.now) }
    requires other_next { IfSome other.now.to (λ t. t < length words.now) }
    requires inputs { one.now.cube.width ≡ length effects.old }
    ensures { Adds effects.old effects.new (Show (length effects.old) words.now one.now other.now) }
{
    let clash = (one.cube.value ^ other.cube.value) & one.cube.care & other.cube.care;
    if let Some(place) = lone_place(clash) {
        let input = effects.len() - 1 - place as usize;
        let latches = latches_apart(words, one, other);
        let outputs = outputs_apart(one, other);
        add_effect(effects, input, latches, outputs);
    }
}

/// The latches at which the codes of the two next states differ, if both rows name one.
fn latches_apart(words: &[u64], one: &KissRow, other: &KissRow) -> u64
    requires next { IfSome one.now.to (λ t. t < length words.now) }
    requires other_next { IfSome other.now.to (λ t. t < length words.now) }
    ensures { (i : ℕ) → IsTrue (bit result i)
        ↔ AreGivenApart (next_bit words.now i one.now) (next_bit words.now i other.now) }
{
    match (one.to, other.to) {
        (Some(t), Some(u)) => words[usize::from(t)] ^ words[usize::from(u)],
        _ => 0,
    }
}

/// The outputs at which both rows give a bit, and the bits differ.
fn outputs_apart(one: &KissRow, other: &KissRow) -> u64
    ensures { (b : ℕ) → IsTrue (bit result b) ↔ AreGivenApart (given_bit b one.now) (given_bit b other.now) }
{
    one.care & other.care & (one.value ^ other.value)
}

/// Adds an effect of the input on these latches and outputs.
fn add_effect(effects: &mut [Effect], input: usize, latches: u64, outputs: u64)
    requires { input < length effects.old }
    ensures { Adds effects.old effects.new (IsActed input latches outputs) }
{
    let effect = &mut effects[input];
    effect.latches |= latches;
    effect.outputs |= outputs;
}

/// The place of the 1 in a number that has only one.
fn lone_place(bits: u32) -> Option<u32>
    ensures some { IfSome result (λ place. bits ≡ 2 ^ place) }
    ensures none { IfNone result ((place : ℕ) → bits ≢ 2 ^ place) }
    ensures below { IfSome result (λ place. place < 32) }
{
    if bits == 0 {
        return None;
    }
    let place = bits.ilog2();
    if bits == 1 << place {
        Some(place)
    } else {
        None
    }
}

/// The inputs that matter for the gate, input a at 2^a.
pub fn inputs_of(effects: &[Effect], gate: Bit) -> u64
    requires few { length effects.now ≤ 64 }
    requires gate { HasPlace gate }
    ensures { (a : ℕ) → InWord result a ↔ ActsBy effects.now a gate }
{
    let mut inputs = 0;
    for (a, effect) in effects.iter().enumerate() {
        if effect.acts_on(gate) {
            inputs = with_bit(inputs, a as u32);
        }
    }
    inputs
}

impl Effect {
    /// Whether the effect is one on the gate.
    fn acts_on(self, gate: Bit) -> bool
        requires { HasPlace gate }
        ensures { result ≡ acts_on self gate }
    {
        match gate {
            Bit::Latch(i) => has_bit(self.latches, i as u32),
            Bit::Output(b) => has_bit(self.outputs, u32::from(b)),
        }
    }
}
