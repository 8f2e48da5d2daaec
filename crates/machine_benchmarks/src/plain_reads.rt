//! What gates read, found plainly. For each bit that is judged and each state, the first state like that state
//! is searched for, and the two are compared. Each two pieces of a state are compared too. Each gate may read
//! all bits.

ghost use Rattle.std.specs.Prelude.{◌≡◌, ◌<◌, ◌≤◌, length};

use machine_table::{Machine, Piece};
use state_codes::Codes;
use std::alloc::{AllocError, Global};

/// The number of bits and inputs that all gates read.
pub(crate) fn read_count(alloc: Global, m: &Machine, codes: &Codes) -> Result<usize, AllocError>
    requires words { length codes.now.words ≡ length m.now.states }
    requires short { codes.now.bits ≤ 64 }
{
    let words = codes.words.as_slice();
    let mut count = inputs_read(alloc, m, words)?;
    for gate in 0..codes.bits + usize::from(m.outputs()) {
        count = count.wrapping_add(bits_read(m, words, codes.bits, gate));
    }
    Ok(count)
}

/// The number of bits that the gate reads. The gates of the latches come first, and then those of the outputs.
fn bits_read(m: &Machine, words: &[u64], bits: usize, gate: usize) -> usize
    requires words { length words.now ≡ length m.now.states }
    requires short { bits ≤ 64 }
{
    let mut set = u64::MAX.checked_shr(64 - bits as u32).unwrap_or(0);
    for place in 1..=bits {
        let rest = set & !(1 << (bits - place));
        if permits(m, words, rest, bits, gate) {
            set = rest;
        }
    }
    set.count_ones() as usize
}

/// Whether the set permits the gate.
fn permits(m: &Machine, words: &[u64], set: u64, bits: usize, gate: usize) -> bool
    requires words { length words.now ≡ length m.now.states }
    requires short { bits ≤ 64 }
{
    for t in 0..m.states() {
        let s = first_like(words, set, t);
        if s != t && !gives_the_same(m, words, bits, gate, s, t) {
            return false;
        }
    }
    true
}

/// The first state whose code has the same bits of the set as that of t.
fn first_like(words: &[u64], set: u64, t: usize) -> usize
    requires { t < length words.now }
    ensures { result < length words.now }
{
    for s in 0..t {
        if (words[s] ^ words[t]) & set == 0 {
            return s;
        }
    }
    t
}

/// Whether the gate gives the same at both states.
fn gives_the_same(m: &Machine, words: &[u64], bits: usize, gate: usize, s: usize, t: usize) -> bool
    requires words { length words.now ≡ length m.now.states }
    requires short { bits ≤ 64 }
    requires s { s < length m.now.states }
    requires t { t < length m.now.states }
{
    if gate < bits {
        return m.bit_goes(s, t, words, gate);
    }
    let output = gate - bits;
    output >= usize::from(m.outputs()) || m.bit_agrees(s, t, output as u8)
}

/// For each place of an input, the latches and the outputs for which the input matters.
type Effects = [(u64, u64); 32];

/// The number of inputs that all gates read.
fn inputs_read(alloc: Global, m: &Machine, words: &[u64]) -> Result<usize, AllocError> {
    let mut effects = [(0, 0); 32];
    for s in 0..m.states() {
        let pieces = m.pieces(alloc, s)?;
        compare_pieces(words, &pieces, &mut effects);
    }
    let mut count = 0usize;
    for (latches, outputs) in effects {
        count = count.wrapping_add(latches.count_ones() as usize);
        count = count.wrapping_add(outputs.count_ones() as usize);
    }
    Ok(count)
}

/// Adds what the pieces of a state show.
fn compare_pieces(words: &[u64], pieces: &[Piece], effects: &mut Effects) {
    for (place, piece) in pieces.iter().enumerate() {
        compare_with(words, piece, &pieces[..place], effects);
    }
}

/// Adds what a piece shows together with each piece before it.
fn compare_with(words: &[u64], one: &Piece, pieces: &[Piece], effects: &mut Effects) {
    for other in pieces {
        let clash = (one.cube.value ^ other.cube.value) & one.cube.care & other.cube.care;
        if clash.is_power_of_two() {
            add_effect(words, one, other, clash.trailing_zeros() as usize, effects);
        }
    }
}

/// Adds what two pieces show whose cubes differ at one place.
fn add_effect(words: &[u64], one: &Piece, other: &Piece, place: usize, effects: &mut Effects) {
    let (first, second) = (usize::from(one.next), usize::from(other.next));
    if place < 32 && first < words.len() && second < words.len() {
        effects[place].0 |= words[first] ^ words[second];
        effects[place].1 |= one.outputs ^ other.outputs;
    }
}
