//! The calls of `least_codes`.

ghost use Rattle.std.specs.Prelude.{◌≡◌, All, IfSome, length};
ghost use Rattle.partition.specs.Partition.{IsPartition, IsStateCount};

use crate::words::{cut, number, part, put_between};
use case_lines::Answer;
use dependence::{permits, permits_output};
use least_codes::{Bit, least_reads, split};
use machine_table::Machine;
use partition::Partition;
use state_codes::{Codes, Kind, encode, given};
use std::alloc::Global;

/// The partitions of n states that a text says, with slashes between them.
fn partitions(alloc: Global, text: &str, n: usize) -> Option<Vec<Partition>>
    ensures { IfSome result (λ parts. All (IsPartition n) parts.items) }
{
    let mut parts = Vec::new(alloc);
    for word in text.split('/') {
        parts.push(part(alloc, word, n)?).ok()?;
    }
    Some(parts)
}

/// The codes of n states that partitions give.
fn codes(alloc: Global, parts: Vec<Partition>, n: usize) -> Option<Codes>
    requires states { IsStateCount n }
    requires parts { All (IsPartition n) parts.items }
{
    if parts.is_empty() || parts.len() > 256 {
        return None;
    }
    match given(alloc, parts) {
        Ok(split) => encode(alloc, &split, n).ok(),
        Err(_) => None,
    }
}

/// The set of one bit, or of none where there is no such bit.
fn bit_of(bit: u8) -> u64 {
    if bit < 64 { 1 << bit } else { 0 }
}

/// The set of the bits of a list.
fn set_of(list: &str) -> Option<u64> {
    let mut set = 0u64;
    for word in list.split(',') {
        if word != "none" {
            set |= bit_of(number(word)?);
        }
    }
    Some(set)
}

/// The least reads of a gate. There are none where the candidates do not permit it.
fn reads(alloc: Global, call: &str, m: &Machine, codes: &Codes, gate: u8, set: u64) -> Option<u64>
    requires { length codes.now.words ≡ length m.now.states }
{
    let bit = usize::from(gate);
    if call == "latch_reads" && gate < 64 && permits(m, codes, set, bit) {
        return least_reads(alloc, m, codes, set, Bit::Latch(bit)).ok();
    }
    if call == "output_reads" && gate < m.outputs() && permits_output(m, codes, set, gate) {
        return least_reads(alloc, m, codes, set, Bit::Output(gate)).ok();
    }
    None
}

/// Puts the least reads of a gate.
pub(crate) fn put_reads(alloc: Global, call: &str, words: &str, m: &Machine, answer: &mut Answer) {
    match reads_of(alloc, call, words, m) {
        Some(set) => put_set(set, answer),
        None => answer.fail(),
    }
}

/// The least reads of the gate that words say.
fn reads_of(alloc: Global, call: &str, words: &str, m: &Machine) -> Option<u64> {
    let (parts, words) = cut(words);
    let (gate, list) = cut(words);
    let (gate, set) = (number(gate)?, set_of(list)?);
    let codes = codes_of(alloc, parts, m)?;
    reads(alloc, call, m, &codes, gate, set)
}

/// The codes of the states that a text gives by partitions.
fn codes_of(alloc: Global, text: &str, m: &Machine) -> Option<Codes>
    ensures { IfSome result (λ codes. length codes.words ≡ length m.now.states) }
{
    m.keeps_its_states();
    let parts = partitions(alloc, text, m.states())?;
    match codes(alloc, parts, m.states()) {
        Some(codes) if codes.words.as_slice().len() == m.states() => Some(codes),
        _ => None,
    }
}

/// Puts the bits of a set.
fn put_set(set: u64, answer: &mut Answer) {
    if set == 0 {
        return answer.add(b"none");
    }
    let mut between = b"".as_slice();
    for bit in 0..64u8 {
        if set >> bit & 1 == 1 {
            answer.add(between);
            answer.add_number(u64::from(bit));
            between = b",";
        }
    }
}

/// Puts the least code of a machine of 3 to 8 states.
pub(crate) fn put_least_code(alloc: Global, m: &Machine, answer: &mut Answer) {
    match least_code(alloc, m) {
        Some(codes) => put_codes(&codes, answer),
        None => answer.fail(),
    }
}

/// The least code of a machine of 3 to 8 states.
fn least_code(alloc: Global, m: &Machine) -> Option<Codes> {
    let n = m.states();
    if n < 3 || n > 8 {
        return None;
    }
    match split(alloc, m) {
        Ok(split) if split.kind == Kind::Least => encode(alloc, &split, n).ok(),
        _ => None,
    }
}

/// Puts the code of each state, bit 0 first, with a space between each two.
fn put_codes(codes: &Codes, answer: &mut Answer) {
    for (state, word) in codes.words.as_slice().iter().enumerate() {
        put_between(state, answer);
        put_bits(*word, codes.bits, answer);
    }
}

/// Puts the bits of a word, bit 0 first.
fn put_bits(word: u64, bits: usize, answer: &mut Answer) {
    for bit in 0..bits {
        answer.add_number(word >> (bit & 63) & 1);
    }
}
