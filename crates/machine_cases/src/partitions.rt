//! The calls of `pair_operators`, `output_consistent`, `closed_lattice` and `state_reduce` that are about states and
//! partitions of them.

ghost use Rattle.std.specs.Prelude.{◌≡◌, length};
ghost use Rattle.kiss_file.specs.LawfulFile.{IsLawful};

use crate::words::{cut, number, part, put_part, put_partitions};
use case_lines::Answer;
use closed_lattice::{apart, atoms, below, principal, separating};
use kiss_file::KissFile;
use kiss2::write;
use machine_table::Machine;
use output_consistent::{bit_partition, is_consistent};
use pair_operators::is_pair;
use partition::Partition;
use state_reduce::quotient;
use std::alloc::{AllocError, Global};

/// Puts whether partitions are what a call asks.
pub(crate) fn put_decided(
    alloc: Global,
    call: &str,
    words: &str,
    m: &Machine,
    answer: &mut Answer,
) {
    match decided(alloc, call, words, m) {
        Some(true) => answer.add(b"true"),
        Some(false) => answer.add(b"false"),
        None => answer.fail(),
    }
}

/// Whether two partitions are a pair, or whether the outputs respect one.
fn decided(alloc: Global, call: &str, words: &str, m: &Machine) -> Option<bool> {
    m.keeps_its_states();
    let (first, second) = cut(words);
    let p = part(alloc, first, m.states())?;
    if call == "is_consistent" {
        return Some(is_consistent(m, &p));
    }
    let q = part(alloc, second, m.states())?;
    Some(is_pair(m, &p, &q))
}

/// Puts the partition that a call finds.
pub(crate) fn put_found(alloc: Global, call: &str, words: &str, m: &Machine, answer: &mut Answer) {
    match found(alloc, call, words, m) {
        Some(p) => put_part(alloc, &p, answer),
        None => answer.fail(),
    }
}

/// The partition below one, beside one, by an output, or of two states.
fn found(alloc: Global, call: &str, words: &str, m: &Machine) -> Option<Partition> {
    m.keeps_its_states();
    let (first, second) = cut(words);
    match call {
        "below" => below(alloc, m, &part(alloc, first, m.states())?).ok(),
        "apart" => grown_beside(alloc, m, &part(alloc, first, m.states())?).ok(),
        "bit_partition" => by_output(alloc, m, number(first)?),
        _ => of_states(alloc, call, m, number(first)?, number(second)?),
    }
}

/// The closed partition that is grown from zero where it meets another partition in zero.
fn grown_beside(alloc: Global, m: &Machine, other: &Partition) -> Result<Partition, AllocError>
    requires { length other.now ≡ length m.now.states }
{
    let n = m.states();
    let zero = Partition::zero(alloc, n)?;
    apart(alloc, m, &zero, other)
}

/// The partition of the states by an output.
fn by_output(alloc: Global, m: &Machine, bit: u8) -> Option<Partition> {
    if bit >= m.outputs() {
        return None;
    }
    bit_partition(alloc, m, bit).ok()
}

/// The least closed partition that holds two states together, or the closed partition that separates them.
fn of_states(alloc: Global, call: &str, m: &Machine, s: u8, t: u8) -> Option<Partition> {
    let (s, t) = (usize::from(s), usize::from(t));
    if s >= t || t >= m.states() {
        return None;
    }
    if call == "principal" {
        return principal(alloc, m, s, t).ok();
    }
    separating(alloc, m, s, t).ok()
}

/// Puts the least closed partitions.
pub(crate) fn put_atoms(alloc: Global, m: &Machine, answer: &mut Answer) {
    match atoms(alloc, m) {
        Ok(list) => put_partitions(alloc, list.as_slice(), answer),
        Err(_) => answer.fail(),
    }
}

/// Puts the text of the quotient by a partition, or why there is none.
pub(crate) fn put_quotient(
    alloc: Global,
    word: &str,
    file: &KissFile,
    m: &Machine,
    answer: &mut Answer,
)
    requires lawful { IsLawful file.now }
    requires machine { m.now ≡ file.now }
{
    m.keeps_its_states();
    match part(alloc, word, m.states()) {
        Some(p) => put_blocks(alloc, file, m, &p, answer),
        None => answer.fail(),
    }
}

/// Puts the text of the quotient by a partition of the states, or why there is none.
fn put_blocks(alloc: Global, file: &KissFile, m: &Machine, p: &Partition, answer: &mut Answer)
    requires lawful { IsLawful file.now }
    requires machine { m.now ≡ file.now }
    requires states { length p.now ≡ length file.now.states }
{
    match quotient(alloc, file, m, p) {
        Ok(blocks) => put_text(alloc, &blocks, answer),
        Err(fail) => answer.add_displayed(format_args!("{fail:?}")),
    }
}

/// Puts the text of a file.
fn put_text(alloc: Global, file: &KissFile, answer: &mut Answer) {
    match write(alloc, file) {
        Ok(text) => answer.add(text.as_slice()),
        Err(_) => answer.fail(),
    }
}
