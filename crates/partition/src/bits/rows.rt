//! Rows of the blocks of two states or more, one after another.

ghost use Rattle.std.specs.Prelude.{◌≡◌, ℕ, ◌+◌, ◌-◌, ◌*◌, ◌/◌, ◌<◌, ◌≤◌, ◌↔◌, length, slice_index, IfOk};
ghost use Rattle.partition.specs.Partition.{IsPartition};
ghost use Rattle.partition.specs.Bits.{bit_of};
ghost use Rattle.partition.specs.Inner.Rows.{Has, AreRowsOf, place_in, words_for};

use super::numbers::number_rows;
use crate::MOST_STATES;
use std::alloc::{AllocError, Global};

/// The number of words that the bits of this number of states need.
pub fn word_count(states: usize) -> usize
    requires { states ≤ 256 }
    ensures count { result ≡ words_for states }
    ensures few { result ≤ 4 }
{
    states.div_ceil(64)
}

/// The number of rows that are in this number of words.
pub fn row_count(words: usize, width: usize) -> usize
    requires some { 1 ≤ width }
    requires few { width ≤ 4 }
    ensures { result ≡ words / width }
{
    match width {
        1 => words,
        2 => words / 2,
        3 => words / 3,
        _ => words / 4,
    }
}

/// The rows of the blocks of two states or more.
pub fn block_rows(alloc: Global, labels: &[u16]) -> Result<Vec<u64>, AllocError>
    requires { IsPartition (length labels.now) labels.now }
    ensures { IfOk result (λ rows. AreRowsOf labels.now rows.items) }
{
    let width = word_count(labels.len());
    let mut numbers = [0; MOST_STATES];
    let count = number_rows(labels, &mut numbers);
    let mut rows = vec![in alloc; 0; count * width]?;
    put_states(rows.as_mut_slice(), width, labels, &numbers);
    Ok(rows)
}

/// Puts each state into the row of its block, if it has one.
fn put_states(rows: &mut [u64], width: usize, labels: &[u16], numbers: &[u16])
    requires few { width ≤ 4 }
    requires states { length labels.now ≤ 64 * width }
    requires labels { (s : ℕ) → s < length labels.now → slice_index labels.now s < length numbers.now }
    requires room { (s : ℕ) → s < length labels.now → 2 ≤ slice_index numbers.now (slice_index labels.now s)
        → (slice_index numbers.now (slice_index labels.now s) - 2) * width + width ≤ length rows.old }
    requires none { (k : ℕ) → bit_of rows.old k ≡ 0 }
    ensures length { length rows.new ≡ length rows.old }
    ensures bits { (i t : ℕ) → t < 64 * width → Has rows.new (place_in width i t)
        ↔ ((t < length labels.now) × (slice_index numbers.now (slice_index labels.now t) ≡ i + 2)) }
{
    for (s, label) in labels.iter().enumerate() {
        let number = numbers[*label as usize] as usize;
        if number >= 2 {
            rows[(number - 2) * width + s / 64] |= 1 << (s % 64);
        }
    }
}

/// The place at which the row with this state begins, or the number of words if no row has it.
pub fn row_with(rows: &[u64], width: usize, count: usize, s: usize) -> usize
    requires size { length rows.now ≡ count * width }
    requires s { s / 64 < width }
    ensures found { result < length rows.now → (i : ℕ) × (i < count) × (result ≡ i * width)
        × Has rows.now (place_in width i s) }
    ensures none { length rows.now ≤ result → (i : ℕ) → i < count → bit_of rows.now (place_in width i s) ≡ 0 }
{
    for i in 0..count {
        let at = i * width;
        if (rows[at + s / 64] >> (s % 64)) & 1 == 1 {
            return at;
        }
    }
    rows.len()
}
