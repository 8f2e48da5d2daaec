//! Rows of a join, gathered from the rows of its two sides.
//!
//! The join is above both sides, so each row of a side lies within one block of the join. A state that is alone
//! on both sides is alone in the join, since no chain leaves it. So a block of the join with two states or more
//! contains rows of the two sides, and these rows together have all of its states.

ghost use Rattle.std.specs.Prelude.{◌≡◌, ◌≢◌, ℕ, ◌+◌, ◌*◌, ◌/◌, ◌<◌, ◌≤◌, ◌↔◌, ◌⊎◌, bit_or, length, slice_index, IfOk};
ghost use Rattle.partition.specs.Partition.{IsPartition, Together};
ghost use Rattle.partition.specs.Inner.Rows.{Has, AreRowsOf, AreTwo, place_in, words_for};
ghost use Rattle.partition.specs.Inner.JoinedRows.{AreWithin, IsInRow, AreRowNumbers, HaveNumbers, GoesTo};

use super::rows::{row_count, word_count};
use crate::MOST_STATES;
use crate::states::first_bit;
use std::alloc::{AllocError, Global};

/// The rows of the blocks of two states or more, from two lists of rows that lie within blocks. Each state of
/// these blocks is in a row of the lists.
pub fn gathered_rows(
    alloc: Global,
    labels: &[u16],
    front: &[u64],
    back: &[u64],
) -> Result<Vec<u64>, AllocError>
    requires lawful { IsPartition (length labels.now) labels.now }
    requires front { let width = words_for (length labels.now) in AreWithin labels.now front.now width
        (length front.now / width) }
    requires back { let width = words_for (length labels.now) in AreWithin labels.now back.now width
        (length back.now / width) }
    requires all { let width = words_for (length labels.now) in (s t : ℕ) → Together labels.now s t → s ≢ t
        → IsInRow front.now width (length front.now / width) s ⊎ IsInRow back.now width (length back.now / width) s }
    ensures { IfOk result (λ rows. AreRowsOf labels.now rows.items) }
{
    let width = word_count(labels.len());
    let mut numbers = [0; MOST_STATES];
    let some = number_labels(labels, front, width, &mut numbers, 0);
    let count = number_labels(labels, back, width, &mut numbers, some);
    let mut rows = vec![in alloc; 0; count as usize * width]?;
    let into = rows.as_mut_slice();
    gather(into, width, labels, &numbers, front);
    gather(into, width, labels, &numbers, back);
    Ok(rows)
}

/// Gives numbers to the labels of these rows that have none yet; `before` labels have one already. Returns the
/// number of labels that have one then.
fn number_labels(
    labels: &[u16],
    rows: &[u64],
    width: usize,
    numbers: &mut [u16],
    before: u16,
) -> u16
    requires some { 1 ≤ width }
    requires few { width ≤ 4 }
    requires rows { AreWithin labels.now rows.now width (length rows.now / width) }
    requires states { length labels.now ≤ 64 * width }
    requires labels { (s : ℕ) → s < length labels.now → slice_index labels.now s < length numbers.old }
    requires room { length numbers.old ≤ 256 }
    requires numbered { AreRowNumbers labels.now numbers.old before }
    ensures numbered { AreRowNumbers labels.now numbers.new result }
    ensures all { HaveNumbers labels.now rows.now width (length rows.now / width) numbers.new }
    ensures kept { (label : ℕ) → 1 ≤ slice_index numbers.old label → 1 ≤ slice_index numbers.new label }
{
    let mut count = before;
    for i in 0..row_count(rows.len(), width) {
        let label = label_of_row(labels, rows, width, i);
        if numbers[label] == 0 {
            count += 1;
            numbers[label] = count;
        }
    }
    count
}

/// Adds each row to the row that has the number of its label.
fn gather(into: &mut [u64], width: usize, labels: &[u16], numbers: &[u16], rows: &[u64])
    requires some { 1 ≤ width }
    requires few { width ≤ 4 }
    requires rows { AreWithin labels.now rows.now width (length rows.now / width) }
    requires states { length labels.now ≤ 64 * width }
    requires labels { (s : ℕ) → s < length labels.now → slice_index labels.now s < length numbers.now }
    requires numbered { HaveNumbers labels.now rows.now width (length rows.now / width) numbers.now }
    requires room { (label : ℕ) → slice_index numbers.now label * width ≤ length into.old }
    ensures length { length into.new ≡ length into.old }
    ensures bits { (j t : ℕ) → t < 64 * width → Has into.new (place_in width j t)
        ↔
        (Has into.old (place_in width j t)
        ⊎ GoesTo labels.now rows.now width (length rows.now / width) numbers.now j t) }
{
    for i in 0..row_count(rows.len(), width) {
        let label = label_of_row(labels, rows, width, i);
        let row = numbers[label] as usize - 1;
        let at = i * width;
        put_row(into, row * width, &rows[at..at + width]);
    }
}

/// The label of the states of row i.
fn label_of_row(labels: &[u16], rows: &[u64], width: usize, i: usize) -> usize
    requires some { 1 ≤ width }
    requires few { width ≤ 4 }
    requires rows { AreWithin labels.now rows.now width (length rows.now / width) }
    requires i { i < length rows.now / width }
    requires states { length labels.now ≤ 64 * width }
    ensures label { (s : ℕ) → s < 64 * width → Has rows.now (place_in width i s) → slice_index labels.now s ≡ result }
    ensures two { AreTwo labels.now (length labels.now) result }
{
    let at = i * width;
    match first_bit(&rows[at..at + width]) {
        Some(s) => labels[s] as usize,
        None => unreachable!(),
    }
}

/// Sets the bits of a row in the words from a place on.
fn put_row(words: &mut [u64], at: usize, row: &[u64])
    requires { at + length row.now ≤ length words.old }
    ensures length { length words.new ≡ length words.old }
    ensures within { (k : ℕ) → k < length row.now
        → slice_index words.new (at + k) ≡ bit_or (slice_index words.old (at + k)) (slice_index row.now k) }
    ensures others { (k : ℕ) → (k < at) ⊎ (at + length row.now ≤ k)
        → slice_index words.new k ≡ slice_index words.old k }
{
    for (k, word) in row.iter().enumerate() {
        words[at + k] |= *word;
    }
}
