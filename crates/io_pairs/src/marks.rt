//! Classes numbered by first appearance, with one table for all turns.

ghost use Rattle.std.specs.Prelude.{◌≡◌, ◌<◌, ◌+◌, ◌≢◌, ℕ, IfOk, OnOk, length, slice_index, slice_index_or, slice_set};
ghost use Rattle.partition.specs.Partition.{IsPartition, IsStateCount, SameTogether};
ghost use Rattle.io_pairs.specs.Inner.Marks.{AreMarksBefore};

use std::alloc::{AllocError, Global};

/// The class that a value was given, and the turn in which it was given. A new turn makes earlier marks void.
#[derive(Clone, Copy, Drop)]
pub(crate) struct Mark {
    pub(crate) turn: u16,
    pub(crate) class: u16,
}

/// The classes of equal values, numbered by first appearance. There is a mark for each value.
pub(crate) fn numbered(
    alloc: Global,
    marks: &mut [Mark],
    turn: u16,
    values: &[u16],
) -> Result<Vec<u16>, AllocError>
    requires marks { AreMarksBefore turn marks.old }
    requires count { IsStateCount (length values.now) }
    requires room { (x : ℕ) → x < length values.now → slice_index values.now x < length marks.old }
    ensures marks { OnOk result (AreMarksBefore (turn + 1) marks.new) }
    ensures lawful { IfOk result (λ classes. IsPartition (length values.now) classes.items) }
    ensures together { IfOk result (λ classes. SameTogether values.now classes.items) }
{
    let mut classes = Vec::with_capacity(alloc, values.len())?;
    let mut count = 0;
    for value in values {
        let class = class_for(marks, turn, &mut count, usize::from(*value));
        classes.push(class)?;
    }
    Ok(classes)
}

/// The class that a value has in this turn, or the next class if the value was not seen in this turn.
fn class_for(marks: &mut [Mark], turn: u16, count: &mut u16, value: usize) -> u16
    requires value { value < length marks.old }
    requires room { count.old < 256 }
    ensures known { (d : Mark) → (slice_index_or marks.old value d).turn ≡ turn
        → (result ≡ (slice_index_or marks.old value d).class) × (count.new ≡ count.old) × (marks.new ≡ marks.old) }
    ensures fresh { (d : Mark) → (slice_index_or marks.old value d).turn ≢ turn
        → (result ≡ count.old) × (count.new ≡ count.old + 1)
        × (marks.new ≡ slice_set marks.old value (record { turn = turn; class = result })) }
{
    let mark = marks[value];
    if mark.turn == turn {
        return mark.class;
    }
    let class = *count;
    marks[value] = Mark { turn, class };
    *count += 1;
    class
}
