//! The greatest partition of members that a partition of values makes a pair with.
//!
//! At first all members are in one class. One function after another, the classes are split by the labels of
//! the values, and numbered anew by first appearance.

ghost use Rattle.std.specs.Prelude.{◌≡◌, ◌<◌, ◌+◌, ◌*◌, ℕ, IfOk, OnOk, length, slice_index};
ghost use Rattle.io_pairs.specs.Inner.Families.{IsFamily, IsParted, IsSplit, functions_of};
ghost use Rattle.io_pairs.specs.Inner.Marks.{AreMarksBefore};
ghost use Rattle.partition.specs.Partition.{IsPartition};

use crate::family::Family;
use crate::marks::{Mark, numbered};
use partition::Partition;
use std::alloc::{AllocError, Global};

/// For each member, a number that combines its class with the label of its value.
fn splits(
    alloc: Global,
    classes: &[u16],
    function: &[u16],
    q: &Partition,
) -> Result<Vec<u16>, AllocError>
    requires classes { IsPartition (length classes.now) classes.now }
    requires function { length function.now ≡ length classes.now }
    requires values { (x : ℕ) → x < length classes.now → slice_index function.now x < length q.now }
    ensures count { IfOk result (λ v. length v.items ≡ length classes.now) }
    ensures numbers { IfOk result (λ v. (x : ℕ) → x < length classes.now
        → slice_index v.items x ≡ slice_index classes.now x * length q.now + slice_index q.now
        (slice_index function.now x)) }
{
    let labels = q.len();
    let mut numbers = Vec::with_capacity(alloc, classes.len())?;
    for (x, class) in classes.iter().enumerate() {
        let label = q.label(usize::from(function[x]));
        let number = usize::from(*class) * labels + usize::from(label);
        numbers.push(number as u16)?;
    }
    Ok(numbers)
}

/// The classes, split by the labels of the values and numbered by first appearance.
fn split(
    alloc: Global,
    marks: &mut [Mark],
    turn: u16,
    classes: &[u16],
    function: &[u16],
    q: &Partition,
) -> Result<Vec<u16>, AllocError>
    requires lawful { IsPartition (length q.now) q.now }
    requires classes { IsPartition (length classes.now) classes.now }
    requires function { length function.now ≡ length classes.now }
    requires values { (x : ℕ) → x < length classes.now → slice_index function.now x < length q.now }
    requires marks { AreMarksBefore turn marks.old }
    requires room { length marks.old ≡ length classes.now * length q.now }
    ensures marks { OnOk result (AreMarksBefore (turn + 1) marks.new) }
    ensures split { IfOk result (λ new. IsSplit classes.now function.now q.now new.items) }
{
    let numbers = splits(alloc, classes, function, q)?;
    numbered(alloc, marks, turn, numbers.as_slice())
}

/// The greatest partition of the members that makes a pair with q: two are together exactly where they go together.
pub(crate) fn greatest_partner(
    alloc: Global,
    family: &Family,
    q: &Partition,
) -> Result<Partition, AllocError>
    requires family { IsFamily family.now }
    requires values { length q.now ≡ family.now.values }
    ensures { IfOk result (IsParted family.now.members (functions_of family.now) q.now) }
{
    let none = Mark { turn: 0, class: 0 };
    let mut table = vec![in alloc; none; family.members * q.len()]?;
    let marks = table.as_mut_slice();
    let mut classes = vec![in alloc; 0; family.members]?;
    for k in 0..family.functions.len() {
        let function = family.functions[k].as_slice();
        classes = split(alloc, marks, k as u16 + 1, classes.as_slice(), function, q)?;
    }
    Partition::of_lawful(alloc, classes.as_slice())
}
