//! Lines of partitions and of pairs of partitions.

ghost use Rattle.std.specs.Prelude.{◌≡◌, ◌++◌, IfOk, OnOk, map};
ghost use Rattle.io_pairs.specs.Sides.{sides_of};
ghost use Rattle.machine_reports.specs.ListTexts.{lines_of, pair_line};
ghost use Rattle.machine_reports.specs.StateTexts.{state_line};

use crate::state_texts::{Shown, append_state_line};
use io_pairs::IoPair;
use kiss_file::StateNames;
use partition::Partition;
use std::alloc::{AllocError, Global};

/// The line of a partition of states.
pub fn line_of(
    alloc: Global,
    shown: Shown,
    names: &StateNames,
    part: &Partition,
) -> Result<Vec<u8>, AllocError>
    ensures { IfOk result (λ text. text.items ≡ state_line shown names.now part.now) }
{
    let mut text = Vec::new(alloc);
    append_state_line(alloc, shown, names, part, &mut text)?;
    Ok(text)
}

/// The lines of partitions of states.
pub fn lines_of_parts(
    alloc: Global,
    shown: Shown,
    names: &StateNames,
    parts: &[Partition],
) -> Result<Vec<u8>, AllocError>
    ensures { IfOk result (λ text. text.items ≡ lines_of (state_line shown names.now) parts.now) }
{
    let mut text = Vec::new(alloc);
    for part in parts {
        append_state_line(alloc, shown, names, part, &mut text)?;
    }
    Ok(text)
}

/// Appends the lines of pairs on the inputs or on the outputs.
pub fn append_io_pairs(
    alloc: Global,
    pairs: &[IoPair],
    text: &mut Vec<u8>,
) -> Result<(), AllocError>
    ensures { OnOk result (text.new.items ≡ text.old.items ++ lines_of pair_line (map sides_of pairs.now)) }
{
    for pair in pairs {
        append_io_pair(alloc, &pair.left, &pair.right, text)?;
    }
    Ok(())
}

/// Appends the line of a pair on the inputs or on the outputs.
fn append_io_pair(
    alloc: Global,
    left: &Partition,
    right: &Partition,
    text: &mut Vec<u8>,
) -> Result<(), AllocError>
    ensures { OnOk result (text.new.items ≡ text.old.items ++ pair_line (left.now, right.now)) }
{
    left.show(alloc, text)?;
    text.push(b' ')?;
    right.show(alloc, text)?;
    text.push(b'\n')?;
    Ok(())
}
