//! Partitions of the states of a machine as texts, by their labels or by the names of the states.

ghost use Rattle.std.specs.Prelude.{◌≡◌, ◌++◌, Bool, OnOk};
ghost use Rattle.state_reduce.specs.Work.{IsWork};
ghost use Rattle.machine_reports.specs.StateTexts.{between, block_text, names_text};
ghost use Rattle.machine_reports.specs.StateTexts.{state_line, state_pair_line, state_text};
ghost use Rattle.machine_reports.specs.Inner.Blanks.{blank_if};

use kiss_file::StateNames;
use partition::Partition;
use state_reduce::WorkMachine;
use std::alloc::{AllocError, Global};

/// How a partition of states is printed.
#[derive(Clone, Copy, Debug, PartialEq, Eq)]
pub enum Shown {
    /// As the labels of the states.
    Labels,
    /// As the names of the states of each block.
    Names,
}

/// The names of the states of the machine that is worked on.
pub fn work_names<'a>(work: &'a WorkMachine<'_>) -> &'a StateNames
    requires { (reduce : Bool) × IsWork reduce work.now.file.now work.now }
    ensures { result.now ≡ work.now.machine.states }
{
    match &work.names {
        Some(names) => names,
        None => &work.file.states,
    }
}

/// Appends the line of a pair of partitions.
pub fn append_state_pair(
    alloc: Global,
    shown: Shown,
    names: &StateNames,
    left: &Partition,
    right: &Partition,
    text: &mut Vec<u8>,
) -> Result<(), AllocError>
    ensures { OnOk result (text.new.items ≡ text.old.items ++ state_pair_line shown names.now (left.now, right.now)) }
{
    append_state_text(alloc, shown, names, left, text)?;
    append_between(shown, text)?;
    append_state_line(alloc, shown, names, right, text)
}

/// Appends the line of a partition.
pub fn append_state_line(
    alloc: Global,
    shown: Shown,
    names: &StateNames,
    part: &Partition,
    text: &mut Vec<u8>,
) -> Result<(), AllocError>
    ensures { OnOk result (text.new.items ≡ text.old.items ++ state_line shown names.now part.now) }
{
    append_state_text(alloc, shown, names, part, text)?;
    text.push(b'\n')?;
    Ok(())
}

/// Appends the text of a partition.
fn append_state_text(
    alloc: Global,
    shown: Shown,
    names: &StateNames,
    part: &Partition,
    text: &mut Vec<u8>,
) -> Result<(), AllocError>
    ensures { OnOk result (text.new.items ≡ text.old.items ++ state_text shown names.now part.now) }
{
    match shown {
        Shown::Labels => part.show(alloc, text),
        Shown::Names => append_blocks(names, part, text),
    }
}

/// Appends what is between the sides of a pair.
fn append_between(shown: Shown, text: &mut Vec<u8>) -> Result<(), AllocError>
    ensures { OnOk result (text.new.items ≡ text.old.items ++ between shown) }
{
    match shown {
        Shown::Labels => text.extend_from_slice(b" "),
        Shown::Names => text.extend_from_slice(b" / "),
    }
}

/// Appends the blocks of a partition, with a blank between them.
fn append_blocks(names: &StateNames, part: &Partition, text: &mut Vec<u8>) -> Result<(), AllocError>
    ensures { OnOk result (text.new.items ≡ text.old.items ++ names_text names.now part.now) }
{
    for block in 0..part.blocks() {
        append_blank(block > 0, text)?;
        append_block(names, part, block, text)?;
    }
    Ok(())
}

/// Appends the names of the states of a block in braces, with a blank between them.
fn append_block(
    names: &StateNames,
    part: &Partition,
    block: usize,
    text: &mut Vec<u8>,
) -> Result<(), AllocError>
    ensures { OnOk result (text.new.items ≡ text.old.items ++ block_text names.now part.now block) }
{
    let states = names.count().min(part.len());
    let mut some = false;
    text.push(b'{')?;
    for s in 0..states {
        if usize::from(part.label(s)) == block {
            append_blank(some, text)?;
            text.extend_from_slice(names.name(s))?;
            some = true;
        }
    }
    text.push(b'}')?;
    Ok(())
}

/// Appends a blank if something is before it.
fn append_blank(after: bool, text: &mut Vec<u8>) -> Result<(), AllocError>
    ensures { OnOk result (text.new.items ≡ text.old.items ++ blank_if after) }
{
    if after {
        text.push(b' ')?;
    }
    Ok(())
}
