//! The machine of the blocks of a partition.
ghost use Rattle.std.specs.Prelude.{
  ◌≡◌,
  ◌<◌,
  ◌≤◌,
  ◌==◌,
  ◌++◌,
  ◌∷◌,
  [],
  Contains,
  IfErr,
  IfOk,
  IfSome,
  OnOk,
  length,
  map,
};
ghost use Rattle.kiss_file.specs.LawfulFile.{AreNumbered, IsLawful};
ghost use Rattle.kiss_file.specs.Machine.{Accepted};
ghost use Rattle.kiss2.specs.Standing.{each_once};
ghost use Rattle.kiss_file.specs.declared.fill.Fill.{Fill};
ghost use Rattle.machine_table.specs.Table.{IsTable};
ghost use Rattle.pair_operators.specs.Consistency.{Consistent};
ghost use Rattle.pair_operators.specs.Pair.{Closed};
ghost use Rattle.partition.specs.NestedBlocks.{least_of};
ghost use Rattle.state_reduce.specs.AlikeStates.{AreUnlike, IsEquivalence};
ghost use Rattle.state_reduce.specs.Cause.{Caused};
ghost use Rattle.state_reduce.specs.Inner.BlockNames.{AreAllNamed, currents_of};
ghost use Rattle.state_reduce.specs.Quotient.{
  AnswersAsMembers,
  AreBlocksInOrder,
  AreBlocksNamed,
  HaveRowsInOrder,
  IsQuotient,
  block_name,
  block_names,
  block_number,
  kept_rows,
  row_of_blocks,
};

use crate::demands::{Demand, QuotientFail, first_against};
use kiss_file::{KissFile, KissRow, Rows, StateNames, copied_given};
use machine_table::Machine;
use partition::Partition;
use std::alloc::{AllocError, Global};

/// The machine of the blocks of a partition. The machine m was built from the file.
pub fn quotient(
    alloc: Global,
    file: &KissFile,
    m: &Machine,
    p: &Partition,
) -> Result<KissFile, QuotientFail>
    requires built { m.now ≡ file.now }
    requires numbered { AreNumbered file.now }
    requires states { length p.now ≡ length file.now.states }
    ensures quotient { IfOk result (IsQuotient file.now p.now) }
    ensures named { IfOk result (AreBlocksNamed file.now p.now) }
    ensures rows_in_order { IfOk result (λ _. HaveRowsInOrder file.now p.now) }
    ensures in_order { IsEquivalence file.now p.now → IfOk result (AreBlocksInOrder file.now p.now) }
    ensures closed { IfOk result (λ _. Closed file.now p.now) }
    ensures consistent { IfOk result (λ _. Consistent file.now p.now) }
    ensures table { IfOk result IsTable }
    ensures numbered { IfOk result AreNumbered }
    ensures lawful { IsLawful file.now → IfOk result IsLawful }
    ensures accepted { (fill : Fill) → Accepted file.now fill → IfOk result (λ q. Accepted q fill) }
    ensures answers { IfOk result (AnswersAsMembers file.now p.now) }
    ensures apart { IsEquivalence file.now p.now → IfOk result AreUnlike }
    ensures caused { IfErr result (Caused file.now p.now) }
{
    m.keeps_its_states();
    if let Some((s, t, x)) = first_against(m, p, Demand::NextStates) {
        return Err(QuotientFail::NotClosed { s, t, x });
    }
    if let Some((s, t, x)) = first_against(m, p, Demand::Outputs) {
        return Err(QuotientFail::NotConsistent { s, t, x });
    }
    let file = file_of_blocks(alloc, file, p)?;
    Ok(file)
}

/// The file of the blocks, each of which has a name.
fn file_of_blocks(alloc: Global, file: &KissFile, p: &Partition) -> Result<KissFile, AllocError>
    requires table { IsTable file.now }
    requires p { length p.now ≡ length file.now.states }
    requires each { AreAllNamed file.now p.now }
    ensures { IfOk result (IsQuotient file.now p.now) }
{
    let input_names = copied_given(alloc, &file.input_names)?;
    let output_names = copied_given(alloc, &file.output_names)?;
    let mut states = StateNames::new(alloc);
    let (reset, rows) = name_blocks(alloc, &mut states, file, p)?;
    Ok(KissFile {
        inputs: file.inputs,
        outputs: file.outputs,
        reset,
        states,
        rows,
        input_names,
        output_names,
    })
}

/// Names the blocks. Returns the number of the block of the reset state, and the rows of the blocks.
fn name_blocks(
    alloc: Global,
    states: &mut StateNames,
    file: &KissFile,
    p: &Partition,
) -> Result<(u16, Rows), AllocError>
    requires table { IsTable file.now }
    requires p { length p.now ≡ length file.now.states }
    requires each { AreAllNamed file.now p.now }
    requires empty { states.old ≡ [] }
    ensures reset { IfOk result (λ made. made.0 ≡ block_number file.now p.now file.now.reset) }
    ensures rows { IfOk result (λ made. made.1 ≡ map (row_of_blocks file.now p.now) (kept_rows file.now p.now)) }
    ensures names { OnOk result (states.new ≡ block_names file.now p.now) }
{
    add_currents(states, file, p)?;
    add_nexts(states, file, p)?;
    let reset = number_of(states, file, p, file.reset);
    let rows = rows_of_blocks(alloc, states, file, p)?;
    Ok((reset, rows))
}

/// Adds the names of the blocks of current states.
fn add_currents(states: &mut StateNames, file: &KissFile, p: &Partition) -> Result<(), AllocError>
    requires table { IsTable file.now }
    requires p { length p.now ≡ length file.now.states }
    requires empty { states.old ≡ [] }
    ensures { OnOk result (states.new ≡ each_once (currents_of file.now p.now file.now.rows)) }
{
    for row in file.rows.as_slice() {
        if is_kept(p, row) {
            add_block(states, file, p, row.from)?;
        }
    }
    Ok(())
}

/// Adds the names of the blocks of next states.
fn add_nexts(states: &mut StateNames, file: &KissFile, p: &Partition) -> Result<(), AllocError>
    requires table { IsTable file.now }
    requires p { length p.now ≡ length file.now.states }
    requires currents { states.old ≡ each_once (currents_of file.now p.now file.now.rows) }
    ensures { OnOk result (states.new ≡ block_names file.now p.now) }
{
    for row in file.rows.as_slice() {
        if !is_kept(p, row) {
            continue;
        }
        if let Some(t) = row.to {
            add_block(states, file, p, t)?;
        }
    }
    Ok(())
}

/// The rows of the blocks, where the name of each block is among the states.
fn rows_of_blocks(
    alloc: Global,
    states: &StateNames,
    file: &KissFile,
    p: &Partition,
) -> Result<Rows, AllocError>
    requires table { IsTable file.now }
    requires p { length p.now ≡ length file.now.states }
    requires names { states.now ≡ block_names file.now p.now }
    requires each { AreAllNamed file.now p.now }
    ensures { IfOk result (λ rows. rows ≡ map (row_of_blocks file.now p.now) (kept_rows file.now p.now)) }
{
    let mut rows = Rows::new(alloc);
    for row in file.rows.as_slice() {
        if is_kept(p, row) {
            rows.push(row_of(states, file, p, row))?;
        }
    }
    Ok(rows)
}

/// The row with its states replaced by their blocks.
fn row_of(states: &StateNames, file: &KissFile, p: &Partition, row: &KissRow) -> KissRow
    requires table { IsTable file.now }
    requires p { length p.now ≡ length file.now.states }
    requires names { states.now ≡ block_names file.now p.now }
    requires each { AreAllNamed file.now p.now }
    requires from { row.now.from < length file.now.states }
    requires to { IfSome row.now.to (λ t. t < length file.now.states) }
    ensures { result ≡ row_of_blocks file.now p.now row.now }
{
    let from = number_of(states, file, p, row.from);
    let to = match row.to {
        Some(t) => Some(number_of(states, file, p, t)),
        None => None,
    };
    KissRow {
        cube: row.cube,
        from,
        to,
        care: row.care,
        value: row.value,
    }
}

/// Whether the row is kept: its current state is the least of its block.
fn is_kept(p: &Partition, row: &KissRow) -> bool
    requires { row.now.from < length p.now }
    ensures { result ≡ (least_of p.now row.now.from == row.now.from) }
{
    let from = usize::from(row.from);
    p.least_of(from) == from
}

/// Adds the name of the block of a state at the end, unless it is among the names.
fn add_block(
    states: &mut StateNames,
    file: &KissFile,
    p: &Partition,
    s: u16,
) -> Result<(), AllocError>
    requires s { s < length file.now.states }
    requires p { length p.now ≡ length file.now.states }
    requires few { length states.old < 65535 }
    ensures known { Contains states.old (block_name file.now p.now s) → OnOk result (states.new ≡ states.old) }
    ensures last { (¬ Contains states.old (block_name file.now p.now s))
        → OnOk result (states.new ≡ states.old ++ block_name file.now p.now s ∷ []) }
{
    states.add(file.states.name(p.least_of(usize::from(s))))?;
    Ok(())
}

/// The number of the block of a state: the place of its name among the names.
fn number_of(states: &StateNames, file: &KissFile, p: &Partition, s: u16) -> u16
    requires table { IsTable file.now }
    requires s { s < length file.now.states }
    requires p { length p.now ≡ length file.now.states }
    requires names { states.now ≡ block_names file.now p.now }
    requires each { AreAllNamed file.now p.now }
    ensures { result ≡ block_number file.now p.now s }
{
    match states.number(file.states.name(p.least_of(usize::from(s)))) {
        Some(number) => number,
        None => unreachable!(),
    }
}
