//! What the gates of codes read. A machine that never moves has a code with a part of two blocks for each state
//! but the first. `copies` has the partition that separates all states as a part, as many times as its size. In
//! both codes each part may read all others. Other machines have the natural code.

ghost use Rattle.std.specs.Prelude.{◌≡◌, ◌<◌, ◌≤◌, All, IfOk, length};
ghost use Rattle.partition.specs.Partition.{IsPartition, IsStateCount};
ghost use Rattle.state_codes.specs.Code.{IsCode};
ghost use Rattle.state_codes.specs.Split.{IsPart};

use crate::plain_reads;
use anyhow::{Error, bail};
use bench_cases::Case;
use dependence::{ReadSets, reads};
use machine_table::Machine;
use partition::Partition;
use state_codes::{Codes, Split, encode, given, one_part};
use std::alloc::{AllocError, Global};

/// The number of bits and inputs that all gates read.
pub(crate) fn answer(alloc: Global, m: &Machine, case: Case<'_>) -> Result<usize, Error> {
    let split = split_of(alloc, case, m.states())?;
    answer_of_split(alloc, m, &split, case)
}

/// The same number, for the codes of a split.
fn answer_of_split(
    alloc: Global,
    m: &Machine,
    split: &Split,
    case: Case<'_>,
) -> Result<usize, Error>
    requires few { length split.now.parts ≤ 256 }
    requires parts { All (IsPart (length m.now.states)) split.now.parts }
{
    let codes = coded(alloc, split, m.states())?;
    Ok(answer_of_codes(alloc, m, split, &codes, case)?)
}

/// The same number, found as many times as the case says.
fn answer_of_codes(
    alloc: Global,
    m: &Machine,
    split: &Split,
    codes: &Codes,
    case: Case<'_>,
) -> Result<usize, AllocError>
    requires parts { All (IsPart (length m.now.states)) split.now.parts }
    requires code { IsCode (length m.now.states) split.now.parts codes.now }
    requires short { codes.now.bits ≤ 64 }
{
    let mut found = 0;
    for _ in 0..case.times {
        found = if case.work == "reads" {
            read_count(alloc, m, split, codes)?
        } else {
            plain_reads::read_count(alloc, m, codes)?
        };
    }
    Ok(found)
}

/// The same number, as `reads` gives it.
fn read_count(alloc: Global, m: &Machine, split: &Split, codes: &Codes) -> Result<usize, AllocError>
    requires parts { All (IsPart (length m.now.states)) split.now.parts }
    requires code { IsCode (length m.now.states) split.now.parts codes.now }
    requires short { codes.now.bits ≤ 64 }
{
    let found = reads(alloc, m, split, codes)?;
    Ok(counted(&found.latches).wrapping_add(counted(&found.outputs)))
}

/// The number of bits and inputs that some gates read.
fn counted(sets: &ReadSets) -> usize {
    let mut count = 0usize;
    for set in sets.as_slice() {
        count = count.wrapping_add(set.latches.as_slice().len());
        count = count.wrapping_add(set.inputs.as_slice().len());
    }
    count
}

/// The codes of a split of few parts.
fn coded(alloc: Global, split: &Split, n: usize) -> Result<Codes, Error>
    requires states { IsStateCount n }
    requires few { length split.now.parts ≤ 256 }
    requires parts { All (IsPart n) split.now.parts }
    ensures code { IfOk result (λ codes. IsCode n split.now.parts codes) }
    ensures short { IfOk result (λ codes. codes.bits ≤ 64) }
{
    match encode(alloc, split, n) {
        Ok(codes) => Ok(codes),
        Err(_) => bail!("the split has no codes"),
    }
}

/// The split of a case.
fn split_of(alloc: Global, case: Case<'_>, n: usize) -> Result<Split, Error>
    requires { IsStateCount n }
    ensures few { IfOk result (λ split. length split.parts ≤ 256) }
    ensures lawful { IfOk result (λ split. All (IsPart n) split.parts) }
{
    match case.kind {
        "still" => given_split(alloc, true, n, n - 1),
        "copies" => given_split(alloc, false, n, case.size),
        _ => Ok(one_part(alloc, n)?),
    }
}

/// The split that has the given number of partitions.
fn given_split(alloc: Global, apart: bool, n: usize, count: usize) -> Result<Split, Error>
    requires { IsStateCount n }
    ensures few { IfOk result (λ split. length split.parts ≤ 256) }
    ensures lawful { IfOk result (λ split. All (IsPart n) split.parts) }
{
    let partitions = partitions_of(alloc, apart, n, count)?;
    if partitions.is_empty() || partitions.len() > 256 {
        bail!("a split has 1 to 256 parts");
    }
    Ok(given(alloc, partitions)?)
}

/// The given number of partitions. Each separates one state from the others if `apart`, and else all states.
fn partitions_of(
    alloc: Global,
    apart: bool,
    n: usize,
    count: usize,
) -> Result<Vec<Partition>, Error>
    requires { IsStateCount n }
    ensures { IfOk result (λ partitions. All (IsPartition n) partitions.items) }
{
    let mut partitions = Vec::new(alloc);
    for number in 0..count {
        partitions.push(partition_of(alloc, apart, n, number)?)?;
    }
    Ok(partitions)
}

/// The partition with the given number.
fn partition_of(alloc: Global, apart: bool, n: usize, number: usize) -> Result<Partition, Error>
    requires { IsStateCount n }
    ensures { IfOk result (IsPartition n) }
{
    if apart {
        return one_apart(alloc, n, number);
    }
    Ok(Partition::zero(alloc, n)?)
}

/// The partition of n states that separates one state from the others: the state with the given number, counted
/// from the last state.
fn one_apart(alloc: Global, n: usize, number: usize) -> Result<Partition, Error>
    ensures { IfOk result (IsPartition n) }
{
    let mut labels = Vec::new(alloc);
    for s in 0..n {
        labels.push(u16::from(number == n - 1 - s))?;
    }
    match Partition::from_labels(alloc, &labels) {
        Ok(p) if p.len() == n => Ok(p),
        _ => bail!("no labels of a partition"),
    }
}
