//! What is counted of a network. A count that is too great for its type is one of things that no memory holds.

ghost use Rattle.std.specs.Prelude.{◌≡◌, ◌+◌, ◌++◌, IfOk, OnOk, count_by, length, map, sum};
ghost use Rattle.std.specs.List.{list_any};
ghost use Rattle.std.specs.Str.{bytes_eq};
ghost use Rattle.comparisons.specs.Counts.{
  AreCounts,
  AreReadsAcross,
  is_literal,
  latch_reads,
  literals_in,
  literals_of,
  output_apart,
  outputs_apart,
  outputs_of,
  reads_by,
  reads_of,
  rows_of,
};

use blif_out::LatchNote;
use hs_io::{Name, Names};
use hs_texts::comparisons::NetworkCounts;
use net_core::{Gate, Latch, Network};
use std::alloc::{AllocError, Global};

/// What is counted of a network, of whose reads so many are across.
pub(crate) fn counts_of(
    alloc: Global,
    net: &Network,
    across: usize,
) -> Result<NetworkCounts, AllocError>
    ensures counted { IfOk result (AreCounts net.now) }
    ensures across { IfOk result (λ counts. counts.across ≡ across) }
{
    let gates = net.gates.as_slice();
    Ok(NetworkCounts {
        latches: net.latches.as_slice().len(),
        reads: count_reads(alloc, net)?,
        across,
        rows: count_rows(gates)?,
        literals: count_literals(gates)?,
    })
}

/// How many latch outputs the gates of latches list.
fn count_reads(alloc: Global, net: &Network) -> Result<usize, AllocError>
    ensures { IfOk result (λ count. count ≡ latch_reads net.now) }
{
    let gates = net.gates.as_slice();
    let latches = net.latches.as_slice();
    let outputs = copied_outputs(alloc, latches)?;
    let count = count_within(gates, latches, outputs.as_slice())?;
    Ok(count)
}

/// How many of these outputs the gates of latches list.
fn count_within(gates: &[Gate], latches: &[Latch], outputs: &[Name]) -> Result<usize, AllocError>
    ensures { IfOk result
        (λ count. count ≡ sum (map (λ latch. reads_of gates.now latch.input outputs.now) latches.now)) }
{
    let mut count = 0;
    for latch in latches {
        count = added(count, count_listed(gates, latch.input.bytes(), outputs)?)?;
    }
    Ok(count)
}

/// How many latch outputs the gates of latches list whose latch belongs to another part.
pub(crate) fn count_across(
    alloc: Global,
    net: &Network,
    notes: &[LatchNote],
) -> Result<usize, AllocError>
    requires { length net.now.latches ≡ length notes.now }
    ensures { IfOk result (AreReadsAcross net.now notes.now) }
{
    let gates = net.gates.as_slice();
    let latches = net.latches.as_slice();
    let mut count = 0;
    for i in 0..latches.len() {
        let outputs = copied_apart(alloc, latches, notes, notes[i].part)?;
        let reads = count_listed(gates, latches[i].input.bytes(), outputs.as_slice())?;
        count = added(count, reads)?;
    }
    Ok(count)
}

/// A copy of the outputs of latches.
fn copied_outputs(alloc: Global, latches: &[Latch]) -> Result<Names, AllocError>
    ensures { IfOk result (λ outputs. outputs ≡ outputs_of latches.now) }
{
    let mut outputs = Names::new(alloc);
    for latch in latches {
        outputs.push(Name::new(alloc, latch.output.bytes())?)?;
    }
    Ok(outputs)
}

/// A copy of the outputs of the latches that belong to other parts than this one.
fn copied_apart(
    alloc: Global,
    latches: &[Latch],
    notes: &[LatchNote],
    part: u16,
) -> Result<Names, AllocError>
    requires { length latches.now ≡ length notes.now }
    ensures { IfOk result (λ outputs. outputs ≡ outputs_apart part latches.now notes.now) }
{
    let mut outputs = Names::new(alloc);
    for i in 0..latches.len() {
        push_apart(alloc, &mut outputs, &latches[i], &notes[i], part)?;
    }
    Ok(outputs)
}

/// Adds the output of a latch that belongs, as its note says, to another part than this one.
fn push_apart(
    alloc: Global,
    outputs: &mut Names,
    latch: &Latch,
    note: &LatchNote,
    part: u16,
) -> Result<(), AllocError>
    ensures { OnOk result (outputs.new ≡ outputs.old ++ output_apart part (latch.now, note.now)) }
{
    if note.part != part {
        outputs.push(Name::new(alloc, latch.output.bytes())?)?;
    }
    Ok(())
}

/// How many of these outputs the gates of a signal list.
fn count_listed(gates: &[Gate], signal: &[u8], outputs: &[Name]) -> Result<usize, AllocError>
    ensures { IfOk result (λ count. count ≡ reads_of gates.now signal.now outputs.now) }
{
    let mut count = 0;
    for gate in gates {
        count = added(count, count_listed_by(gate, signal, outputs))?;
    }
    Ok(count)
}

/// How many of these outputs a gate lists, if it is one of the signal.
fn count_listed_by(gate: &Gate, signal: &[u8], outputs: &[Name]) -> usize
    ensures { result ≡ reads_by signal.now outputs.now gate.now }
{
    if gate.output.bytes() == signal {
        count_among(gate.inputs.as_slice(), outputs)
    } else {
        0
    }
}

/// How many of some names are among others.
fn count_among(names: &[Name], others: &[Name]) -> usize
    ensures { result ≡ count_by (λ name. list_any (bytes_eq name) others.now) names.now }
{
    names.iter().filter(|name| is_among(others, name)).count()
}

/// Whether a name is among some.
fn is_among(names: &[Name], name: &Name) -> bool
    ensures { result ≡ list_any (bytes_eq name.now) names.now }
{
    let bytes = name.bytes();
    names.iter().any(|other| bytes == other.bytes())
}

/// How many rows the gates have.
fn count_rows(gates: &[Gate]) -> Result<usize, AllocError>
    ensures { IfOk result (λ count. count ≡ rows_of gates.now) }
{
    let mut count = 0;
    for gate in gates {
        count = added(count, gate.rows.as_slice().len())?;
    }
    Ok(count)
}

/// How many literals the gates have.
fn count_literals(gates: &[Gate]) -> Result<usize, AllocError>
    ensures { IfOk result (λ count. count ≡ literals_of gates.now) }
{
    let mut count = 0;
    for gate in gates {
        count = added(count, count_literals_in(gate.rows.as_slice())?)?;
    }
    Ok(count)
}

/// How many literals rows have.
fn count_literals_in(rows: &[Name]) -> Result<usize, AllocError>
    ensures { IfOk result (λ count. count ≡ literals_in rows.now) }
{
    let mut count = 0;
    for row in rows {
        count = added(count, count_characters(row.bytes()))?;
    }
    Ok(count)
}

/// How many characters of a row are literals, and not dashes.
fn count_characters(row: &[u8]) -> usize
    ensures { result ≡ count_by is_literal row.now }
{
    row.iter()
        .filter(|character| **character == b'0' || **character == b'1')
        .count()
}

/// A count with more.
fn added(count: usize, more: usize) -> Result<usize, AllocError>
    ensures { IfOk result (λ sum. sum ≡ count + more) }
{
    match count.checked_add(more) {
        Some(sum) => Ok(sum),
        None => Err(AllocError),
    }
}
