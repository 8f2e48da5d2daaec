//! The calls of `blif_in` and `blif_out`.

ghost use Rattle.std.specs.Prelude.{◌≤◌, length};

use crate::letters::empty_network;
use crate::words::{bytes, put_names, put_unsound};
use blif_in::{BlifFail, BlifFault, BlifKind, read};
use blif_out::{Header, append};
use case_lines::{Answer, number};
use hs_list::Items;
use kiss_file::StateNames;
use net_core::{Gate, Latch, Network};
use state_codes::Kind;
use std::alloc::{AllocError, Global};

/// Puts what a call answers.
pub(crate) fn put_answer(alloc: Global, call: &str, words: &str, answer: &mut Answer) {
    match call {
        "blif" => put_text(alloc, bytes(alloc, words), answer),
        "blif_repeated" => put_text(alloc, repeated(alloc, words), answer),
        _ => put_written(alloc, answer),
    }
}

/// The text of a front and of a piece that is repeated the given number of times.
fn repeated(alloc: Global, words: &str) -> Option<Vec<u8>> {
    let (times, rest) = words.split_once('|')?;
    let (front, piece) = rest.split_once('|')?;
    let times = number(times).ok()?;
    let mut text = bytes(alloc, front)?;
    let piece = bytes(alloc, piece)?;
    repeat(piece.as_slice(), times, &mut text).ok()?;
    Some(text)
}

/// Appends a piece the given number of times.
fn repeat(piece: &[u8], times: usize, text: &mut Vec<u8>) -> Result<(), AllocError> {
    for _ in 0..times {
        text.extend_from_slice(piece)?;
    }
    Ok(())
}

/// Puts the network that a text says, or its first fault.
fn put_text(alloc: Global, text: Option<Vec<u8>>, answer: &mut Answer) {
    match text {
        Some(text) => put_bytes(alloc, text.as_slice(), answer),
        None => answer.fail(),
    }
}

/// Puts the network that bytes say, or their first fault, if they are no more than a file can have.
pub(crate) fn put_bytes(alloc: Global, bytes: &[u8], answer: &mut Answer) {
    if bytes.len() <= 4_194_304 {
        put_read(alloc, bytes, answer);
    } else {
        answer.fail();
    }
}

/// Puts the network that bytes say, or their first fault.
fn put_read(alloc: Global, bytes: &[u8], answer: &mut Answer)
    requires { length bytes.now ≤ 4194304 }
{
    match read(alloc, bytes) {
        Ok(net) => put_network(&net, answer),
        Err(BlifFail::Refused(fault)) => put_fault(&fault, answer),
        Err(BlifFail::NoMemory) => answer.fail(),
    }
}

/// Puts a network in one line: inputs, outputs, latches with their starts, and gates with their rows.
fn put_network(net: &Network, answer: &mut Answer) {
    put_names(net.inputs.as_slice(), b" ", answer);
    answer.add(b"/ ");
    put_names(net.outputs.as_slice(), b" ", answer);
    answer.add(b"/ ");
    put_latches(net.latches.as_slice(), answer);
    answer.add(b"/ ");
    put_gates(net.gates.as_slice(), answer);
}

/// Puts latches, each with the digit of its start.
fn put_latches(latches: &[Latch], answer: &mut Answer) {
    for latch in latches {
        let (input, output) = (latch.input.bytes(), latch.output.bytes());
        let digit = latch.start.digit();
        answer.add_all(&[input, b" ", output, b" ", &[digit], b" "]);
    }
}

/// Puts gates.
fn put_gates(gates: &[Gate], answer: &mut Answer) {
    for gate in gates {
        put_gate(gate, answer);
    }
}

/// Puts a gate with its rows and the bit that they list.
fn put_gate(gate: &Gate, answer: &mut Answer) {
    put_names(gate.inputs.as_slice(), b" ", answer);
    answer.add_all(&[b"-> ", gate.output.bytes(), b" "]);
    put_names(gate.rows.as_slice(), b" ", answer);
    answer.add(if gate.on {
        b"on; ".as_slice()
    } else {
        b"off; "
    });
}

/// Puts a fault.
fn put_fault(fault: &BlifFault, answer: &mut Answer) {
    match &fault.kind {
        BlifKind::Structure(fail) => put_unsound(fail, b" ", answer),
        kind => answer.add_displayed(format_args!("{} {kind:?} ", fault.line)),
    }
}

/// Puts the text of the network without signals, and then the text of that network alone, without a header.
fn put_written(alloc: Global, answer: &mut Answer) {
    match written(alloc) {
        Ok(text) => answer.add(text.as_slice()),
        Err(_) => answer.fail(),
    }
}

/// The text of the network without signals with a header, and then without one.
fn written(alloc: Global) -> Result<Vec<u8>, AllocError> {
    let mut text = headed(alloc)?;
    append(alloc, &empty_network(alloc), &mut text)?;
    Ok(text)
}

/// The text of the network without signals with a header.
fn headed(alloc: Global) -> Result<Vec<u8>, AllocError> {
    let header = Header {
        kind: Kind::Least,
        classes: None,
        parts: Items::new(alloc),
        states: StateNames::new(alloc),
        words: Items::new(alloc),
        latches: Items::new(alloc),
    };
    blif_out::text(alloc, &empty_network(alloc), &header)
}
