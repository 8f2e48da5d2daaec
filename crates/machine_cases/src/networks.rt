//! Networks as texts: their statements in order, joined by semicolons.

use case_lines::Answer;
use hs_io::Names;
use net_core::{Gate, Latch, Network};

/// Puts the statements of a network.
pub(crate) fn put_network(net: &Network, answer: &mut Answer) {
    answer.add(b".inputs");
    put_names(&net.inputs, answer);
    answer.add(b"; .outputs");
    put_names(&net.outputs, answer);
    put_latches(net.latches.as_slice(), answer);
    put_gates(net.gates.as_slice(), answer);
}

/// Puts names, each after a space.
fn put_names(names: &Names, answer: &mut Answer) {
    for name in names.as_slice() {
        answer.add_all(&[b" ", name.bytes()]);
    }
}

/// Puts latches: the input, the output and the digit of the start of each.
fn put_latches(latches: &[Latch], answer: &mut Answer) {
    for latch in latches {
        let (input, output) = (latch.input.bytes(), latch.output.bytes());
        let digit = latch.start.digit();
        answer.add_all(&[b"; .latch ", input, b" ", output, b" ", &[digit]]);
    }
}

/// Puts gates.
fn put_gates(gates: &[Gate], answer: &mut Answer) {
    for gate in gates {
        put_gate(gate, answer);
    }
}

/// Puts a gate: what it lists and its output, and then its rows.
fn put_gate(gate: &Gate, answer: &mut Answer) {
    answer.add(b"; .names");
    put_names(&gate.inputs, answer);
    answer.add_all(&[b" ", gate.output.bytes()]);
    for row in gate.rows.as_slice() {
        put_row(row.bytes(), gate.on, answer);
    }
}

/// Puts a row and the value that it has.
fn put_row(row: &[u8], on: bool, answer: &mut Answer) {
    answer.add_all(&[b"; ", row]);
    if !row.is_empty() {
        answer.add(b" ");
    }
    answer.add_number(u64::from(on));
}
