//! A plain run of a network: each gate by its rows, character by character, for each symbol.
ghost use Rattle.std.specs.Prelude.{◌≡◌, ◌<◌, All, length};

use net_core::{NumberedGate, Order};
use std::alloc::{AllocError, Global};

/// The number of ones in the answers to the symbols, from a state of zeros.
pub(crate) fn count_ones(
    alloc: Global,
    order: &Order,
    symbols: &[u8],
) -> Result<usize, AllocError> {
    let mut signals = vec![in alloc; false; order.signal_count]?;
    let mut next = vec![in alloc; false; order.latch_signals.len()]?;
    Ok(ones_of_symbols(order, symbols, &mut signals, &mut next))
}

/// The number of ones in the answers to the symbols, from the state that the signals hold.
fn ones_of_symbols(order: &Order, symbols: &[u8], signals: &mut [bool], next: &mut [bool]) -> usize
    requires { length signals.old ≡ order.now.signal_count }
{
    let mut ones = 0usize;
    for symbol in symbols.split(|byte| *byte == b'\n') {
        if !symbol.is_empty() {
            put_symbol(signals, symbol);
            evaluate(order, signals);
            ones = ones.wrapping_add(ones_of_outputs(order, signals));
            step(order, signals, next);
        }
    }
    ones
}

/// The number of outputs that are one.
fn ones_of_outputs(order: &Order, signals: &[bool]) -> usize
    requires { length signals.now ≡ order.now.signal_count }
{
    let mut ones = 0usize;
    for output in &order.output_signals {
        ones = ones.wrapping_add(usize::from(signals[*output]));
    }
    ones
}

/// Gives the inputs the bits of a symbol.
fn put_symbol(signals: &mut [bool], symbol: &[u8])
    ensures { length signals.new ≡ length signals.old }
{
    for place in 0..signals.len().min(symbol.len()) {
        signals[place] = symbol[place] == b'1';
    }
}

/// Gives the gates their values.
fn evaluate(order: &Order, signals: &mut [bool])
    requires { length signals.old ≡ order.now.signal_count }
    ensures { length signals.new ≡ length signals.old }
{
    let base = order.input_count + order.latch_count;
    for place in &order.sequence {
        let gate = &order.gates[*place];
        signals[base + *place] = is_held(gate, signals) == gate.on;
    }
}

/// Whether some row of a gate holds the signals of its inputs.
fn is_held(gate: &NumberedGate, signals: &[bool]) -> bool
    requires { All (λ s. s < length signals.now) gate.now.inputs.items }
{
    for row in gate.rows.as_slice() {
        if row_holds(row.bytes(), &gate.inputs, signals) {
            return true;
        }
    }
    false
}

/// Whether each character of a row holds the signal with its number.
fn row_holds(row: &[u8], numbers: &[usize], signals: &[bool]) -> bool
    requires { All (λ s. s < length signals.now) numbers.now }
{
    for place in 0..row.len().min(numbers.len()) {
        let bit = if signals[numbers[place]] { b'1' } else { b'0' };
        if row[place] != b'-' && row[place] != bit {
            return false;
        }
    }
    true
}

/// Gives all latches their next values at once.
fn step(order: &Order, signals: &mut [bool], next: &mut [bool])
    requires { length signals.old ≡ order.now.signal_count }
    ensures { length signals.new ≡ length signals.old }
{
    let latches = order.latch_signals.len().min(next.len());
    for latch in 0..latches {
        next[latch] = signals[order.latch_signals[latch]];
    }
    for latch in 0..latches.min(order.latch_count) {
        signals[order.input_count + latch] = next[latch];
    }
}
