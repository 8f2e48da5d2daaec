//! The calls of `net_sim`.

ghost use Rattle.std.specs.Prelude.{◌≤◌, length};

use crate::letters::network;
use crate::words::{bytes, put_unsound};
use case_lines::Answer;
use net_core::{Network, Order, check};
use net_sim::{SimFail, SymbolFail, append_answer, read_symbols, run, step_into};
use std::alloc::{AllocError, Global};

/// Puts what a call answers.
pub(crate) fn put_answer(alloc: Global, call: &str, words: &str, answer: &mut Answer) {
    let Some((first, rest)) = words.split_once('|') else {
        return answer.fail();
    };
    match call {
        "read_symbols" => put_symbols(alloc, first, rest, answer),
        "append_answer" => put_appended(alloc, first, rest, answer),
        "run" => put_run(alloc, first, rest, answer),
        "step_into" => put_steps(alloc, first, rest, answer),
        _ => answer.fail(),
    }
}

/// Puts the answers of a network to the symbols after its start.
fn put_run(alloc: Global, net: &str, words: &str, answer: &mut Answer) {
    let Some((start, symbols)) = words.split_once('|') else {
        return answer.fail();
    };
    match bytes(alloc, symbols) {
        Some(symbols) => put_run_on(alloc, net, start, symbols.as_slice(), answer),
        None => answer.fail(),
    }
}

/// Puts the answers of a network to symbols from a start.
fn put_run_on(alloc: Global, net: &str, start: &str, symbols: &[u8], answer: &mut Answer)
    requires { length symbols.now ≤ 4194304 }
{
    match network(alloc, net) {
        Some(net) => put_answers(alloc, &net, start_of(start), symbols, answer),
        None => answer.fail(),
    }
}

/// The start that a word says, or none where it is the network's own.
fn start_of(word: &str) -> Option<&[u8]> {
    if word == "own" {
        None
    } else {
        Some(word.as_bytes())
    }
}

/// Puts the answers of a network to symbols, or why there are none.
fn put_answers(
    alloc: Global,
    net: &Network,
    start: Option<&[u8]>,
    symbols: &[u8],
    answer: &mut Answer,
)
    requires { length symbols.now ≤ 4194304 }
{
    match check(alloc, net) {
        Ok(order) => match run(alloc, net, &order, start, symbols) {
            Ok(answers) => answer.add(answers.as_slice()),
            Err(fail) => put_refused(&fail, answer),
        },
        Err(fail) => put_unsound(&fail, b"", answer),
    }
}

/// Puts why there is no run.
fn put_refused(fail: &SimFail, answer: &mut Answer) {
    match fail {
        SimFail::BadStart => answer.add(b"bad start"),
        SimFail::UnknownStart { latch } => answer.add_all(&[b"start unknown ", latch.bytes()]),
        SimFail::BadSymbol { line } => answer.add_displayed(format_args!("symbols line {line}")),
        SimFail::NoMemory => answer.fail(),
    }
}

/// The bits that a text says. A dash says none.
fn bits(alloc: Global, text: &str) -> Result<Vec<bool>, AllocError> {
    let mut bits = Vec::new(alloc);
    add_bits(text.as_bytes(), &mut bits)?;
    Ok(bits)
}

/// Adds the bits of characters. A dash has none.
fn add_bits(text: &[u8], bits: &mut Vec<bool>) -> Result<(), AllocError> {
    for byte in text {
        if *byte != b'-' {
            bits.push(*byte == b'1')?;
        }
    }
    Ok(())
}

/// Puts the text of bits.
fn put_bits(bits: &[bool], answer: &mut Answer) {
    for bit in bits {
        answer.add(if *bit { b"1" } else { b"0" });
    }
}

/// Puts the output of a network at the symbol after its state, and the next latch values.
fn put_steps(alloc: Global, net: &str, words: &str, answer: &mut Answer) {
    match network(alloc, net) {
        Some(net) => put_steps_of(alloc, &net, words, answer),
        None => answer.fail(),
    }
}

/// Puts the output and the next latch values of a network, or why it is not sound.
fn put_steps_of(alloc: Global, net: &Network, words: &str, answer: &mut Answer) {
    match check(alloc, net) {
        Ok(order) => put_step(alloc, &order, words, answer),
        Err(fail) => put_unsound(&fail, b"", answer),
    }
}

/// Makes a step from a state at the symbol after it, and puts the output and the next latch values.
fn put_step(alloc: Global, order: &Order, words: &str, answer: &mut Answer) {
    let Some((state, symbol)) = words.split_once('|') else {
        return answer.fail();
    };
    match bits(alloc, state) {
        Ok(mut state) => put_step_from(alloc, order, state.as_mut_slice(), symbol, answer),
        Err(_) => answer.fail(),
    }
}

/// Makes a step, and puts the output and the next latch values.
fn put_step_from(
    alloc: Global,
    order: &Order,
    state: &mut [bool],
    symbol: &str,
    answer: &mut Answer,
) {
    match output_at(alloc, order, state, symbol) {
        Some(output) => put_bits(output.as_slice(), answer),
        None => answer.fail(),
    }
    answer.add(b" ");
    put_bits(state, answer);
}

/// Makes a step at the symbol that a text says. There is no output where the text does not say a symbol.
fn output_at(alloc: Global, order: &Order, state: &mut [bool], symbol: &str) -> Option<Vec<bool>> {
    let symbol = bits(alloc, symbol).ok()?;
    output_of(alloc, order, state, symbol.as_slice())
}

/// Makes a step, and gives the output. There is none where the state or the symbol has another length.
fn output_of(
    alloc: Global,
    order: &Order,
    state: &mut [bool],
    symbol: &[bool],
) -> Option<Vec<bool>> {
    if state.len() != order.latches() || symbol.len() != order.inputs() {
        return None;
    }
    let mut output = vec![in alloc; true; order.outputs()].ok()?;
    let mut scratch = vec![in alloc; true; order.signals()].ok()?;
    step_into(order, state, symbol, &mut output, &mut scratch);
    Some(output)
}

/// Puts the numbers of the symbols of a file, or the line that is refused.
fn put_symbols(alloc: Global, inputs: &str, symbols: &str, answer: &mut Answer) {
    match (inputs.parse(), bytes(alloc, symbols)) {
        (Ok(inputs), Some(symbols)) => put_numbers(alloc, inputs, symbols.as_slice(), answer),
        _ => answer.fail(),
    }
}

/// Puts the numbers of symbols as they are written for debugging, or the line that is refused.
fn put_numbers(alloc: Global, inputs: u8, symbols: &[u8], answer: &mut Answer)
    requires { length symbols.now ≤ 4194304 }
{
    if inputs > 32 {
        return answer.fail();
    }
    match read_symbols(alloc, inputs, symbols) {
        Ok(numbers) => answer.add_displayed(format_args!("{numbers:?}")),
        Err(SymbolFail::Refused { line }) => {
            answer.add_displayed(format_args!("refused line {line}"));
        }
        Err(SymbolFail::NoMemory) => answer.fail(),
    }
}

/// Puts a text with an answer appended to it.
fn put_appended(alloc: Global, front: &str, bits: &str, answer: &mut Answer) {
    match appended(alloc, front, bits) {
        Some(text) => answer.add(text.as_slice()),
        None => answer.fail(),
    }
}

/// A text with an answer appended to it.
fn appended(alloc: Global, front: &str, answer: &str) -> Option<Vec<u8>> {
    let mut text = bytes(alloc, front)?;
    let answer = bits(alloc, answer).ok()?;
    append_answer(&mut text, answer.as_slice()).ok()?;
    Some(text)
}
