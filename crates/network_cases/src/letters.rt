//! Networks whose names are letters.

ghost use Rattle.std.specs.Prelude.{◌≡◌, []};

use hs_io::{Name, Names};
use net_core::{Gate, Gates, Latch, Latches, Network, Start};
use std::alloc::{AllocError, Global};

/// The network that a text says: its inputs, outputs, latches and gates, separated by `/`.
pub(crate) fn network(alloc: Global, text: &str) -> Option<Network> {
    let mut net = empty_network(alloc);
    fill(alloc, text, &mut net)?;
    Some(net)
}

/// The network without signals.
pub(crate) fn empty_network(alloc: Global) -> Network
    ensures inputs { result.inputs ≡ [] }
    ensures outputs { result.outputs ≡ [] }
    ensures latches { result.latches ≡ [] }
    ensures gates { result.gates ≡ [] }
{
    Network {
        inputs: Names::new(alloc),
        outputs: Names::new(alloc),
        latches: Latches::new(alloc),
        gates: Gates::new(alloc),
    }
}

/// Adds what a text says to a network.
fn fill(alloc: Global, text: &str, net: &mut Network) -> Option<()> {
    let (inputs, rest) = text.split_once('/')?;
    let (outputs, rest) = rest.split_once('/')?;
    let (latches, gates) = rest.split_once('/')?;
    add_letters(alloc, inputs.as_bytes(), &mut net.inputs).ok()?;
    add_letters(alloc, outputs.as_bytes(), &mut net.outputs).ok()?;
    add_latches(alloc, latches, &mut net.latches)?;
    add_gates(alloc, gates, &mut net.gates)
}

/// Adds each letter as a name.
fn add_letters(alloc: Global, text: &[u8], names: &mut Names) -> Result<(), AllocError> {
    for letter in text {
        add_name(alloc, &[*letter], names)?;
    }
    Ok(())
}

/// Adds a name.
fn add_name(alloc: Global, bytes: &[u8], names: &mut Names) -> Result<(), AllocError> {
    names.push(Name::new(alloc, bytes)?)
}

/// Adds the latches of words.
fn add_latches(alloc: Global, words: &str, latches: &mut Latches) -> Option<()> {
    for word in words.split_whitespace() {
        latches.push(latch(alloc, word.as_bytes())?).ok()?;
    }
    Some(())
}

/// A latch: the letters of its input and of its output, and the digit of its start.
fn latch(alloc: Global, word: &[u8]) -> Option<Latch> {
    let [input, output, digit] = word else {
        return None;
    };
    let input = Name::new(alloc, &[*input]).ok()?;
    let output = Name::new(alloc, &[*output]).ok()?;
    Some(Latch {
        input,
        output,
        start: start_of(*digit),
    })
}

/// The start of a digit.
fn start_of(digit: u8) -> Start {
    match digit {
        b'0' => Start::Zero,
        b'1' => Start::One,
        b'2' => Start::Free,
        _ => Start::Unknown,
    }
}

/// Adds the gates of words.
fn add_gates(alloc: Global, words: &str, gates: &mut Gates) -> Option<()> {
    for word in words.split_whitespace() {
        gates.push(gate(alloc, word)?).ok()?;
    }
    Some(())
}

/// A gate: the letters of its output and of its inputs, then `=` or `!`, and then its rows, each after a comma.
/// With `=` the rows list the on-set, and with `!` the off-set.
fn gate(alloc: Global, word: &str) -> Option<Gate> {
    let (front, _) = word.split_once(',').unwrap_or((word, ""));
    let (names, on) = names_of(front.as_bytes());
    let (output, inputs) = names.split_first()?;
    let mut gate = lone_gate(alloc, *output, on).ok()?;
    add_letters(alloc, inputs, &mut gate.inputs).ok()?;
    add_rows(alloc, word, &mut gate.rows).ok()?;
    Some(gate)
}

/// The names of a gate, and whether its rows list the on-set.
fn names_of(front: &[u8]) -> (&[u8], bool) {
    match front {
        [names @ .., b'!'] => (names, false),
        [names @ .., b'='] => (names, true),
        names => (names, true),
    }
}

/// The gate of a letter without inputs and rows.
fn lone_gate(alloc: Global, output: u8, on: bool) -> Result<Gate, AllocError> {
    let output = Name::new(alloc, &[output])?;
    Ok(Gate {
        inputs: Names::new(alloc),
        output,
        rows: Names::new(alloc),
        on,
    })
}

/// Adds the pieces of a word after its commas.
fn add_rows(alloc: Global, word: &str, rows: &mut Names) -> Result<(), AllocError> {
    for row in word.split(',').skip(1) {
        add_name(alloc, row.as_bytes(), rows)?;
    }
    Ok(())
}
