//! The network of codes.

ghost use Rattle.std.specs.Prelude.{◌≡◌, ◌≤◌, IfOk, OnOk, [], length};
ghost use Rattle.dependence.specs.Bit.{IsBit, value_of};
ghost use Rattle.dependence.specs.SufficientBits.{next_value, output_value};
ghost use Rattle.realise.specs.CodeNetwork.{AreCounted, AreEnough, IsEnough, IsGateFor, IsRealised, IsWithin};
ghost use Rattle.realise.specs.Inner.AddedGates.{AddsGates};
ghost use Rattle.realise.specs.Inner.FilledRows.{AreFilled};

use crate::lists::gate_rows_of;
use crate::whole_rows::state_rows;
use dependence::{Bit, ReadSet, Reads};
use gate_rows::{latches, listed_names, name_from};
use hs_io::{Name, Names, copied_names};
use kiss_file::KissRow;
use machine_table::Machine;
use net_core::{Gate, Gates, Latches, Network, SignalNames};
use state_codes::Codes;
use std::alloc::{AllocError, Global};

/// The network of the codes.
///
/// The latches start at the code of the reset state. There is one gate for each latch input and then one for
/// each output, in order. Each gate lists the names of its read inputs and then those of its read latch
/// outputs. It fails only for want of memory.
pub fn network(
    alloc: Global,
    m: &Machine,
    codes: &Codes,
    reads: &Reads,
    names: &SignalNames,
) -> Result<Network, AllocError>
    requires words { length codes.now.words ≡ length m.now.states }
    requires short { codes.now.bits ≤ 64 }
    requires names { AreCounted m.now codes.now.bits names.now }
    requires reads { AreEnough m.now codes.now.bits codes.now.words reads.now }
    ensures { IfOk result (IsRealised m.now codes.now.bits codes.now.words reads.now names.now) }
{
    let mut net = Network {
        inputs: Names::new(alloc),
        outputs: Names::new(alloc),
        latches: Latches::new(alloc),
        gates: Gates::new(alloc),
    };
    fill(alloc, m, codes, reads, names, &mut net)?;
    Ok(net)
}

/// Gives a network without gates its names, its latches and its gates.
fn fill(
    alloc: Global,
    m: &Machine,
    codes: &Codes,
    reads: &Reads,
    names: &SignalNames,
    net: &mut Network,
) -> Result<(), AllocError>
    requires words { length codes.now.words ≡ length m.now.states }
    requires short { codes.now.bits ≤ 64 }
    requires names { AreCounted m.now codes.now.bits names.now }
    requires reads { AreEnough m.now codes.now.bits codes.now.words reads.now }
    requires bare { net.old.gates ≡ [] }
    ensures { OnOk result (IsRealised m.now codes.now.bits codes.now.words reads.now names.now net.new) }
{
    let start = codes.words.as_slice()[m.reset()];
    net.inputs = copied_names(alloc, names.inputs.as_slice())?;
    net.outputs = copied_names(alloc, names.outputs.as_slice())?;
    net.latches = latches(alloc, names, start, codes.bits)?;
    let filled = state_rows(alloc, m)?;
    add_latch_gates(alloc, m, codes, reads, names, &filled, &mut net.gates)?;
    add_output_gates(alloc, m, codes, reads, names, &filled, &mut net.gates)
}

/// Adds the gates of the latch inputs.
fn add_latch_gates(
    alloc: Global,
    m: &Machine,
    codes: &Codes,
    reads: &Reads,
    names: &SignalNames,
    filled: &[KissRow],
    gates: &mut Gates,
) -> Result<(), AllocError>
    requires words { length codes.now.words ≡ length m.now.states }
    requires short { codes.now.bits ≤ 64 }
    requires names { AreCounted m.now codes.now.bits names.now }
    requires reads { AreEnough m.now codes.now.bits codes.now.words reads.now }
    requires filled { AreFilled m.now filled.now }
    ensures { OnOk result
        (AddsGates m.now codes.now.words names.now
        (next_value m.now codes.now.words) names.now.latch_inputs reads.now.latches gates.old gates.new) }
{
    for (i, set) in reads.latches.as_slice().iter().enumerate() {
        let name = name_from(alloc, &names.latch_inputs, i)?;
        gates.push(gate(alloc, m, codes, names, filled, set, Bit::Latch(i), name)?)?;
    }
    Ok(())
}

/// Adds the gates of the outputs.
fn add_output_gates(
    alloc: Global,
    m: &Machine,
    codes: &Codes,
    reads: &Reads,
    names: &SignalNames,
    filled: &[KissRow],
    gates: &mut Gates,
) -> Result<(), AllocError>
    requires words { length codes.now.words ≡ length m.now.states }
    requires short { codes.now.bits ≤ 64 }
    requires names { AreCounted m.now codes.now.bits names.now }
    requires reads { AreEnough m.now codes.now.bits codes.now.words reads.now }
    requires filled { AreFilled m.now filled.now }
    ensures { OnOk result
        (AddsGates m.now codes.now.words names.now
        (output_value m.now) names.now.outputs reads.now.outputs gates.old gates.new) }
{
    for b in 0..m.outputs() {
        let set = &reads.outputs.as_slice()[usize::from(b)];
        let name = name_from(alloc, &names.outputs, usize::from(b))?;
        gates.push(gate(alloc, m, codes, names, filled, set, Bit::Output(b), name)?)?;
    }
    Ok(())
}

/// The gate of a bit, with this name for its output.
fn gate(
    alloc: Global,
    m: &Machine,
    codes: &Codes,
    names: &SignalNames,
    filled: &[KissRow],
    set: &ReadSet,
    bit: Bit,
    name: Name,
) -> Result<Gate, AllocError>
    requires words { length codes.now.words ≡ length m.now.states }
    requires short { codes.now.bits ≤ 64 }
    requires names { AreCounted m.now codes.now.bits names.now }
    requires filled { AreFilled m.now filled.now }
    requires within { IsWithin m.now.inputs codes.now.bits set.now }
    requires enough { IsEnough m.now codes.now.words (value_of m.now codes.now.words bit) set.now }
    requires bit { IsBit m.now bit }
    ensures { IfOk result
        (IsGateFor m.now codes.now.words names.now set.now (value_of m.now codes.now.words bit) name) }
{
    let rows = gate_rows_of(
        alloc,
        m,
        filled,
        codes.words.as_slice(),
        codes.bits,
        set,
        bit,
    )?;
    Ok(Gate {
        inputs: listed_names(alloc, names, set.inputs.as_slice(), set.latches.as_slice())?,
        output: name,
        rows,
        on: true,
    })
}
