//! What each latch of the register takes.

ghost use Rattle.std.specs.Prelude.{◌≡◌, ◌+◌, ◌<◌, ◌++◌, IfOk, OnOk, length, map};
ghost use Rattle.std.specs.List.{range_with_len};
ghost use Rattle.shift_real.specs.Gates.{taking};
ghost use Rattle.shift_real.specs.Inner.Latches.{latch_gate, taken_by};

use gate_rows::name_from;
use hs_io::{Name, Names};
use net_core::{Gate, Gates, SignalNames};
use std::alloc::{AllocError, Global};

/// Appends the gates of the given number of latches. The latches of the newest symbol take its bits. Each other
/// latch takes the latch that has the same bit of the next newer symbol.
pub(crate) fn add_latch_gates(
    alloc: Global,
    names: &SignalNames,
    bits: usize,
    gates: &mut Gates,
) -> Result<(), AllocError>
    requires inputs { length names.now.latch_inputs ≡ bits }
    requires outputs { length names.now.latch_outputs ≡ bits }
    requires some { 0 < length names.now.inputs }
    ensures { OnOk result (gates.new ≡ gates.old ++ map (latch_gate names.now) (range_with_len 0 bits)) }
{
    for i in 0..bits {
        let signal = taken_name(alloc, names, i)?;
        let name = name_from(alloc, &names.latch_inputs, i)?;
        gates.push(taking_gate(alloc, signal, name)?)?;
    }
    Ok(())
}

/// The name of what a latch takes.
fn taken_name(alloc: Global, names: &SignalNames, i: usize) -> Result<Name, AllocError>
    requires within { i < length names.now.latch_outputs }
    requires some { 0 < length names.now.inputs }
    ensures { IfOk result (λ name. name ≡ taken_by names.now i) }
{
    let inputs = names.inputs.as_slice().len();
    if i < inputs {
        name_from(alloc, &names.inputs, i)
    } else {
        name_from(alloc, &names.latch_outputs, i - inputs)
    }
}

/// The gate that gives a signal, unchanged, under a name.
fn taking_gate(alloc: Global, signal: Name, name: Name) -> Result<Gate, AllocError>
    ensures { IfOk result (λ gate. gate ≡ taking signal name) }
{
    let mut inputs = Names::new(alloc);
    inputs.push(signal)?;
    let mut rows = Names::new(alloc);
    rows.push(Name::new(alloc, b"1")?)?;
    Ok(Gate {
        inputs,
        output: name,
        rows,
        on: true,
    })
}
