//! The gates of the outputs.

ghost use Rattle.std.specs.Prelude.{◌*◌, ◌<◌, ◌≤◌, All, IfOk, OnOk, length};
ghost use Rattle.dependence.specs.declared.sets.ReadSet.{ReadSet};
ghost use Rattle.gate_rows.specs.Demands.{NeverContradict, CanBeRead};
ghost use Rattle.shift_real.specs.Gates.{IsOutputGate};
ghost use Rattle.shift_real.specs.ShiftNetwork.{AreNamesFor};
ghost use Rattle.shift_real.specs.Inner.DemandedGate.{IsGateOfDemands};
ghost use Rattle.shift_real.specs.Inner.Latches.{AddsOutputGates};
ghost use Rattle.shift_real.specs.Inner.OutputReads.{AreEffectsAfter};
ghost use Rattle.shift_real.specs.Inner.Tables.{IsStateTable};

use crate::demands::content_demands;
use crate::output_reads::{effects_after, output_reading};
use dependence::{Effect, ReadSet};
use gate_rows::{Demand, demanded_rows, listed_names, name_from};
use hs_io::Names;
use machine_table::Machine;
use net_core::{Gate, Gates, SignalNames};
use std::alloc::{AllocError, Global};

/// Appends the gates of the outputs, for the states after the contents of k symbols.
pub(crate) fn add_output_gates(
    alloc: Global,
    m: &Machine,
    k: usize,
    names: &SignalNames,
    table: &[u16],
    gates: &mut Gates,
) -> Result<(), AllocError>
    requires short { k * m.now.inputs ≤ 12 }
    requires names { AreNamesFor m.now k names.now }
    requires table { IsStateTable m.now k table.now }
    ensures { OnOk result (AddsOutputGates m.now k names.now m.now.outputs gates.old gates.new) }
{
    let effects = effects_after(alloc, m, table)?;
    for b in 0..m.outputs() {
        gates.push(output_gate(alloc, m, k, names, table, &effects, b)?)?;
    }
    Ok(())
}

/// The gate of an output.
fn output_gate(
    alloc: Global,
    m: &Machine,
    k: usize,
    names: &SignalNames,
    table: &[u16],
    effects: &[Effect],
    b: u8,
) -> Result<Gate, AllocError>
    requires short { k * m.now.inputs ≤ 12 }
    requires names { AreNamesFor m.now k names.now }
    requires table { IsStateTable m.now k table.now }
    requires effects { AreEffectsAfter m.now table.now (length m.now.states) effects.now }
    requires output { b < m.now.outputs }
    ensures { IfOk result (λ gate. (set : ReadSet) × IsOutputGate m.now k names.now b set gate) }
{
    m.keeps_its_states();
    let reading = output_reading(alloc, m, k, table, effects, b)?;
    let demands = content_demands(alloc, m, &reading.classes, reading.mask, b)?;
    gate_of_demands(alloc, names, &reading.set, &demands, b)
}

/// The gate of an output that reads this set, by what is asked of it.
fn gate_of_demands(
    alloc: Global,
    names: &SignalNames,
    set: &ReadSet,
    demands: &[Demand],
    b: u8,
) -> Result<Gate, AllocError>
    requires output { b < length names.now.outputs }
    requires inputs { All (λ a. a < length names.now.inputs) set.now.inputs }
    requires latches { All (λ c. c < length names.now.latch_outputs) set.now.latches }
    requires read { CanBeRead set.now.inputs set.now.latches demands.now }
    requires apart { NeverContradict set.now.inputs set.now.latches demands.now }
    ensures { IfOk result (IsGateOfDemands names.now b set.now.inputs set.now.latches demands.now) }
{
    let inputs = set.inputs.as_slice();
    let latches = set.latches.as_slice();
    let mut gate = Gate {
        inputs: Names::new(alloc),
        output: name_from(alloc, &names.outputs, usize::from(b))?,
        rows: Names::new(alloc),
        on: true,
    };
    gate.inputs = listed_names(alloc, names, inputs, latches)?;
    gate.rows = demanded_rows(alloc, demands, inputs, latches)?;
    Ok(gate)
}
