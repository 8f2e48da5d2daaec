//! The network of a shift register.

ghost use Rattle.std.specs.Prelude.{ℕ, IfErr, IfOk, OnOk};
ghost use Rattle.net_core.specs.SoundNetwork.{Sound};
ghost use Rattle.realise.specs.CarriedMachine.{AnswersAs};
ghost use Rattle.shift_real.specs.DefiniteMachine.{IsOrder};
ghost use Rattle.shift_real.specs.Register.{HasShortOrder};
ghost use Rattle.shift_real.specs.ShiftNetwork.{AreNamesFor, IsRegister, StepsAlong};
ghost use Rattle.shift_real.specs.Start.{IsRegisterCause};
ghost use Rattle.shift_real.specs.Inner.RegisterContents.{AreRegisterContents};
ghost use Rattle.shift_real.specs.Inner.ShiftGates.{AreShiftGates, IsShiftNetwork};

use crate::latches::add_latch_gates;
use crate::output_gates::add_output_gates;
use crate::starts::{RegisterContents, RegisterFail, register_contents, start_among};
use crate::tables::state_table;
use gate_rows::latches;
use hs_io::{Names, copied_names};
use machine_table::Machine;
use net_core::{Gates, Latches, Network, SignalNames};
use std::alloc::{AllocError, Global};

/// The network of the register of a definite machine. The latch with the number j times the inputs plus i holds
/// bit i of the symbol that came j + 1 steps ago. Its gate takes input i where j is 0, and else the latch with
/// the same bit of the next newer symbol. The gates of the latches come first, and then those of the outputs.
/// The gate of an output reads the inputs and the latches that matter for it.
///
/// The machine has this order, and its register at most 12 latches.
pub fn register(
    alloc: Global,
    m: &Machine,
    order: usize,
    names: &SignalNames,
) -> Result<Network, RegisterFail>
    requires order { HasShortOrder m.now order }
    requires names { AreNamesFor m.now order names.now }
    ensures network { IfOk result (λ net. (k : ℕ) → IsOrder m.now k → IsRegister m.now k names.now net) }
    ensures sound { IfOk result Sound }
    ensures steps { IfOk result (λ net. (k : ℕ) → IsOrder m.now k → StepsAlong m.now k net) }
    ensures answers { IfOk result (AnswersAs m.now) }
    ensures refused { IfErr result (IsRegisterCause m.now) }
{
    m.keeps_its_states();
    let held = register_contents(alloc, m, order)?;
    let word = start_among(m, &held)?;
    Ok(network(alloc, m, &held, word, names)?)
}

/// The network of a register that starts at a word.
fn network(
    alloc: Global,
    m: &Machine,
    held: &RegisterContents,
    word: u64,
    names: &SignalNames,
) -> Result<Network, AllocError>
    requires held { AreRegisterContents m.now held.now }
    requires names { AreNamesFor m.now held.now.order names.now }
    ensures { IfOk result (IsShiftNetwork m.now held.now.order word names.now) }
{
    let mut net = Network {
        inputs: Names::new(alloc),
        outputs: Names::new(alloc),
        latches: Latches::new(alloc),
        gates: Gates::new(alloc),
    };
    fill(alloc, m, held, word, names, &mut net)?;
    Ok(net)
}

/// Gives a network its names, its latches and its gates.
fn fill(
    alloc: Global,
    m: &Machine,
    held: &RegisterContents,
    word: u64,
    names: &SignalNames,
    net: &mut Network,
) -> Result<(), AllocError>
    requires held { AreRegisterContents m.now held.now }
    requires names { AreNamesFor m.now held.now.order names.now }
    ensures { OnOk result (IsShiftNetwork m.now held.now.order word names.now net.new) }
{
    let bits = held.order * usize::from(m.inputs());
    net.inputs = copied_names(alloc, names.inputs.as_slice())?;
    net.outputs = copied_names(alloc, names.outputs.as_slice())?;
    net.latches = latches(alloc, names, word, bits)?;
    net.gates = gates(alloc, m, held, names)?;
    Ok(())
}

/// The gates of the latches, and then those of the outputs.
fn gates(
    alloc: Global,
    m: &Machine,
    held: &RegisterContents,
    names: &SignalNames,
) -> Result<Gates, AllocError>
    requires held { AreRegisterContents m.now held.now }
    requires names { AreNamesFor m.now held.now.order names.now }
    ensures { IfOk result (AreShiftGates m.now held.now.order names.now) }
{
    let inputs = usize::from(m.inputs());
    let table = state_table(alloc, m, held.order, &held.contents)?;
    let mut gates = Gates::new(alloc);
    add_latch_gates(alloc, names, held.order * inputs, &mut gates)?;
    add_output_gates(alloc, m, held.order, names, &table, &mut gates)?;
    Ok(gates)
}
