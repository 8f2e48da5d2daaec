//! What the gate of an output reads.

ghost use Rattle.std.specs.Prelude.{◌≡◌, ℕ, ◌*◌, ◌^◌, ◌<◌, ◌≤◌, ◌↔◌, IfOk, IsTrue, length};
ghost use Rattle.dependence.specs.SufficientBits.{InWord};
ghost use Rattle.shift_real.specs.Inner.OutputReads.{AreEffectsAfter, FlipMatters};
ghost use Rattle.shift_real.specs.Inner.OutputReading.{IsOutputReading};
ghost use Rattle.shift_real.specs.Inner.Tables.{IsStateTable};

use crate::tables::{classes_of, first_alike, is_among};
use dependence::{Bit, Effect, ReadSet, add_effects, inputs_of, no_effects, numbers_of, with_bit};
use machine_table::Machine;
use std::alloc::{AllocError, Global};

/// What the gate of an output reads.
#[derive(Drop)]
pub(crate) struct OutputReading {
    /// The class of each content: the first state that gives what the state after the content gives.
    pub(crate) classes: Vec<u16>,
    /// The latches that are read, latch i at 2^i.
    pub(crate) mask: u64,
    pub(crate) set: ReadSet,
}

/// What the gate of an output reads, for the states after the contents of so many symbols.
pub(crate) fn output_reading(
    alloc: Global,
    m: &Machine,
    k: usize,
    table: &[u16],
    effects: &[Effect],
    b: u8,
) -> Result<OutputReading, AllocError>
    requires short { k * m.now.inputs ≤ 12 }
    requires table { IsStateTable m.now k table.now }
    requires effects { AreEffectsAfter m.now table.now (length m.now.states) effects.now }
    requires output { b < m.now.outputs }
    ensures { IfOk result (IsOutputReading m.now k b table.now) }
{
    m.keeps_its_states();
    let firsts = first_alike(alloc, m, b)?;
    let classes = classes_of(alloc, &firsts, table)?;
    let mask = latches_read(&classes, k * usize::from(m.inputs()));
    let inputs = inputs_of(effects, Bit::Output(b));
    let set = ReadSet {
        inputs: numbers_of(alloc, inputs)?,
        latches: numbers_of(alloc, mask)?,
    };
    Ok(OutputReading { classes, mask, set })
}

/// The latches, latch i at 2^i, for which two contents that differ there alone are of different classes.
fn latches_read(classes: &[u16], bits: usize) -> u64
    requires short { bits ≤ 12 }
    requires size { length classes.now ≡ 2 ^ bits }
    ensures { (latch : ℕ) → InWord result latch ↔ (latch < bits × FlipMatters classes.now latch) }
{
    let mut latches = 0;
    for latch in 0..bits {
        if latch_matters(classes, bits, latch) {
            latches = with_bit(latches, latch as u32);
        }
    }
    latches
}

/// Whether two contents that differ at the latch alone are of different classes.
fn latch_matters(classes: &[u16], bits: usize, latch: usize) -> bool
    requires latch { latch < bits }
    requires short { bits ≤ 12 }
    requires size { length classes.now ≡ 2 ^ bits }
    ensures { IsTrue result ↔ FlipMatters classes.now latch }
{
    for (number, class) in classes.iter().enumerate() {
        if *class != classes[number ^ (1 << latch)] {
            return true;
        }
    }
    false
}

/// The effects of the inputs at these states. No latch is asked for, so any codes will do.
pub(crate) fn effects_after(
    alloc: Global,
    m: &Machine,
    states: &[u16],
) -> Result<Vec<Effect>, AllocError>
    ensures { IfOk result (λ effects. AreEffectsAfter m.now states.now (length m.now.states) effects.items) }
{
    let codes = vec![in alloc; 0u64; m.states()]?;
    let mut effects = no_effects(alloc, m.inputs())?;
    for state in 0..m.states() {
        if is_among(states, state) {
            add_effects(alloc, m, &codes, state, &mut effects)?;
        }
    }
    Ok(effects)
}
