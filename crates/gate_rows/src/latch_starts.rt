//! Latches that start at the bits of a word.

ghost use Rattle.std.specs.Prelude.{◌≡◌, ◌≤◌, ◌<◌, if◌then◌else◌, IfOk, length};
ghost use Rattle.net_core.specs.declared.Start.TheVariants.{Zero, One};
ghost use Rattle.gate_rows.specs.Latches.{AreLatches, latch_of};

use crate::gate_names::name_from;
use cubes::bit;
use net_core::{Latch, Latches, SignalNames, Start};
use std::alloc::{AllocError, Global};

/// The given number of latches, in order. Latch i starts at bit i of the word.
pub fn latches(
    alloc: Global,
    names: &SignalNames,
    word: u64,
    bits: usize,
) -> Result<Latches, AllocError>
    requires short { bits ≤ 64 }
    requires inputs { length names.now.latch_inputs ≡ bits }
    requires outputs { length names.now.latch_outputs ≡ bits }
    ensures { IfOk result (AreLatches names.now bits word) }
{
    let mut latches = Latches::new(alloc);
    for i in 0..bits {
        latches.push(latch(alloc, names, word, i)?)?;
    }
    Ok(latches)
}

/// The latch of bit i.
fn latch(alloc: Global, names: &SignalNames, word: u64, i: usize) -> Result<Latch, AllocError>
    requires bit { i < 64 }
    requires input { i < length names.now.latch_inputs }
    requires output { i < length names.now.latch_outputs }
    ensures { IfOk result (λ latch. latch ≡ latch_of names.now word i) }
{
    Ok(Latch {
        input: name_from(alloc, &names.latch_inputs, i)?,
        output: name_from(alloc, &names.latch_outputs, i)?,
        start: start_of(bit(word, i)),
    })
}

/// The start of a latch whose first value is this bit.
fn start_of(bit: bool) -> Start
    ensures { result ≡ (if bit then One else Zero) }
{
    if bit { Start::One } else { Start::Zero }
}
