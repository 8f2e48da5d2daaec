//! The names of the signals of a gate.

ghost use Rattle.std.specs.Prelude.{◌≡◌, ◌<◌, ◌++◌, All, IfOk, OnOk, length, map};
ghost use Rattle.gate_rows.specs.Names.{name_at};

use hs_io::{Name, Names};
use net_core::SignalNames;
use std::alloc::{AllocError, Global};

/// A copy of the name with the number i.
pub fn name_from(alloc: Global, names: &Names, i: usize) -> Result<Name, AllocError>
    requires { i < length names.now }
    ensures { IfOk result (λ name. name ≡ name_at names.now i) }
{
    Name::new(alloc, names.as_slice()[i].bytes())
}

/// The names that a gate lists: those of the inputs that it reads, and then those of the latch outputs.
pub fn listed_names(
    alloc: Global,
    names: &SignalNames,
    inputs: &[u8],
    latches: &[u8],
) -> Result<Names, AllocError>
    requires inputs { All (λ a. a < length names.now.inputs) inputs.now }
    requires latches { All (λ c. c < length names.now.latch_outputs) latches.now }
    ensures { IfOk result
        (λ listed. listed ≡ map (name_at names.now.inputs) inputs.now ++ map
        (name_at names.now.latch_outputs) latches.now) }
{
    let mut listed = Names::new(alloc);
    push_names(alloc, &names.inputs, inputs, &mut listed)?;
    push_names(alloc, &names.latch_outputs, latches, &mut listed)?;
    Ok(listed)
}

/// Adds the names with these numbers.
fn push_names(
    alloc: Global,
    names: &Names,
    numbers: &[u8],
    listed: &mut Names,
) -> Result<(), AllocError>
    requires { All (λ i. i < length names.now) numbers.now }
    ensures { OnOk result (listed.new ≡ listed.old ++ map (name_at names.now) numbers.now) }
{
    for number in numbers {
        listed.push(name_from(alloc, names, usize::from(*number))?)?;
    }
    Ok(())
}
