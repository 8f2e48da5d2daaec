ghost use Rattle.std.specs.Prelude.{◌≡◌, ◌<◌, All, IfErr, IfOk, length};
ghost use Rattle.net_core.specs.Causes.{AcceptsSound, IsCause};
ghost use Rattle.net_core.specs.Order.{AreAt, IsOrderOf};
ghost use Rattle.net_core.specs.SoundNetwork.{Sound, driven_by};

use crate::causes::NetFail;
use crate::gate_order::Order;
use crate::numbering::Signals;
use crate::walk::{Stop, sequence};
use crate::{Gate, Network};
use hs_io::{Name, Names};
use std::alloc::{AllocError, Global};

/// The gates of a sound network in an order of evaluation, or the first cause why it is not sound. A row
/// with fewer or more characters than its gate has inputs holds nothing, and is no fault here.
///
/// The time grows with the number of gates and of their inputs, and with the logarithm of the number of
/// names, whatever the names are.
pub fn check(alloc: Global, net: &Network) -> Result<Order, NetFail>
    ensures sound { IfOk result (λ order. Sound net.now) }
    ensures order { IfOk result (IsOrderOf net.now) }
    ensures cause { IfErr result (IsCause net.now) }
    ensures accepts { Sound net.now → AcceptsSound result }
{
    order_of(alloc, net)
}

/// The order, or the first cause why there is none.
fn order_of(alloc: Global, net: &Network) -> Result<Order, NetFail>
    ensures sound { IfOk result (λ order. Sound net.now) }
    ensures order { IfOk result (IsOrderOf net.now) }
    ensures cause { IfErr result (IsCause net.now) }
{
    let signals = Signals::of(alloc, net)?;
    let signal_count = signals.count();
    let output_signals = signals.numbers(net.outputs.as_slice())?;
    let latch_signals = signals.latch_inputs(net.latches.as_slice())?;
    let gates = signals.gates(net.gates.as_slice())?;
    let input_count = net.inputs.as_slice().len();
    let latch_count = net.latches.as_slice().len();
    match sequence(alloc, input_count + latch_count, &gates) {
        Ok(sequence) => Ok(Order {
            signal_count,
            input_count,
            latch_count,
            output_signals,
            latch_signals,
            gates,
            sequence,
        }),
        Err(Stop::Cycle(cycle)) => Err(NetFail::Cycle {
            names: driven_at(alloc, net.gates.as_slice(), &cycle)?,
        }),
        Err(Stop::NoMemory) => Err(NetFail::NoMemory),
    }
}

/// The names that the gates at these places drive.
fn driven_at(alloc: Global, gates: &[Gate], places: &[usize]) -> Result<Names, AllocError>
    requires { All (λ g. g < length gates.now) places.now }
    ensures { IfOk result (AreAt (driven_by gates.now) places.now) }
{
    let mut names = Names::new(alloc);
    for place in places {
        names.push(Name::new(alloc, gates[*place].output.bytes())?)?;
    }
    Ok(names)
}
