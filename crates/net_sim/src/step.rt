//! One step of a network.

ghost use Rattle.std.specs.Prelude.{◌≡◌, ◌+◌, ◌<◌, ◌≤◌, All, ◌++◌, length, take, drop};
ghost use Rattle.net_core.specs.declared.Network.{Network};
ghost use Rattle.net_core.specs.Order.{IsOrderOf};
ghost use Rattle.net_core.specs.SoundNetwork.{Sound};
ghost use Rattle.net_core.specs.Step.{Step};
ghost use Rattle.net_sim.specs.Inner.GateValues.{bits_at, evaluated};
ghost use Rattle.net_sim.specs.Inner.Forms.{AreForms};

use crate::forms::GateForm;
use crate::gate_values::value_by_any;
use net_core::Order;

/// One step of a network of this order: `z` becomes the output for the symbol `x`, and `state` becomes the next
/// latch values. The old values in `scratch` are not read. It takes no memory.
pub fn step_into(
    order: &Order,
    state: &mut [bool],
    x: &[bool],
    z: &mut [bool],
    scratch: &mut [bool],
)
    requires latches { length state.old ≡ order.now.latch_count }
    requires inputs { length x.now ≡ order.now.input_count }
    requires outputs { length z.old ≡ length order.now.output_signals.items }
    requires signals { length scratch.old ≡ order.now.signal_count }
    ensures { (N : Network) → Sound N → IsOrderOf N order.now → Step N state.old x.now z.new state.new }
{
    step_by(&[], order, state, x, z, scratch);
}

/// The same step, by the forms of the gates as far as there are forms.
pub(crate) fn step_by(
    forms: &[GateForm],
    order: &Order,
    state: &mut [bool],
    x: &[bool],
    z: &mut [bool],
    scratch: &mut [bool],
)
    requires forms { AreForms order.now.gates.items forms.now }
    requires latches { length state.old ≡ order.now.latch_count }
    requires inputs { length x.now ≡ order.now.input_count }
    requires outputs { length z.old ≡ length order.now.output_signals.items }
    requires signals { length scratch.old ≡ order.now.signal_count }
    ensures { (N : Network) → Sound N → IsOrderOf N order.now → Step N state.old x.now z.new state.new }
{
    put(scratch, 0, x);
    put(scratch, x.len(), state);
    evaluate(forms, order, scratch);
    read_signals(&order.output_signals, scratch, z);
    read_signals(&order.latch_signals, scratch, state);
}

/// Writes bits from a place on.
fn put(signals: &mut [bool], from: usize, bits: &[bool])
    requires { from + length bits.now ≤ length signals.old }
    ensures { signals.new ≡ take from signals.old ++ (bits.now ++ drop (from + length bits.now) signals.old) }
{
    signals[from..from + bits.len()].copy_from_slice(bits);
}

/// Evaluates the gates in the order of evaluation.
fn evaluate(forms: &[GateForm], order: &Order, signals: &mut [bool])
    requires forms { AreForms order.now.gates.items forms.now }
    requires signals { length signals.old ≡ order.now.signal_count }
    ensures { signals.new ≡ evaluated
        (order.now.input_count + order.now.latch_count) order.now.gates.items order.now.sequence.items signals.old }
{
    let base = order.input_count + order.latch_count;
    for place in &order.sequence {
        let gate = &order.gates[*place];
        signals[base + *place] = value_by_any(forms, *place, gate, signals);
    }
}

/// Reads the signals of these numbers, if there is a place for each.
fn read_signals(numbers: &[usize], signals: &[bool], bits: &mut [bool])
    requires { All (λ s. s < length signals.now) numbers.now }
    ensures { length numbers.now ≡ length bits.old → bits.new ≡ bits_at signals.now numbers.now }
{
    for place in 0..bits.len().min(numbers.len()) {
        bits[place] = signals[numbers[place]];
    }
}
