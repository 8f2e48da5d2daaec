//! Gates of few inputs, each whole in one record, so that a step finds all of a gate in one place of the memory.

ghost use Rattle.std.specs.Prelude.{◌≡◌, ◌<◌, ◌≤◌, All, length, take};
ghost use Rattle.cubes.specs.Symbol.{bit, number_of};
ghost use Rattle.net_sim.specs.Inner.GateValues.{bits_at};

use crate::gate_values::number_at;

/// The greatest number of inputs of a small gate, whose values then fit a word.
pub(crate) const MOST_SMALL: usize = 6;

/// A gate of at most six inputs.
#[derive(Clone, Copy)]
pub(crate) struct SmallGate {
    /// How many inputs it has.
    count: usize,
    /// The signals of its inputs, and zeros after them.
    inputs: [usize; MOST_SMALL],
    /// Its values as the bits of a word, by the numbers whose bits are those of its inputs.
    values: u64,
    ghost few: { count ≤ 6 },
}

impl SmallGate {
    /// A gate of these inputs and values.
    pub fn new(inputs: &[usize], values: u64) -> SmallGate
        requires { length inputs.now ≤ 6 }
        ensures inputs { take result.count result.inputs ≡ inputs.now }
        ensures values { result.values ≡ values }
    {
        let count = inputs.len();
        let mut places = [0; MOST_SMALL];
        places[..count].copy_from_slice(inputs);
        SmallGate {
            count,
            inputs: places,
            values,
        }
    }

    /// Its value for the signals.
    pub fn value(&self, signals: &[bool]) -> bool
        requires { All (λ s. s < length signals.now) (take self.now.count self.now.inputs) }
        ensures { result ≡ bit self.now.values (number_of (bits_at signals.now (take self.now.count self.now.inputs))) }
    {
        let number = number_at(&self.inputs[..self.count], signals);
        self.values >> number & 1 == 1
    }
}
