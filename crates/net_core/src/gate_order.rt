ghost use Rattle.std.specs.Prelude.{◌≡◌, ◌+◌, ◌<◌, length, All};

use hs_io::Names;

/// A gate whose inputs are numbers of signals. Its place tells the signal that it drives: see [`Order`].
#[derive(Drop)]
pub struct NumberedGate {
    pub inputs: Vec<usize>,
    pub rows: Names,
    pub on: bool,
}

/// The gates of a network in an order of evaluation.
///
/// Signals are numbered from 0: first the inputs, then the latch outputs, then the outputs of the gates, in
/// the order of the network. So the gate at place `g` of `gates` drives the signal `input_count + latch_count +
/// g`. If the inputs and the latch outputs have their bits, and the gates are evaluated in the order of
/// `sequence`, then each gate finds the bits of its inputs.
#[derive(Drop)]
pub struct Order {
    pub signal_count: usize,
    pub input_count: usize,
    pub latch_count: usize,
    /// The signals of the outputs.
    pub output_signals: Vec<usize>,
    /// The signals of the latch inputs.
    pub latch_signals: Vec<usize>,
    /// The gates in the order of the network.
    pub gates: Vec<NumberedGate>,
    /// The places of the gates in an order of evaluation, each once.
    pub sequence: Vec<usize>,
    pub ghost counted: { input_count + latch_count + length gates.items ≡ signal_count },
    pub ghost outputs_within: { All (λ s. s < signal_count) output_signals.items },
    pub ghost latches_within: { All (λ s. s < signal_count) latch_signals.items },
    pub ghost inputs_within: { All (λ gate. All (λ s. s < signal_count) gate.inputs.items) gates.items },
    pub ghost sequence_within: { All (λ g. g < length gates.items) sequence.items },
}

impl Order {
    /// How many inputs the network has.
    pub fn inputs(&self) -> usize
        ensures { result ≡ self.now.input_count }
    {
        self.input_count
    }

    /// How many outputs the network has.
    pub fn outputs(&self) -> usize
        ensures { result ≡ length self.now.output_signals.items }
    {
        self.output_signals.len()
    }

    /// How many latches the network has.
    pub fn latches(&self) -> usize
        ensures { result ≡ self.now.latch_count }
    {
        self.latch_count
    }

    /// How many signals there are: inputs, latch outputs and gate outputs.
    pub fn signals(&self) -> usize
        ensures { result ≡ self.now.signal_count }
    {
        self.signal_count
    }
}
