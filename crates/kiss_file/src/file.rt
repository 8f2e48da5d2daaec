use crate::state_names::StateNames;
use cubes::Cube;
use hs_io::Names;
use hs_list::Items;

/// A row: the next state and the outputs in one state at the symbols of one cube.
#[derive(Clone, Copy, PartialEq, Eq)]
pub struct KissRow {
    /// The symbols of the row.
    pub cube: Cube,
    /// The number of the current state.
    pub from: u16,
    /// The number of the next state, if the row names one.
    pub to: Option<u16>,
    /// The outputs that the row specifies. Output b is the bit 2^b.
    pub care: u64,
    /// The values of these outputs. The other bits are 0.
    pub value: u64,
}

/// Rows in order.
pub type Rows = Items<KissRow>;

/// What a KISS2 text says.
#[derive(Drop)]
pub struct KissFile {
    /// The number of input bits.
    pub inputs: u8,
    /// The number of outputs.
    pub outputs: u8,
    /// The number of the reset state.
    pub reset: u16,
    /// The names of the states, in the order of their numbers.
    pub states: StateNames,
    /// The rows in the order of the text.
    pub rows: Rows,
    /// The names of the inputs, if the text gives them.
    pub input_names: Option<Names>,
    /// The names of the outputs, if the text gives them.
    pub output_names: Option<Names>,
}
