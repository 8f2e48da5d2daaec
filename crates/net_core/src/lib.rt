//! Networks of gates and latches, by the names of their signals, and what a BLIF text says of them.
//!
//! A [`Network`] is plain data: inputs and outputs, latches that keep a bit from one symbol to the next,
//! and gates, each with the rows that its value is read from. The crates that write, read and run networks
//! promise by the definitions of this crate:
//!
//! - What a text denotes: its joined lines (`specs/JoinedLines.antt`), the statements on them
//!   (`specs/Statements.antt`, `Start.antt`), the faults of a statement, given those before it
//!   (`specs/Faults.antt`), and the network of a text without faults (`specs/Denotation.antt`).
//! - What a reader accepts: the limits (`specs/Limits.antt`), and texts within them that denote a sound network
//!   (`specs/Blif.antt`).
//! - Which networks are sound, so that their signals are determined (`specs/SoundNetwork.antt`, `FlatNetwork.antt`),
//!   and what a network does at a symbol and over words (`specs/Step.antt`).
//!
//! [`check`] gives the gates of a sound network in an order of evaluation (`specs/Order.antt`), and for any
//! other network the first cause why it is not sound (`specs/Causes.antt`). `specs/Inner` is for private
//! functions only.
//!
//! The laws of these definitions, and small worked texts and networks, are contracts of functions that do
//! nothing.
#![tactic(auto)]

ghost use Rattle.std.specs.Prelude.{◌≡◌};
ghost use Rattle.net_core.specs.Start.{start_digit};

mod causes;
mod checker;
mod cycle;
mod gate_order;
mod laws;
mod numbering;
mod walk;
mod worked;

pub use causes::NetFail;
pub use checker::check;
pub use gate_order::{NumberedGate, Order};
use hs_io::{Name, Names};
use hs_list::Items;
pub use laws::{
    answers_are_determined, blif_once, causes_are_alike, denotes_once, flat_is_sound,
    given_is_a_step, limits_by_statement, sound_has_no_cause, sound_is_determined,
};
pub use worked::{
    worked_answers, worked_gates, worked_latches, worked_lines, worked_models, worked_readings,
    worked_steps, worked_values,
};

/// The value of a latch before the first symbol.
#[derive(Clone, Copy, PartialEq, Eq)]
pub enum Start {
    Zero,
    One,
    /// Either value.
    Free,
    /// Not given.
    Unknown,
}

impl Start {
    /// Its digit in BLIF.
    pub fn digit(self) -> u8
        ensures { result ≡ start_digit self }
    {
        match self {
            Start::Zero => b'0',
            Start::One => b'1',
            Start::Free => b'2',
            Start::Unknown => b'3',
        }
    }
}

/// A latch. At each symbol it takes the value of its input signal, which is the value of its output signal at
/// the next symbol.
#[derive(Drop)]
pub struct Latch {
    pub input: Name,
    pub output: Name,
    pub start: Start,
}

/// Latches in order.
pub type Latches = Items<Latch>;

/// A gate. Each row is a text over `0`, `1` and `-`, with a character for each input. The value of the
/// gate is `on` where some row holds its inputs, and the opposite elsewhere.
#[derive(Drop)]
pub struct Gate {
    pub inputs: Names,
    pub output: Name,
    pub rows: Names,
    pub on: bool,
}

/// Gates in order.
pub type Gates = Items<Gate>;

/// A network.
#[derive(Drop)]
pub struct Network {
    pub inputs: Names,
    pub outputs: Names,
    pub latches: Latches,
    pub gates: Gates,
}

/// The names of a network's signals. The last two lists have one name for each latch, in order.
#[derive(Drop)]
pub struct SignalNames {
    pub inputs: Names,
    pub outputs: Names,
    pub latch_inputs: Names,
    pub latch_outputs: Names,
}
