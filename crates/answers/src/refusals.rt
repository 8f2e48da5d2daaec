//! Why a job is not done.

use blif_in::BlifFault;
use hs_io::Name;
use hs_list::Items;
use kiss2::KissFault;
use machine_table::Missing;
use state_codes::{Kind, Which};
use std::alloc::AllocError;

/// Why a job is not done, with the values that its line shows.
#[derive(Drop)]
pub enum Refusal {
    /// The words are not a job: the number of the first refused word, counted from 1.
    Usage {
        word: u32,
    },
    /// The operand of this name cannot be read.
    Unreadable {
        name: Name,
    },
    /// The operand of this name is longer than a text may be.
    TooLong {
        name: Name,
    },
    /// The text of FILE is not a machine: its first fault.
    NoMachine(KissFault),
    /// Two rows conflict, counted from 1. Of all such pairs this one has the least second row, and then the
    /// least first row.
    Conflict {
        row: u32,
        other: u32,
    },
    /// The machine leaves a part open, for this state and the symbol of these digits.
    Unspecified {
        state: Name,
        symbol: Items<u8>,
        part: Missing,
    },
    /// There are more to be listed than the limit.
    More {
        limit: usize,
    },
    /// The text of a part has, at this place, a piece that is not a label.
    PartLabel {
        part: usize,
        place: usize,
    },
    /// The text of a part does not have as many labels as there are states.
    PartLength {
        part: usize,
        found: usize,
        states: usize,
    },
    /// Two states are together in all parts.
    NotApart {
        state: Name,
        other: Name,
    },
    /// There is no decomposition of that kind.
    NoSplit {
        kind: Kind,
    },
    /// The code, or the register, has too many bits.
    CodeTooLong {
        bits: usize,
    },
    /// The text of NET is not a network: its first fault.
    NoNetwork(BlifFault),
    /// The given start is not a text of a bit for each latch.
    BadStart,
    /// No start is given, and the start of this latch is not known.
    UnknownStart {
        latch: Name,
    },
    /// The line of SYMBOLS of this number is not a symbol.
    BadSymbol {
        line: u32,
    },
    /// A least code is sought only for 3 to 8 states.
    StateCount {
        states: usize,
    },
    /// COVER is refused.
    BadCover(CoverFlaw),
    /// For every length, some word of that length keeps these two states apart.
    NotDefinite {
        state: Name,
        other: Name,
    },
    /// No word of as many symbols as the order ends in the reset state.
    NotReached {
        reset: Name,
    },
    /// The machine has more than 8 inputs.
    TooManyInputs {
        inputs: u8,
    },
    /// More than 256 outputs occur.
    TooManyOutputs,
    /// There is no machine of a part, or of the outputs.
    NoPart(PartFlaw),
    /// The clock that is asked for is a signal of the network.
    ClockIsSignal {
        clock: Name,
    },
    /// The text could not be put whole.
    Unwritable,
    /// Memory ran out.
    NoMemory,
}

/// What is wrong with a cover. Blocks, and the places within one, are counted from 0.
#[derive(Drop)]
pub enum CoverFlaw {
    /// The piece at a place of a block is not a number of a state, or not greater than the number before it.
    Place { block: usize, place: usize },
    /// Every state of a block is in another block.
    Within { block: usize, other: usize },
    /// A state is in no block.
    Lacks { state: Name },
    /// The blocks have too many places in all.
    Places { found: usize },
    /// There is only one block, or no block has two states.
    Trivial,
    /// No block holds the next states of this block for the symbol of these digits.
    Leaves { block: usize, symbol: Items<u8> },
}

/// Why there is no machine of a part, or of the outputs. Parts are counted from 0.
#[derive(Clone, Copy)]
pub enum PartFlaw {
    /// The split has no part of this number.
    Missing { part: usize },
    /// The code of the part has no bits.
    NoBits { part: usize },
    /// The machine would have more than 32 inputs.
    ManyInputs { which: Which, inputs: usize },
    /// The name of an input or of an output has more than 64 bytes: the length of the first such name.
    LongName { which: Which, bytes: usize },
}

impl From<AllocError> for Refusal {
    ghost use Rattle.std.specs.Prelude.{◌≡◌};
    ghost use Rattle.answers.specs.declared.refusals.Refusal.TheVariants.{NoMemory};

    ghost from_gives = { λ _ refusal. refusal ≡ NoMemory };

    fn from(_: AllocError) -> Self {
        Refusal::NoMemory
    }
}
