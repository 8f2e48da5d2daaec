//! Splits of a machine into parts, and the codes that they give to its states.
//!
//! A split is a list of parts. Each part has a partition of the states and a carrier, a partition at or above
//! it. For each part in turn, the code of a state has the bits of its label in the carrier and then those of
//! its label inside the carrier, most significant first. [`encode`] promises that it gives these codes and that
//! states have different codes. It refuses a split exactly in two cases: two states are together in all parts,
//! and it names the first such pair; or the code has more than 64 bits, and it gives their number.
//!
//! The definitions are in `specs/`: `Split` has the parts, `Code` the bits of a code, `Agreement` what codes
//! say about states, and `Fault` the two refusals.
//!
//! Codes differ for the following reason. The c lowest bits distinguish the labels of at most 2^c blocks. So
//! states that agree on all bits of a part have the same label in its carrier and the same label inside it.
//! States of one block of the carrier have the same label inside it exactly where they are in the same block of
//! the partition. So states with the same code would be together in all parts. The functions of `laws` state
//! these facts for callers.
#![tactic(auto)]

mod draft;
mod encoder;
mod laws;
mod split;
mod which;

pub use encoder::encode;
use hs_list::Items;
pub use laws::{bits_halve, carrier_bits_tell, codes_are_one, need_is_least, part_bits_tell};
pub use split::{Kind, Part, PartNumbers, Parts, Split, given, one_part};
use std::alloc::{AllocError, AllocFailed};
pub use which::Which;

/// The code of each state, one word for each state.
pub type CodeWords = Items<u64>;

/// The number of the part of each bit.
pub type BitOwners = Items<u16>;

/// For each bit, whether it codes the carrier of its part.
pub type CarrierMarks = Items<bool>;

/// The codes of the states: bit i of a code is at 2^i in the word of its state.
#[derive(Drop)]
pub struct Codes {
    pub bits: usize,
    pub words: CodeWords,
    pub owner: BitOwners,
    pub carried: CarrierMarks,
}

/// Why a split gives no codes.
#[derive(Debug, Drop, PartialEq)]
pub enum CodeFail {
    /// These two states, s below t, are the first that are together in all parts.
    NotApart { s: u16, t: u16 },
    /// The parts distinguish all states, but a code has this number of bits, which is above 64.
    CodeTooLong { bits: usize },
    /// Memory ran out.
    NoMemory,
}

impl From<AllocError> for CodeFail {
    ghost use Rattle.std.specs.Prelude.{◌≡◌};
    ghost use Rattle.state_codes.specs.declared.CodeFail.TheVariants.{NoMemory};

    ghost from_gives = { λ _ fail. fail ≡ NoMemory };

    fn from(_: AllocError) -> CodeFail {
        CodeFail::NoMemory
    }
}

impl<T: Drop> From<AllocFailed<T>> for CodeFail {
    ghost use Rattle.std.specs.Prelude.{◌≡◌};
    ghost use Rattle.state_codes.specs.declared.CodeFail.TheVariants.{NoMemory};

    ghost from_gives = { λ _ fail. fail ≡ NoMemory };

    fn from(_: AllocFailed<T>) -> CodeFail {
        CodeFail::NoMemory
    }
}
