//! The least sets of bits that permit what a gate gives.

ghost use Rattle.std.specs.Prelude.{◌≡◌, IfOk, length};
ghost use Rattle.dependence.specs.Bit.{IsBit, value_of};
ghost use Rattle.dependence.specs.SufficientBits.{InWord, PermitsValue};
ghost use Rattle.least_codes.specs.LeastReads.{IsLeastReadSet};

use crate::choice::{Question, least_choice};
use crate::two_states::states_apart;
use dependence::Bit;
use machine_table::Machine;
use state_codes::Codes;
use std::alloc::{AllocError, Global};

/// The number of bits of a word.
const WORD_BITS: u32 = 64;

/// The least set of candidates that permits what a gate gives (source: this project). Bit c of a set is state
/// bit c. Sets are tried by size, so k candidates may take up to 2^k tries.
pub fn least_reads(
    alloc: Global,
    m: &Machine,
    codes: &Codes,
    candidates: u64,
    bit: Bit,
) -> Result<u64, AllocError>
    requires words { length codes.now.words ≡ length m.now.states }
    requires bit { IsBit m.now bit }
    requires enough { PermitsValue m.now codes.now.words (InWord candidates) (value_of m.now codes.now.words bit) }
    ensures { IfOk result
        (IsLeastReadSet m.now codes.now.words (InWord candidates) (value_of m.now codes.now.words bit)) }
{
    let words = codes.words.as_slice();
    let apart = states_apart(alloc, m, words, bit)?;
    let question = Question {
        words,
        apart: apart.as_slice(),
        candidates,
        bits: WORD_BITS,
    };
    Ok(least_choice(&question).set)
}
