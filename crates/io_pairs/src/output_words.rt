//! The outputs that occur.

ghost use Rattle.std.specs.Prelude.{◌≡◌, ◌<◌, ◌≤◌, ◌^◌, All, Err, IfOk, OnOk, length};
ghost use Rattle.io_pairs.specs.Inner.Words.{IsPlaceOf, with_words};
ghost use Rattle.io_pairs.specs.Outputs.{AreOutputs, occurring, output_word, outputs_at};
ghost use Rattle.machine_table.specs.Pieces.{IsHeldByPiece, IsPiece};

use crate::symbols::symbol_count;
use hs_list::Items;
use machine_table::{Machine, Piece};
use std::alloc::{AllocError, AllocFailed, Global};

/// The outputs that occur, each as a number: output b at 2^b.
pub type Outs = Items<u64>;

/// The greatest number of outputs that occur.
const MOST_OUTS: usize = 256;

/// Why the outputs that occur are not listed.
#[derive(Debug, Drop, PartialEq)]
pub enum OutsFail {
    /// More than 256 outputs occur.
    TooMany,
    /// Memory ran out.
    NoMemory,
}

impl From<AllocError> for OutsFail {
    ghost use Rattle.std.specs.Prelude.{◌≡◌};
    ghost use Rattle.io_pairs.specs.declared.output_words.OutsFail.TheVariants.{NoMemory};

    ghost from_gives = { λ _ fail. fail ≡ NoMemory };

    fn from(_: AllocError) -> OutsFail {
        OutsFail::NoMemory
    }
}

impl<T: Drop> From<AllocFailed<T>> for OutsFail {
    ghost use Rattle.std.specs.Prelude.{◌≡◌};
    ghost use Rattle.io_pairs.specs.declared.output_words.OutsFail.TheVariants.{NoMemory};

    ghost from_gives = { λ _ fail. fail ≡ NoMemory };

    fn from(_: AllocFailed<T>) -> OutsFail {
        OutsFail::NoMemory
    }
}

/// The output of the first piece that holds the symbol.
fn word_at(m: &Machine, s: usize, pieces: &[Piece], x: u32) -> u64
    requires s { s < length m.now.states }
    requires x { x < 2 ^ m.now.inputs }
    requires held { IsHeldByPiece pieces.now x }
    requires right { All (IsPiece m.now s) pieces.now }
    ensures { result ≡ output_word m.now s x }
{
    for piece in pieces {
        if piece.cube.holds(x) {
            return piece.outputs;
        }
    }
    unreachable!()
}

/// The outputs of a state, by symbol.
pub(crate) fn words_of(alloc: Global, m: &Machine, s: usize) -> Result<Vec<u64>, AllocError>
    requires inputs { m.now.inputs ≤ 8 }
    requires s { s < length m.now.states }
    ensures { IfOk result (λ words. words.items ≡ outputs_at m.now s) }
{
    let pieces = m.pieces(alloc, s)?;
    let symbols = symbol_count(m);
    let mut words = Vec::with_capacity(alloc, symbols as usize)?;
    for x in 0..symbols {
        words.push(word_at(m, s, pieces.as_slice(), x))?;
    }
    Ok(words)
}

/// The place of the word in the list, or the list's length if the word is not in it.
pub(crate) fn place_of(outs: &[u64], word: u64) -> usize
    ensures { IsPlaceOf outs.now word result }
{
    for (place, other) in outs.iter().enumerate() {
        if *other == word {
            return place;
        }
    }
    outs.len()
}

/// Appends the words that are not in the list yet. Refuses where the list would then have more than 256 words.
fn add_words(outs: &mut Vec<u64>, words: &[u64]) -> Result<(), OutsFail>
    requires few { length outs.old.items ≤ 256 }
    ensures ok { OnOk result (outs.new.items ≡ with_words outs.old.items words.now) }
    ensures few { OnOk result (length outs.new.items ≤ 256) }
    ensures too_many { result ≡ Err OutsFail.TooMany → 256 < length (with_words outs.old.items words.now) }
{
    for word in words {
        if place_of(outs.as_slice(), *word) == outs.len() {
            if outs.len() == MOST_OUTS {
                return Err(OutsFail::TooMany);
            }
            outs.push(*word)?;
        }
    }
    Ok(())
}

/// The outputs that occur, each once, in the order in which they come first: by state, then by symbol.
///
/// There are at most 8 inputs.
pub fn outputs(alloc: Global, m: &Machine) -> Result<Outs, OutsFail>
    requires { m.now.inputs ≤ 8 }
    ensures ok { IfOk result (AreOutputs m.now) }
    ensures too_many { result ≡ Err OutsFail.TooMany → 256 < length (occurring m.now) }
    ensures few { IfOk result (λ _. length (occurring m.now) ≤ 256) }
{
    let mut outs = Vec::new(alloc);
    for s in 0..m.states() {
        let words = words_of(alloc, m, s)?;
        add_words(&mut outs, words.as_slice())?;
    }
    Ok(Items::from(outs))
}
