//! The comments before the network.

ghost use Rattle.std.specs.Prelude.{◌≡◌, ◌≤◌, ◌++◌, ◌<◌, All, OnOk, length};
ghost use Rattle.std.specs.List.{flat_map, zip};
ghost use Rattle.cover_split.specs.StateCover.{IsStateCover};
ghost use Rattle.cover_split.specs.Expansion as expansion;
ghost use Rattle.cover_texts.specs.Inner.Pieces.{pair_line};
ghost use Rattle.cover_texts.specs.Lines.{cover_comments};

use crate::blocks::append_blocks;
use blif_out::{LatchNote, append_code_field, append_field, append_notes, append_number_field};
use cover_split::{Cover, pairs_of};
use kiss_file::{KissFile, StateNames};
use state_codes::Codes;
use std::alloc::{AllocError, Global};

/// Appends the comments of a cover, of the codes of its pairs and of the latches.
pub(crate) fn append_head(
    alloc: Global,
    text: &mut Vec<u8>,
    file: &KissFile,
    cover: &Cover,
    codes: &Codes,
    notes: &[LatchNote],
) -> Result<(), AllocError>
    requires cover { IsStateCover (length file.now.states) cover.now.blocks }
    requires words { length codes.now.words ≡ length (expansion.pairs_of cover.now.blocks) }
    requires bits { codes.now.bits ≤ 64 }
    ensures { OnOk result
        (text.new.items ≡ text.old.items
        ++ cover_comments file.now.states cover.now.blocks codes.now.bits codes.now.words notes.now) }
{
    let blocks = cover.blocks.as_slice();
    text.extend_from_slice(b"# hsdec cover\n")?;
    append_blocks(text, blocks)?;
    let pairs = pairs_of(alloc, blocks)?;
    append_pairs(
        text,
        &file.states,
        pairs.as_slice(),
        codes.bits,
        codes.words.as_slice(),
    )?;
    append_notes(alloc, text, notes)?;
    Ok(())
}

/// Appends the code of each pair.
fn append_pairs(
    text: &mut Vec<u8>,
    states: &StateNames,
    pairs: &[(u16, u16)],
    bits: usize,
    words: &[u64],
) -> Result<(), AllocError>
    requires states { All (λ pair. pair.1 < length states.now) pairs.now }
    requires words { length words.now ≡ length pairs.now }
    requires bits { bits ≤ 64 }
    ensures { OnOk result
        (text.new.items ≡ text.old.items ++ flat_map (pair_line states.now bits) (zip pairs.now words.now)) }
{
    for (i, word) in words.iter().enumerate() {
        append_pair(text, states, pairs[i], bits, *word)?;
    }
    Ok(())
}

/// Appends the code of a pair.
fn append_pair(
    text: &mut Vec<u8>,
    states: &StateNames,
    pair: (u16, u16),
    bits: usize,
    word: u64,
) -> Result<(), AllocError>
    requires state { pair.1 < length states.now }
    requires bits { bits ≤ 64 }
    ensures { OnOk result (text.new.items ≡ text.old.items ++ pair_line states.now bits (pair, word)) }
{
    text.extend_from_slice(b"# code")?;
    append_field(text, states.name(usize::from(pair.1)))?;
    append_number_field(text, usize::from(pair.0))?;
    append_code_field(text, bits, word)?;
    text.push(b'\n')?;
    Ok(())
}
