//! The network of the pairs, with the comments before it.

ghost use Rattle.std.specs.Prelude.{◌≡◌, ◌≤◌, IfOk, length};
ghost use Rattle.blif_out.specs.NetworkText.{CanBeText};
ghost use Rattle.cover_split.specs.StateCover.{IsStateCover};
ghost use Rattle.cover_split.specs.Expansion as expansion;
ghost use Rattle.cover_texts.specs.Inner.Steps.{AreCodesOfPairs, AreParts, IsExpanded};
ghost use Rattle.cover_texts.specs.Inner.CommentedNetwork.{IsCommented};
ghost use Rattle.cover_texts.specs.Inner.PairsNetwork.{IsWhole};
ghost use Rattle.kiss_file.specs.LawfulFile.{IsLawful};

use crate::lines::append_head;
use crate::pairs::{codes_of_pairs, split_of_pairs};
use answers::Bytes;
use blif_out::CommentedNetwork;
use cover_split::Cover;
use decomposition::{SplitNetwork, network_of_split};
use kiss_file::KissFile;
use machine_table::Machine;
use realise::names;
use state_codes::{Codes, Split};
use std::alloc::{AllocError, Global};

/// The network of the machine of the pairs, with the comments before it.
pub(crate) fn network_of_pairs(
    alloc: Global,
    file: &KissFile,
    cover: &Cover,
    pairs: &Machine,
) -> Result<CommentedNetwork, AllocError>
    requires lawful { IsLawful file.now }
    requires cover { IsStateCover (length file.now.states) cover.now.blocks }
    requires expanded { IsExpanded file.now cover.now.blocks pairs.now }
    ensures ready { IfOk result CanBeText }
    ensures whole { IfOk result (IsWhole file.now cover.now.blocks pairs.now) }
{
    pairs.keeps_its_states();
    let split = split_of_pairs(alloc, cover)?;
    let codes = codes_of_pairs(alloc, cover, &split, pairs.states())?;
    network_of_codes(alloc, file, cover, pairs, &split, &codes)
}

/// The network of the machine of the pairs, by its split and codes.
fn network_of_codes(
    alloc: Global,
    file: &KissFile,
    cover: &Cover,
    pairs: &Machine,
    split: &Split,
    codes: &Codes,
) -> Result<CommentedNetwork, AllocError>
    requires lawful { IsLawful file.now }
    requires cover { IsStateCover (length file.now.states) cover.now.blocks }
    requires expanded { IsExpanded file.now cover.now.blocks pairs.now }
    requires parts { AreParts cover.now.blocks split.now.parts }
    requires codes { AreCodesOfPairs cover.now.blocks split.now.parts codes.now }
    ensures ready { IfOk result CanBeText }
    ensures whole { IfOk result (IsWhole file.now cover.now.blocks pairs.now) }
{
    pairs.keeps_its_states();
    let signals = names(alloc, file, codes.bits)?;
    let made = network_of_split(alloc, pairs, split, codes, &signals)?;
    commented(alloc, file, cover, codes, made)
}

/// A network with the comments of a cover and its codes.
fn commented(
    alloc: Global,
    file: &KissFile,
    cover: &Cover,
    codes: &Codes,
    made: SplitNetwork,
) -> Result<CommentedNetwork, AllocError>
    requires cover { IsStateCover (length file.now.states) cover.now.blocks }
    requires words { length codes.now.words ≡ length (expansion.pairs_of cover.now.blocks) }
    requires bits { codes.now.bits ≤ 64 }
    ensures { IfOk result (IsCommented file.now cover.now.blocks codes.now made) }
{
    let SplitNetwork { network, notes } = made;
    let mut comments = Vec::new(alloc);
    append_head(alloc, &mut comments, file, cover, codes, notes.as_slice())?;
    Ok(CommentedNetwork {
        comments: Bytes::from(comments),
        network,
    })
}
