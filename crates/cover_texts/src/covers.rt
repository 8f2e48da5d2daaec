//! From the text of a cover to its network.

ghost use Rattle.std.specs.Prelude.{◌≡◌, ℕ, List, length};
ghost use Rattle.answers.specs.Outcome.{IsJudged};
ghost use Rattle.blif_out.specs.NetworkText.{CanBeText};
ghost use Rattle.cover_split.specs.StateCover.{IsStateCover};
ghost use Rattle.cover_texts.specs.Flaws.{BadCoverRow};
ghost use Rattle.cover_texts.specs.Inner.Steps.{IsRead};
ghost use Rattle.cover_texts.specs.CoverText.{IsCoverNetwork};
ghost use Rattle.kiss_file.specs.LawfulFile.{IsLawful};

use crate::flaws::read;
use crate::networks::network_of_pairs;
use crate::pairs::machine_of_pairs;
use answers::Refusal;
use blif_out::CommentedNetwork;
use cover_split::Cover;
use kiss_file::KissFile;
use machine_table::Machine;
use std::alloc::Global;

/// The network of a file's machine, split by the cover of a text, with the comments before it.
pub fn cover(
    alloc: Global,
    file: &KissFile,
    machine: &Machine,
    text: &[u8],
) -> Result<CommentedNetwork, Refusal>
    requires lawful { IsLawful file.now }
    requires machine { machine.now ≡ file.now }
    ensures { IsJudged (BadCoverRow file.now text.now)
        (λ made. CanBeText made × IsCoverNetwork file.now text.now made) result }
{
    let blocks = read(alloc, file, machine, text)?;
    cover_by(alloc, file, machine, &blocks)
}

/// The network of a file's machine, split by a cover that was read from a text, with the comments before it.
fn cover_by(
    alloc: Global,
    file: &KissFile,
    machine: &Machine,
    blocks: &Cover,
) -> Result<CommentedNetwork, Refusal>
    requires lawful { IsLawful file.now }
    requires machine { machine.now ≡ file.now }
    requires cover { IsStateCover (length file.now.states) blocks.now.blocks }
    ensures { (text : List ℕ) → IsRead (length file.now.states) text blocks.now.blocks
        → IsJudged (BadCoverRow file.now text) (λ made. CanBeText made × IsCoverNetwork file.now text made) result }
{
    let pairs = machine_of_pairs(alloc, machine, blocks)?;
    Ok(network_of_pairs(alloc, file, blocks, &pairs)?)
}
