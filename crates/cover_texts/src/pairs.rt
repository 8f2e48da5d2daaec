//! The machine of the pairs, its parts and its codes.

ghost use Rattle.std.specs.Prelude.{◌≡◌, ◌⊎◌, ℕ, IfOk, MatchResult, length};
ghost use Rattle.answers.specs.declared.refusals.Refusal.TheVariants as refusals;
ghost use Rattle.cover_split.specs.StateCover.{IsStateCover};
ghost use Rattle.cover_split.specs.Expansion.{pairs_of};
ghost use Rattle.cover_texts.specs.Inner.Steps.{AreCodesOfPairs, AreParts, IsExpanded, LeavesWith};
ghost use Rattle.partition.specs.Partition.{IsStateCount};

use answers::{CoverFlaw, Refusal, symbol_text};
use cover_split::{Cover, ExpandFail, expand, split};
use kiss_file::Fill;
use machine_table::Machine;
use state_codes::{CodeFail, Codes, Split, encode};
use std::alloc::{AllocError, Global};

/// The machine of the pairs of a cover.
pub(crate) fn machine_of_pairs(
    alloc: Global,
    machine: &Machine,
    cover: &Cover,
) -> Result<Machine, Refusal>
    requires { IsStateCover (length machine.now.states) cover.now.blocks }
    ensures { MatchResult result (IsExpanded machine.now cover.now.blocks)
        (λ refusal. (refusal ≡ refusals.NoMemory) ⊎ LeavesWith machine.now cover.now.blocks refusal) }
{
    match expand(alloc, machine, cover) {
        Ok(file) => Ok(Machine::of_accepted(alloc, &file, Fill::Hold)?),
        Err(ExpandFail::NotClosed { block, x }) => {
            let symbol = symbol_text(alloc, machine.inputs(), x)?;
            Err(Refusal::BadCover(CoverFlaw::Leaves {
                block: usize::from(block),
                symbol,
            }))
        }
        Err(ExpandFail::NoMemory) => Err(Refusal::NoMemory),
    }
}

/// The split of the machine of the pairs.
pub(crate) fn split_of_pairs(alloc: Global, cover: &Cover) -> Result<Split, AllocError>
    requires { (n : ℕ) × IsStateCover n cover.now.blocks }
    ensures { IfOk result (λ split. AreParts cover.now.blocks split.parts) }
{
    split(alloc, cover)
}

/// The codes of n pairs. Two pairs differ in the block or in the place in it, and a code has at most 16 bits.
pub(crate) fn codes_of_pairs(
    alloc: Global,
    cover: &Cover,
    split: &Split,
    n: usize,
) -> Result<Codes, AllocError>
    requires count { IsStateCount n }
    requires pairs { n ≡ length (pairs_of cover.now.blocks) }
    requires cover { (m : ℕ) × IsStateCover m cover.now.blocks }
    requires parts { AreParts cover.now.blocks split.now.parts }
    ensures { IfOk result (AreCodesOfPairs cover.now.blocks split.now.parts) }
{
    // The proof knows the list of blocks only after a question to it, which does nothing.
    let _ = cover.blocks.as_slice();
    match encode(alloc, split, n) {
        Ok(codes) => Ok(codes),
        Err(CodeFail::NoMemory) => Err(AllocError),
        Err(CodeFail::NotApart { .. }) => unreachable!(),
        Err(CodeFail::CodeTooLong { .. }) => unreachable!(),
    }
}
