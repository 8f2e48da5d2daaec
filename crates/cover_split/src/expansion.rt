//! The machine of the pairs of a closed cover.
ghost use Rattle.std.specs.Prelude.{◌≡◌, ◌≤◌, IfErr, IfNone, IfOk, IfSome, length, min};
ghost use Rattle.std.specs.Option.{option_map_or};
ghost use Rattle.kiss_file.specs.LawfulFile.{AreNumbered, IsLawful};
ghost use Rattle.kiss_file.specs.Machine.{Conflicting, Specified};
ghost use Rattle.machine_table.specs.Table.{IsTable};
ghost use Rattle.cover_split.specs.StateCover.{IsStateCover};
ghost use Rattle.cover_split.specs.Expansion.{AnswersAlike, AnswersAsStates, Caused, IsClosedCover, IsExpansion};
ghost use Rattle.cover_split.specs.Inner.Joints.{AllLead, AreJointsOfEach, IsLeastLeaving};
ghost use Rattle.cover_split.specs.Inner.Rows.{IsBuilt};

use crate::joint::{Joint, Joints, joints};
use crate::pairs::{first_with, number_of, pairs_of};
use crate::rows::rows_of_pairs;
use crate::state_cover::{Block, Cover, states_at};
use kiss_file::{KissFile, numbered_names};
use machine_table::Machine;
use std::alloc::{AllocError, AllocFailed, Global};

/// Why a cover gives no machine.
#[derive(Clone, Copy, Debug, PartialEq, Eq)]
pub enum ExpandFail {
    /// No block has the next states of all states of this block at the symbol with the number x. It is the
    /// least such block, and x is its least such symbol.
    NotClosed { block: u16, x: u32 },
    /// Memory ran out.
    NoMemory,
}

impl From<AllocError> for ExpandFail {
    ghost use Rattle.std.specs.Prelude.{◌≡◌};
    ghost use Rattle.cover_split.specs.declared.expansion.ExpandFail.TheVariants.{NoMemory};

    ghost from_gives = { λ _ fail. fail ≡ NoMemory };

    fn from(_: AllocError) -> ExpandFail {
        ExpandFail::NoMemory
    }
}

impl<T: Drop> From<AllocFailed<T>> for ExpandFail {
    ghost use Rattle.std.specs.Prelude.{◌≡◌};
    ghost use Rattle.cover_split.specs.declared.expansion.ExpandFail.TheVariants.{NoMemory};

    ghost from_gives = { λ _ fail. fail ≡ NoMemory };

    fn from(_: AllocFailed<T>) -> ExpandFail {
        ExpandFail::NoMemory
    }
}

/// The machine of the pairs of a block and a state in it, by block and then by state. A pair goes to the copy
/// of the next state in the first block that has the next states of its whole block.
pub fn expand(alloc: Global, m: &Machine, cover: &Cover) -> Result<KissFile, ExpandFail>
    requires { IsStateCover (length m.now.states) cover.now.blocks }
    ensures expansion { IfOk result (IsExpansion m.now cover.now.blocks) }
    ensures closed { IfOk result (λ _. IsClosedCover m.now cover.now.blocks) }
    ensures caused { IfErr result (Caused m.now cover.now.blocks) }

    ensures table { IfOk result IsTable }
    ensures no_conflict { IfOk result (λ file. Conflicting file → ⊥) }
    ensures specified { IfOk result Specified }
    ensures numbered { IfOk result AreNumbered }

    // The file is lawful unless it has too many rows.
    ensures lawful { IfOk result (λ file. length file.rows ≤ 65536 → IsLawful file) }

    ensures answers { IfOk result (AnswersAsStates m.now cover.now.blocks) }
    ensures answers_alike { IfOk result (AnswersAlike m.now) }
{
    m.keeps_its_states();
    let file = file_of_pairs(alloc, m, cover.blocks.as_slice())?;
    Ok(file)
}

/// The file of the pairs.
fn file_of_pairs(alloc: Global, m: &Machine, blocks: &[Block]) -> Result<KissFile, ExpandFail>
    requires { IsStateCover (length m.now.states) blocks.now }
    ensures built { IfOk result (IsBuilt m.now blocks.now) }
    ensures closed { IfOk result (λ _. IsClosedCover m.now blocks.now) }
    ensures caused { IfErr result (Caused m.now blocks.now) }
{
    let lists = joints_of_blocks(alloc, m, blocks)?;
    let pairs = pairs_of(alloc, blocks)?;
    let pairs = pairs.as_slice();
    let rows = rows_of_pairs(alloc, m, blocks, pairs, lists.as_slice())?;
    let reset = m.reset() as u16;
    Ok(KissFile {
        inputs: m.inputs(),
        outputs: m.outputs(),
        reset: number_of(pairs, first_with(blocks, reset), reset),
        states: numbered_names(alloc, pairs.len() as u16)?,
        rows,
        input_names: None,
        output_names: None,
    })
}

/// The joint pieces of each block, each of which leads to a block.
fn joints_of_blocks(alloc: Global, m: &Machine, blocks: &[Block]) -> Result<Vec<Joints>, ExpandFail>
    requires { IsStateCover (length m.now.states) blocks.now }
    ensures count { IfOk result (λ lists. length lists.items ≡ length blocks.now) }
    ensures joints { IfOk result (λ lists. AreJointsOfEach m.now blocks.now lists.items) }
    ensures closed { IfOk result (λ _. IsClosedCover m.now blocks.now) }
    ensures caused { IfErr result (Caused m.now blocks.now) }
{
    let mut lists = Vec::with_capacity(alloc, blocks.len())?;
    for j in 0..blocks.len() {
        let joints = joints(alloc, m, blocks, states_at(blocks, j))?;
        if let Some(x) = first_leaving(joints.as_slice()) {
            return Err(ExpandFail::NotClosed { block: j as u16, x });
        }
        lists.push(joints)?;
    }
    Ok(lists)
}

/// The least symbol of a joint piece that leads to no block.
fn first_leaving(joints: &[Joint]) -> Option<u32>
    ensures some { IfSome result (IsLeastLeaving joints.now) }
    ensures none { IfNone result (AllLead joints.now) }
{
    let mut least = None;
    for joint in joints {
        if joint.target.is_none() {
            least = Some(lesser(least, joint.cube.value));
        }
    }
    least
}

/// The lesser of x and the number that was found, if there is one.
fn lesser(found: Option<u32>, x: u32) -> u32
    ensures { result ≡ option_map_or (min x) found x }
{
    match found {
        Some(y) => x.min(y),
        None => x,
    }
}
