//! The rows of the pairs.
ghost use Rattle.std.specs.Prelude.{◌≡◌, ◌<◌, Contains, IfOk, IsSome, OnOk, Some, length, slice_index};
ghost use Rattle.cover_split.specs.StateCover.{IsStateCover, block_at};
ghost use Rattle.cover_split.specs.Expansion.{pairs_of};
ghost use Rattle.cover_split.specs.Inner.Joints.{AllLead, AreJoints, AreJointsOfEach, IsJoint};
ghost use Rattle.cover_split.specs.Inner.Rows.{AddsRows, AreRowsBelow, IsPairRow, IsPlaceOf};

use crate::joint::{Joint, Joints, joints_at};
use crate::pairs::{number_of, pair_at};
use crate::state_cover::{Block, states_at};
use kiss_file::{KissRow, Rows};
use machine_table::{Machine, all_outputs};
use std::alloc::{AllocError, Global};

/// A pair: its number, its block, and the place of its state in the block.
#[derive(Clone, Copy)]
pub(crate) struct PairPlace {
    pub(crate) number: u16,
    pub(crate) block: u16,
    pub(crate) place: usize,
}

/// The rows of all pairs, pair after pair. `lists` has the joint pieces of each block.
pub(crate) fn rows_of_pairs(
    alloc: Global,
    m: &Machine,
    blocks: &[Block],
    pairs: &[(u16, u16)],
    lists: &[Joints],
) -> Result<Rows, AllocError>
    requires cover { IsStateCover (length m.now.states) blocks.now }
    requires pairs { pairs.now ≡ pairs_of blocks.now }
    requires count { length lists.now ≡ length blocks.now }
    requires lists { AreJointsOfEach m.now blocks.now lists.now }
    ensures { IfOk result (AreRowsBelow m.now blocks.now (length pairs.now)) }
{
    let mut rows = Rows::new(alloc);
    for i in 0..pairs.len() {
        let (block, s) = pair_at(pairs, i);
        let at = PairPlace {
            number: i as u16,
            block,
            place: place_in(states_at(blocks, usize::from(block)), s),
        };
        let joints = joints_at(lists, usize::from(block));
        add_rows(&mut rows, m, blocks, pairs, at, joints)?;
    }
    Ok(rows)
}

/// The place of a state in a block.
fn place_in(states: &[u16], s: u16) -> usize
    requires { Contains states.now s }
    ensures within { result < length states.now }
    ensures state { slice_index states.now result ≡ s }
{
    for (place, t) in states.iter().enumerate() {
        if *t == s {
            return place;
        }
    }
    unreachable!()
}

/// Adds the rows of one pair, one for each joint piece of its block.
fn add_rows(
    rows: &mut Rows,
    m: &Machine,
    blocks: &[Block],
    pairs: &[(u16, u16)],
    at: PairPlace,
    joints: &[Joint],
) -> Result<(), AllocError>
    requires cover { IsStateCover (length m.now.states) blocks.now }
    requires pairs { pairs.now ≡ pairs_of blocks.now }
    requires at { IsPlaceOf blocks.now at.number at.block at.place }
    requires joints { AreJoints m.now blocks.now (block_at blocks.now at.block) joints.now }
    requires lead { AllLead joints.now }
    ensures { OnOk result (AddsRows m.now blocks.now at.number rows.old rows.new) }
{
    for joint in joints {
        rows.push(row_of(m, blocks, pairs, at, joint))?;
    }
    Ok(())
}

/// The row of a pair for a joint piece.
fn row_of(
    m: &Machine,
    blocks: &[Block],
    pairs: &[(u16, u16)],
    at: PairPlace,
    joint: &Joint,
) -> KissRow
    requires cover { IsStateCover (length m.now.states) blocks.now }
    requires pairs { pairs.now ≡ pairs_of blocks.now }
    requires at { IsPlaceOf blocks.now at.number at.block at.place }
    requires joint { IsJoint m.now blocks.now (block_at blocks.now at.block) joint.now }
    requires leads { IsSome joint.now.target }
    ensures row { IsPairRow m.now blocks.now at.number result }
    ensures cube { result.cube ≡ joint.now.cube }
{
    let Some(target) = joint.target else {
        unreachable!()
    };
    let piece = joint.pieces.as_slice()[at.place];
    KissRow {
        cube: joint.cube,
        from: at.number,
        to: Some(number_of(pairs, target, piece.next)),
        care: all_outputs(m.outputs()),
        value: piece.outputs,
    }
}
