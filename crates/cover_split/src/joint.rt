//! Joint pieces of a block: cubes on which each state of the block has one next state and one list of outputs.
//!
//! The cube of all symbols is halved until, for each state of the block, one of the state's pieces holds the
//! whole cube. A half is given only the pieces that meet it. Each symbol is in exactly one of the cubes. A cube is
//! halved at the dash at which most pieces of the first state without such a piece have a bit, so that few of
//! them meet both halves.
ghost use Rattle.std.specs.Prelude.{◌≡◌, ◌<◌, ◌≤◌, ◌↔◌, All, IfOk, IsTrue, MatchResult, OnOk, Some, length, slice_get};
ghost use Rattle.cubes.specs.declared.cube.Cube.{Cube};
ghost use Rattle.machine_table.specs.declared.pieces.Piece.{Piece};
ghost use Rattle.cover_split.specs.Inner.Joints.{
  AddsJoints,
  AreJoints,
  AreListsFor,
  AreListsMet,
  AreMet,
  AreSpread,
  HasEachNext,
  IsDash,
  IsSettled,
  IsTargetOf,
  IsWholePiece,
};

use crate::state_cover::{Block, has_state, states_at};
use cubes::{Cube, bit};
use hs_list::Items;
use machine_table::{Machine, Piece};
use std::alloc::{AllocError, AllocFailed, Global};

/// Pieces in order.
pub(crate) type Pieces = Items<Piece>;

/// Symbols at which each state of a block has one next state and one list of outputs.
#[derive(Drop)]
pub(crate) struct Joint {
    /// The symbols.
    pub(crate) cube: Cube,
    /// For each state of the block, in order, a piece that holds all of these symbols.
    pub(crate) pieces: Pieces,
    /// The first block that has the next states of all states of the block, if there is one.
    pub(crate) target: Option<u16>,
}

/// Joint pieces in order.
pub(crate) type Joints = Items<Joint>;

/// The joint pieces of block j.
pub(crate) fn joints_at(lists: &[Joints], j: usize) -> &[Joint]
    requires { j < length lists.now }
    ensures { slice_get lists.now j ≡ Some result.now }
{
    lists[j].as_slice()
}

/// What is to be done with a cube.
enum Division {
    /// For each state, one of its pieces holds the whole cube.
    Whole(Pieces),
    /// The cube is halved at this place.
    Halve(u32),
}

/// The joint pieces of the states of a block.
pub(crate) fn joints(
    alloc: Global,
    m: &Machine,
    blocks: &[Block],
    states: &[u16],
) -> Result<Joints, AllocError>
    requires states { All (λ s. s < length m.now.states) states.now }
    requires blocks { length blocks.now ≤ 256 }
    ensures { IfOk result (AreJoints m.now blocks.now states.now) }
{
    let lists = pieces_of_states(alloc, m, states)?;
    let mut joints = Joints::new(alloc);
    add_joints(
        alloc,
        blocks,
        Cube::whole(m.inputs()),
        lists.as_slice(),
        &mut joints,
    )?;
    Ok(joints)
}

/// The pieces of each state.
fn pieces_of_states(alloc: Global, m: &Machine, states: &[u16]) -> Result<Vec<Pieces>, AllocError>
    requires { All (λ s. s < length m.now.states) states.now }
    ensures { IfOk result (λ lists. AreListsFor m.now states.now lists.items) }
{
    let mut lists = Vec::with_capacity(alloc, states.len())?;
    for s in states {
        lists.push(Pieces::from(m.pieces(alloc, usize::from(*s))?))?;
    }
    Ok(lists)
}

/// Adds joint pieces that hold the symbols of the cube.
fn add_joints(
    alloc: Global,
    blocks: &[Block],
    cube: Cube,
    lists: &[Pieces],
    joints: &mut Joints,
) -> Result<(), AllocError>
    requires lists { All (AreSpread cube) lists.now }
    requires blocks { length blocks.now ≤ 256 }
    ensures { OnOk result (AddsJoints blocks.now lists.now cube joints.old joints.new) }
{
    match settled(alloc, &cube, lists)? {
        Division::Whole(pieces) => {
            let found = pieces.as_slice();
            let target = first_target(blocks, found);
            joints.push(Joint {
                cube,
                pieces,
                target,
            })?;
            Ok(())
        }
        Division::Halve(place) => {
            let low = cube.half(place, false);
            let met_low = meeting(alloc, &low, lists)?;
            let low_lists = met_low.as_slice();
            add_joints(alloc, blocks, low, low_lists, joints)?;
            let high = cube.half(place, true);
            let met_high = meeting(alloc, &high, lists)?;
            let high_lists = met_high.as_slice();
            add_joints(alloc, blocks, high, high_lists, joints)?;
            Ok(())
        }
    }
}

/// For each state the pieces that meet the cube.
fn meeting(alloc: Global, cube: &Cube, lists: &[Pieces]) -> Result<Vec<Pieces>, AllocError>
    requires { All (λ pieces. All (λ piece. piece.cube.width ≡ cube.now.width) pieces) lists.now }
    ensures { IfOk result (λ met. AreListsMet cube.now lists.now met.items) }
{
    let mut met = Vec::with_capacity(alloc, lists.len())?;
    for pieces in lists {
        met.push(those_meeting(alloc, cube, pieces.as_slice())?)?;
    }
    Ok(met)
}

/// The pieces that meet the cube.
fn those_meeting(alloc: Global, cube: &Cube, pieces: &[Piece]) -> Result<Pieces, AllocError>
    requires { All (λ piece. piece.cube.width ≡ cube.now.width) pieces.now }
    ensures { IfOk result (AreMet cube.now pieces.now) }
{
    let mut met = Pieces::new(alloc);
    for piece in pieces {
        if cube.meets(&piece.cube) {
            met.push(*piece)?;
        }
    }
    Ok(met)
}

/// For each state a piece that holds the whole cube, or a place at which to halve it.
fn settled(alloc: Global, cube: &Cube, lists: &[Pieces]) -> Result<Division, AllocError>
    requires { All (AreSpread cube.now) lists.now }
    ensures { IfOk result (IsSettled cube.now lists.now) }
{
    let mut found = Pieces::new(alloc);
    for pieces in lists {
        match whole_piece(cube, pieces.as_slice()) {
            Ok(piece) => found.push(piece)?,
            Err(place) => return Ok(Division::Halve(place)),
        }
    }
    Ok(Division::Whole(found))
}

/// A piece that holds the whole cube, or a place at which to halve it.
fn whole_piece(cube: &Cube, pieces: &[Piece]) -> Result<Piece, u32>
    requires { AreSpread cube.now pieces.now }
    ensures { MatchResult result (IsWholePiece cube.now pieces.now) (IsDash cube.now) }
{
    let mut place = None;
    for piece in pieces {
        if !cube.meets(&piece.cube) {
            continue;
        }
        let Some(free) = cube.free_place(&piece.cube) else {
            return Ok(*piece);
        };
        place = place.or(Some(free));
    }
    match place {
        Some(place) => Err(most_looked_at(cube, pieces, place)),
        None => unreachable!(),
    }
}

/// The dash of the cube at which most pieces have a bit, the lowest of several. If no piece has a bit at a dash,
/// it is this dash.
fn most_looked_at(cube: &Cube, pieces: &[Piece], dash: u32) -> u32
    requires { IsDash cube.now dash }
    ensures { IsDash cube.now result }
{
    let counts = looks_at(pieces);
    let mut best = dash;
    let mut most = 0;
    for place in 0..32u32 {
        let count = counts[place as usize];
        if most < count && is_dash(cube, place) {
            best = place;
            most = count;
        }
    }
    best
}

/// Whether the cube has a dash at the place.
fn is_dash(cube: &Cube, place: u32) -> bool
    requires { place < 32 }
    ensures { IsTrue result ↔ IsDash cube.now place }
{
    place < u32::from(cube.width) && !bit(u64::from(cube.care), place as usize)
}

/// For each place, how many pieces have a bit there.
fn looks_at(pieces: &[Piece]) -> [u32; 32] {
    let mut counts = [0; 32];
    for piece in pieces {
        add_looks(&mut counts, piece.cube.care);
    }
    counts
}

/// Counts one more at each place of a bit that is 1.
fn add_looks(counts: &mut [u32; 32], care: u32) {
    let mut rest = care;
    while rest != 0 {
        if let Some(count) = counts.get_mut(rest.trailing_zeros() as usize) {
            *count = count.saturating_add(1);
        }
        rest &= rest - 1;
    }
}

/// The first block that has the next state of each piece.
fn first_target(blocks: &[Block], pieces: &[Piece]) -> Option<u16>
    requires { length blocks.now ≤ 256 }
    ensures { IsTargetOf blocks.now pieces.now result }
{
    for j in 0..blocks.len() {
        if has_each_next(states_at(blocks, j), pieces) {
            return Some(j as u16);
        }
    }
    None
}

/// Whether the block has the next state of each piece.
fn has_each_next(block: &[u16], pieces: &[Piece]) -> bool
    ensures { IsTrue result ↔ HasEachNext pieces.now block.now }
{
    for piece in pieces {
        if !has_state(block, piece.next) {
            return false;
        }
    }
    true
}
