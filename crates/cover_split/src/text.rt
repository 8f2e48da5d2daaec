//! Covers from their texts.
ghost use Rattle.std.specs.Prelude.{
  ◌≡◌,
  ◌≢◌,
  ℕ,
  ◌+◌,
  ◌<◌,
  ◌≤◌,
  ◌^◌,
  ◌⊎◌,
  ◌↔◌,
  All,
  IfErr,
  IfNone,
  IfOk,
  IfSome,
  IsTrue,
  List,
  MatchResult,
  OnOk,
  length,
  true,
};
ghost use Rattle.std.specs.Fmt.{decimal};
ghost use Rattle.partition.specs.Partition.{IsStateCount};
ghost use Rattle.partition.specs.Numerals.{IsPlain};
ghost use Rattle.cover_split.specs.declared.state_cover.CoverFail.{CoverFail};
ghost use Rattle.cover_split.specs.StateCover.{IsBlock, IsStateCover, IsTrivial, places_of};
ghost use Rattle.cover_split.specs.Refusal.{BlocksFault, CoverFault, SpellsBlocks};
ghost use Rattle.cover_split.specs.Inner.Pieces.{IsBlockFault, IsBlockText};

use crate::holders::{first_contained, first_missing, holders_of_states};
use crate::state_cover::{Block, Blocks, Cover, CoverFail};
use std::alloc::{AllocError, AllocFailed, Global};

/// The greatest number of places.
const MOST_PLACES: usize = 256;

/// The cover of n states with this text: blocks joined by slashes, where a block is numbers of states joined by
/// commas. Faults are looked for in the order of `CoverFail`, each of them in the whole text.
pub fn parse(alloc: Global, text: &[u8], n: usize) -> Result<Cover, CoverFail>
    requires { IsStateCount n }
    ensures text { IfOk result (λ cover. SpellsBlocks n text.now cover.blocks) }
    ensures cover { IfOk result (λ cover. IsStateCover n cover.blocks) }
    ensures accepted { (blocks : List (List ℕ)) → SpellsBlocks n text.now blocks → IsStateCover n blocks
        → MatchResult result (λ cover. cover.blocks ≡ blocks) (λ fail. fail ≡ CoverFail.NoMemory) }
    ensures refused { (fail : CoverFail) → result ≡ Err fail
        → (fail ≡ CoverFail.NoMemory) ⊎ CoverFault n text.now fail }
    ensures caused { (fail : CoverFail) → CoverFault n text.now fail
        → (result ≡ Err fail) ⊎ (result ≡ Err CoverFail.NoMemory) }
{
    read_cover(alloc, text, n)
}

/// Reads the blocks, and then judges them.
fn read_cover(alloc: Global, text: &[u8], n: usize) -> Result<Cover, CoverFail>
    requires { IsStateCount n }
    ensures { MatchResult result
        (λ cover. SpellsBlocks n text.now cover.blocks × IsStateCover n cover.blocks)
        (λ fail. (fail ≡ CoverFail.NoMemory) ⊎ CoverFault n text.now fail) }
{
    let blocks = read_blocks(alloc, text, n)?;
    judge(alloc, blocks.as_slice(), n)?;
    Ok(Cover { blocks })
}

/// Looks for faults of blocks of states.
fn judge(alloc: Global, blocks: &[Block], n: usize) -> Result<(), CoverFail>
    requires count { IsStateCount n }
    requires lawful { All (IsBlock n) blocks.now }
    requires fits { places_of blocks.now < 2 ^ 64 }
    ensures ok { OnOk result (IsStateCover n blocks.now) }
    ensures err { IfErr result (λ fail. (fail ≡ CoverFail.NoMemory) ⊎ BlocksFault n blocks.now fail) }
{
    let holders = holders_of_states(alloc, blocks, n)?;
    if let Some((a, b)) = first_contained(blocks, holders.as_slice()) {
        return Err(CoverFail::Contained { a, b });
    }
    if let Some(state) = first_missing(holders.as_slice()) {
        return Err(CoverFail::Missing {
            state: state as u16,
        });
    }
    let found = places(blocks);
    if found > MOST_PLACES {
        return Err(CoverFail::TooMany { found });
    }
    if is_trivial(blocks) {
        return Err(CoverFail::Trivial);
    }
    Ok(())
}

/// The number of places of all blocks together.
fn places(blocks: &[Block]) -> usize
    requires { places_of blocks.now < 2 ^ 64 }
    ensures { result ≡ places_of blocks.now }
{
    let mut found = 0;
    for block in blocks {
        found += block.as_slice().len();
    }
    found
}

/// Whether there is only one block, or no block has two states.
fn is_trivial(blocks: &[Block]) -> bool
    ensures { IsTrue result ↔ IsTrivial blocks.now }
{
    blocks.len() == 1 || have_one_state(blocks)
}

/// Whether no block has two states.
fn have_one_state(blocks: &[Block]) -> bool
    ensures { IsTrue result ↔ All (λ block. length block < 2) blocks.now }
{
    for block in blocks {
        if block.as_slice().len() >= 2 {
            return false;
        }
    }
    true
}

/// The blocks that the text has between slashes.
fn read_blocks(alloc: Global, text: &[u8], n: usize) -> Result<Blocks, CoverFail>
    requires { IsStateCount n }
    ensures { MatchResult result
        (λ blocks. SpellsBlocks n text.now blocks × (places_of blocks < 2 ^ 64))
        (λ fail. (fail ≡ CoverFail.NoMemory) ⊎ CoverFault n text.now fail) }
{
    let mut found = Blocks::new(alloc);
    for piece in text.split(|byte| *byte == b'/') {
        let block = read_block(alloc, piece, n, found.as_slice().len())?;
        found.push(block)?;
    }
    Ok(found)
}

/// The block whose states the text has between commas. `number` is the number of the block.
fn read_block(alloc: Global, text: &[u8], n: usize, number: usize) -> Result<Block, CoverFail>
    requires { IsStateCount n }
    ensures { MatchResult result (IsBlockText n text.now) (IsBlockFault n text.now number) }
{
    let mut block = Block::new(alloc);
    let mut low = 0;
    for piece in text.split(|byte| *byte == b',') {
        let Some(state) = state_of(piece, low, n) else {
            return Err(CoverFail::BadText {
                block: number,
                place: block.as_slice().len(),
            });
        };
        block.push(state as u16)?;
        low = state + 1;
    }
    Ok(block)
}

/// The number that a piece spells, if it is at least `low` and below n.
fn state_of(piece: &[u8], low: usize, n: usize) -> Option<usize>
    ensures some { IfSome result (λ state. (low ≤ state) × (state < n) × (piece.now ≡ decimal state)) }
    ensures none { IfNone result ((state : ℕ) → low ≤ state → state < n → piece.now ≢ decimal state) }
{
    if !is_plain(piece) {
        return None;
    }
    let Ok(text) = str::from_utf8(piece) else {
        return None;
    };
    match text.parse::<usize>() {
        Ok(state) if low <= state && state < n => Some(state),
        _ => None,
    }
}

/// Whether a piece begins as a decimal number without leading zeros does.
fn is_plain(piece: &[u8]) -> bool
    ensures { IsTrue result ↔ IsPlain piece.now }
{
    match piece {
        [b'0'] => true,
        [first, ..] => *first > b'0' && *first <= b'9',
        [] => false,
    }
}
