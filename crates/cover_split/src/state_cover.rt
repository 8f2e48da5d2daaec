//! Covers, and why a text is not a cover.
ghost use Rattle.std.specs.Prelude.{◌≡◌, ◌<◌, ◌↔◌, Contains, IsTrue, length};
ghost use Rattle.cover_split.specs.StateCover.{block_at};

use hs_list::Items;
use std::alloc::{AllocError, AllocFailed};

/// States of a block, ascending.
pub type Block = Items<u16>;

/// Blocks in order.
pub type Blocks = Items<Block>;

/// Blocks of states that may overlap, numbered from 0.
#[derive(Drop)]
pub struct Cover {
    pub blocks: Blocks,
}

/// Why a text is not a cover of n states. Blocks, and the places in a block, are counted from 0.
#[derive(Clone, Copy, Debug, PartialEq, Eq)]
pub enum CoverFail {
    /// The first place of the text that does not have a decimal number without leading zeros, below n and
    /// greater than the number before it in its block.
    BadText { block: usize, place: usize },
    /// Each state of block a is in block b. a is the least block within another, and b is the least block that
    /// has all of a.
    Contained { a: usize, b: usize },
    /// The least state that is in no block.
    Missing { state: u16 },
    /// The blocks have this number of places in all, which is above 256.
    TooMany { found: usize },
    /// There is only one block, or no block has two states.
    Trivial,
    /// Memory ran out.
    NoMemory,
}

impl From<AllocError> for CoverFail {
    ghost use Rattle.std.specs.Prelude.{◌≡◌};
    ghost use Rattle.cover_split.specs.declared.state_cover.CoverFail.TheVariants.{NoMemory};

    ghost from_gives = { λ _ fail. fail ≡ NoMemory };

    fn from(_: AllocError) -> CoverFail {
        CoverFail::NoMemory
    }
}

impl<T: Drop> From<AllocFailed<T>> for CoverFail {
    ghost use Rattle.std.specs.Prelude.{◌≡◌};
    ghost use Rattle.cover_split.specs.declared.state_cover.CoverFail.TheVariants.{NoMemory};

    ghost from_gives = { λ _ fail. fail ≡ NoMemory };

    fn from(_: AllocFailed<T>) -> CoverFail {
        CoverFail::NoMemory
    }
}

/// The states of block j.
pub(crate) fn states_at(blocks: &[Block], j: usize) -> &[u16]
    requires { j < length blocks.now }
    ensures { result.now ≡ block_at blocks.now j }
{
    blocks[j].as_slice()
}

/// Whether the block has the state.
pub(crate) fn has_state(block: &[u16], s: u16) -> bool
    ensures { IsTrue result ↔ Contains block.now s }
{
    block.contains(&s)
}
