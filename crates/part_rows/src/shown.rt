//! The cells of a part, each with what its rows have in common.

ghost use Rattle.std.specs.Prelude.{
  ◌==◌,
  ◌≡◌,
  ◌<◌,
  ◌≤◌,
  ◌∷◌,
  ◌++◌,
  [],
  All,
  Bool,
  IfOk,
  List,
  filter,
  length,
  map,
  slice_index,
};
ghost use Rattle.std.specs.List.{range_with_len};
ghost use Rattle.cubes.specs.Symbol as symbols;
ghost use Rattle.part_machines.specs.Which as whiches;
ghost use Rattle.part_rows.specs.Inner.Shown.{AreShown, HasBits};

use cubes::bit;
use dependence::ReadSet;
use part_machines::{Cell, Field, cells_of, field_of_cell};
use partition::Partition;
use state_codes::{Codes, Which};
use std::alloc::{AllocError, Global};

/// Bits in order: bit b is the bit 2^b of the word.
#[derive(Clone, Copy)]
pub(crate) struct Bits {
    pub count: usize,
    pub word: u64,
}

/// A cell as its rows show it: its least state, its block, its field, and the part's bits in the code of the state.
#[derive(Clone, Copy)]
pub(crate) struct Shown {
    pub state: u16,
    pub block: u16,
    pub field: Field,
    pub bits: Bits,
}

/// The cells of a part, in the order of their least states.
pub(crate) fn shown_cells(
    alloc: Global,
    codes: &Codes,
    p: &Partition,
    set: &ReadSet,
    which: Which,
) -> Result<Vec<Shown>, AllocError>
    requires words { length codes.now.words ≡ length p.now }
    requires owner { length codes.now.owner ≡ codes.now.bits }
    requires short { codes.now.bits ≤ 64 }
    requires few { length set.now.latches ≤ 32 }
    requires latches { All (λ c. c < 64) set.now.latches }
    ensures { IfOk result (λ shown. AreShown codes.now p.now set.now.latches which shown.items) }
{
    let latches = set.latches.as_slice();
    let cells = cells_of(alloc, p, codes.words.as_slice(), latches)?;
    let mut shown = Vec::with_capacity(alloc, cells.len())?;
    for cell in &cells {
        let field = field_of_cell(alloc, &cells, *cell, latches.len())?;
        shown.push(shown_cell(codes, which, *cell, field))?;
    }
    Ok(shown)
}

/// The cell with its field and the part's bits.
fn shown_cell(codes: &Codes, which: Which, cell: Cell, field: Field) -> Shown
    requires owner { length codes.now.owner ≡ codes.now.bits }
    requires short { codes.now.bits ≤ 64 }
    requires state { cell.state < length codes.now.words }
    ensures state { result.state ≡ cell.state }
    ensures block { result.block ≡ cell.block }
    ensures field { result.field ≡ field }
    ensures bits { HasBits
        (map (symbols.bit (slice_index codes.now.words cell.state)) (whiches.own_bits codes.now which))
        result.bits }
    ensures few { result.bits.count ≤ 64 }
{
    let word = codes.words.as_slice()[usize::from(cell.state)];
    Shown {
        state: cell.state,
        block: cell.block,
        field,
        bits: own_bits(codes, which, word),
    }
}

/// The bits of the part in a word.
fn own_bits(codes: &Codes, which: Which, word: u64) -> Bits
    requires owner { length codes.now.owner ≡ codes.now.bits }
    requires short { codes.now.bits ≤ 64 }
    ensures bits { HasBits (map (symbols.bit word) (whiches.own_bits codes.now which)) result }
    ensures few { result.count ≤ 64 }
{
    match which {
        Which::Part(j) => bits_of_owner(codes.owner.as_slice(), j, word),
        Which::Outputs => Bits { count: 0, word: 0 },
    }
}

/// The bits in a word whose owner is the part with that number.
fn bits_of_owner(owners: &[u16], j: usize, word: u64) -> Bits
    requires { length owners.now ≤ 64 }
    ensures bits { HasBits
        (map (symbols.bit word) (filter (λ c. slice_index owners.now c == j) (range_with_len 0 (length owners.now))))
        result }
    ensures few { result.count ≤ 64 }
{
    let mut bits = Bits { count: 0, word: 0 };
    for (c, owner) in owners.iter().enumerate() {
        if usize::from(*owner) == j {
            bits = with_last(bits, bit(word, c));
        }
    }
    bits
}

/// The bits and one more behind them.
fn with_last(bits: Bits, last: bool) -> Bits
    requires { bits.count < 64 }
    ensures { (list : List Bool) → HasBits list bits → HasBits (list ++ last ∷ []) result }
{
    Bits {
        count: bits.count + 1,
        word: if last {
            bits.word | (1 << bits.count)
        } else {
            bits.word
        },
    }
}
