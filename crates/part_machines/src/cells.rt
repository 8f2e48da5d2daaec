//! The cells of a part.

ghost use Rattle.std.specs.Prelude.{◌≡◌, ◌↔◌, ◌<◌, ◌≤◌, ◌^◌, All, IfOk, IsTrue, OnOk, length, map};
ghost use Rattle.cubes.specs.Symbol.{bit, symbol_of};
ghost use Rattle.part_machines.specs.CellLists.{AreCellsOf, IsAdded, IsFieldOfCell, IsListed, IsValueAdded};

use crate::fields::{Field, field_of};
use partition::Partition;
use std::alloc::{AllocError, Global};

/// A cell: its least state, its block, and the values that the block shows there, the first of them as the highest
/// bit.
#[derive(Clone, Copy)]
pub struct Cell {
    pub state: u16,
    pub block: u16,
    pub value: u32,
}

/// The cells of the states, in the order of their least states.
pub fn cells_of(
    alloc: Global,
    p: &Partition,
    words: &[u64],
    bits: &[u8],
) -> Result<Vec<Cell>, AllocError>
    requires words { length words.now ≡ length p.now }
    requires few { length bits.now ≤ 32 }
    requires bits { All (λ c. c < 64) bits.now }
    ensures { IfOk result (λ cells. AreCellsOf p.now words.now bits.now (length p.now) cells.items) }
{
    let mut cells = Vec::new(alloc);
    for s in 0..p.len() {
        let state = s as u16;
        let block = p.label(s);
        let value = value_on(words[s], bits);
        add(
            &mut cells,
            Cell {
                state,
                block,
                value,
            },
        )?;
    }
    Ok(cells)
}

/// Adds a cell, unless there is one of that block and that value.
fn add(cells: &mut Vec<Cell>, cell: Cell) -> Result<(), AllocError>
    ensures { OnOk result (IsAdded cells.old.items cell cells.new.items) }
{
    if !is_listed(cells, cell.block, cell.value) {
        cells.push(cell)?;
    }
    Ok(())
}

/// Whether there is a cell of that block and that value.
fn is_listed(cells: &[Cell], block: u16, value: u32) -> bool
    ensures { IsTrue result ↔ IsListed cells.now block value }
{
    cells
        .iter()
        .any(|cell| cell.block == block && cell.value == value)
}

/// The field of one of the cells.
pub fn field_of_cell(
    alloc: Global,
    cells: &[Cell],
    cell: Cell,
    width: usize,
) -> Result<Field, AllocError>
    requires width { width ≤ 32 }
    requires cells { All (λ other. other.value < 2 ^ width) cells.now }
    requires cell { cell.value < 2 ^ width }
    ensures { IfOk result (IsFieldOfCell cells.now cell width) }
{
    let mut shown = Vec::new(alloc);
    for other in cells {
        add_value(&mut shown, other, cell.block)?;
    }
    Ok(field_of(&shown, cell.value, width))
}

/// Adds the value of a cell of the block.
fn add_value(shown: &mut Vec<u32>, cell: &Cell, block: u16) -> Result<(), AllocError>
    ensures { OnOk result (IsValueAdded shown.old.items cell.now block shown.new.items) }
{
    if cell.block == block {
        shown.push(cell.value)?;
    }
    Ok(())
}

/// The values of a word on bits, the first of them as the highest bit.
fn value_on(word: u64, bits: &[u8]) -> u32
    requires few { length bits.now ≤ 32 }
    requires bits { All (λ c. c < 64) bits.now }
    ensures below { result < 2 ^ length bits.now }
    ensures spelled { symbol_of (length bits.now) result ≡ map (bit word) bits.now }
{
    let mut value = 0;
    for c in bits {
        value = 2 * value + ((word >> *c) & 1) as u32;
    }
    value
}
