//! How far a row can be widened in a gate of at most 16 columns, by a cell for each value.

ghost use Rattle.std.specs.Prelude.{◌≤◌};

use cover_terms::Term;
use std::alloc::{AllocError, Global};

/// What a value is.
#[derive(Clone, Copy, PartialEq, Eq)]
pub enum Cell {
    /// Of neither list, or of on and in a row already.
    Free,
    /// Of off.
    Off,
    /// Of on, and in no row yet.
    Open,
}

/// The values that have the bits of `value` at the columns of `care`.
#[derive(Clone, Copy)]
struct Block {
    care: usize,
    value: usize,
}

impl Block {
    /// The values with the literals of the term at the columns below 16.
    fn of(term: Term) -> Block {
        Block {
            care: (term.care & 0xffff) as usize,
            value: (term.value & 0xffff) as usize,
        }
    }

    /// The block on the other side of a column.
    fn across(self, bit: usize) -> Block {
        Block {
            care: self.care,
            value: self.value ^ bit,
        }
    }

    /// The block with a dash at a column.
    fn without(self, bit: usize) -> Block {
        Block {
            care: self.care & !bit,
            value: self.value & !bit,
        }
    }
}

/// A cell for each value of the columns, value x at place x. Column c is bit c.
#[derive(Drop)]
pub struct Ground {
    pub cells: Vec<Cell>,
}

impl Ground {
    /// The cells of a gate. The values of `on` are in no row yet.
    /// Advice: asked before it is followed.
    pub fn new(alloc: Global, on: &[Term], off: &[Term], width: u8) -> Result<Ground, AllocError>
        requires { width ≤ 16 }
    {
        let mut ground = Ground {
            cells: vec![in alloc; Cell::Free; 1usize << width]?,
        };
        ground.put_each(on, Cell::Open);
        ground.put_each(off, Cell::Off);
        Ok(ground)
    }

    /// Makes the values of the row free.
    /// Advice: asked before it is followed.
    pub fn take(&mut self, row: Term) {
        self.put(row, Cell::Free);
    }

    /// The row with dashes, put one by one at the column that brings the most values of on that are in no row yet. There
    /// are dashes at all columns from 16 on.
    /// Advice: asked before it is followed.
    pub fn grown(&self, row: Term) -> Term {
        let mut block = Block::of(row);
        for _ in 0..16 {
            let Some(bit) = self.best(block) else {
                break;
            };
            block = block.without(bit);
        }
        Term::masked(block.care as u128, block.value as u128)
    }

    /// The column whose dash brings the most, among those whose dash brings no value of off.
    fn best(&self, block: Block) -> Option<usize> {
        let mut best = None;
        let mut most = 0;
        for column in 0..16u32 {
            let bit = 1usize << column;
            if block.care & bit != 0 {
                let gain = self.gain(block.across(bit));
                if gain > most {
                    most = gain;
                    best = Some(bit);
                }
            }
        }
        best
    }

    /// One more than the number of values of the block that are of on and in no row yet; 0 where one is of off or has no
    /// cell.
    fn gain(&self, block: Block) -> usize {
        let dashes = self.cells.len().saturating_sub(1) & !block.care;
        let mut part = 0;
        let mut gain = 1usize;
        for _ in 0..1usize << 16 {
            match self.cells.get(block.value | part).copied() {
                Some(Cell::Open) => gain = gain.wrapping_add(1),
                Some(Cell::Free) => {}
                _ => return 0,
            }
            part = part.wrapping_sub(dashes) & dashes;
            if part == 0 {
                break;
            }
        }
        gain
    }

    /// Gives each value of the rows this cell.
    fn put_each(&mut self, rows: &[Term], cell: Cell) {
        for row in rows {
            self.put(*row, cell);
        }
    }

    /// Gives each value of the row this cell.
    fn put(&mut self, row: Term, cell: Cell) {
        let block = Block::of(row);
        let dashes = self.cells.len().saturating_sub(1) & !block.care;
        let mut part = 0;
        for _ in 0..1usize << 16 {
            self.put_at(block.value | part, cell);
            part = part.wrapping_sub(dashes) & dashes;
            if part == 0 {
                break;
            }
        }
    }

    /// Gives the value this cell, if it has one.
    fn put_at(&mut self, value: usize, cell: Cell) {
        if let Some(old) = self.cells.get_mut(value) {
            *old = cell;
        }
    }
}
