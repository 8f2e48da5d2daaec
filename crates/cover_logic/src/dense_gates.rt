//! The rows of dense gates, by tables of their values.
ghost use Rattle.std.specs.Prelude.{◌≡◌, ◌≤◌, All, IfOk, IsTrue};
ghost use Rattle.cover_terms.specs.Term.{FitsWidth};
ghost use Rattle.cover_logic.specs.Inner.Rows.{ArePrimeRows, IsClear, IsPrimeRow};
ghost use Rattle.cover_logic.specs.Inner.Tables.{IsMarkTable};

use crate::table::Table;
use crate::wide_rows::{raise, widened};
use cover_advice::Ground;
use cover_terms::Term;
use std::alloc::{AllocError, Global};

/// The least and the greatest width of a dense gate, and the least number of its terms.
const DENSE_WIDTH: u8 = 10;

const MOST_WIDTH: u8 = 16;

const DENSE_TERMS: usize = 512;

/// The number of values that the terms hold, where a value counts once for each term that holds it.
fn values_of(terms: &[Term], width: u8) -> usize {
    let mut values = 0usize;
    for term in terms {
        let dashes = u32::from(width).saturating_sub(term.care.count_ones());
        values = values.saturating_add(1usize << dashes.min(16));
    }
    values
}

/// Whether tables are worth making: the terms have to hold at least three quarters of all values, where a value
/// counts once for each term, and at most about eight times as many as there are.
pub fn is_dense(on: &[Term], off: &[Term], width: u8) -> bool
    ensures { IsTrue result → width ≤ 16 }
{
    if width < DENSE_WIDTH || width > MOST_WIDTH {
        return false;
    }
    let values = values_of(on, width).saturating_add(values_of(off, width));
    let all = 1usize << width;
    on.len().saturating_add(off.len()) >= DENSE_TERMS && values >= all / 4 * 3 && values / 8 <= all
}

/// A row that holds the seed and no value of off, and that needs each of its literals.
fn row_of(seed: Term, ground: &Ground, off: &Table, width: u8) -> Term
    requires table { IsMarkTable off.now }
    requires width { off.now.width ≡ width }
    requires few { width ≤ 16 }
    requires fits { FitsWidth width seed }
    requires clear { IsClear off.now.terms.items seed }
    ensures { IsPrimeRow seed off.now.terms.items width result }
{
    let wide = widened(seed, ground.grown(seed), off);
    raise(wide, off, width, &[], &[])
}

/// Rows for `dense_rows`, with the cells of the gate and the table of off.
fn rows_of(
    alloc: Global,
    on: &[Term],
    ground: &mut Ground,
    zeros: &Table,
    width: u8,
) -> Result<Vec<Term>, AllocError>
    requires table { IsMarkTable zeros.now }
    requires columns { zeros.now.width ≡ width }
    requires few { width ≤ 16 }
    requires fits { All (FitsWidth width) on.now }
    requires clear { All (IsClear zeros.now.terms.items) on.now }
    ensures { IfOk result (λ rows. ArePrimeRows on.now zeros.now.terms.items width rows.items) }
{
    let mut rows = Table::new(alloc, width)?;
    let mut left = on.len();
    while left > 0 {
        left -= 1;
        let seed = on[left];
        if !rows.holds(seed) {
            let row = row_of(seed, ground, zeros, width);
            ground.take(row);
            rows.add(row)?;
        }
    }
    Ok(rows.terms)
}

/// Rows that hold every value of on and none of off, and that need each of their literals.
pub fn dense_rows(
    alloc: Global,
    on: &[Term],
    off: &[Term],
    width: u8,
) -> Result<Vec<Term>, AllocError>
    requires few { width ≤ 16 }
    requires fits { All (FitsWidth width) on.now }
    requires off_fits { All (FitsWidth width) off.now }
    requires clear { All (IsClear off.now) on.now }
    ensures { IfOk result (λ rows. ArePrimeRows on.now off.now width rows.items) }
{
    let zeros = Table::of(alloc, off, width)?;
    let mut ground = Ground::new(alloc, on, off, width)?;
    rows_of(alloc, on, &mut ground, &zeros, width)
}
