//! Which rows of a dense gate can be left out, by a chart of the last row that holds each value of on.
ghost use Rattle.std.specs.Prelude.{◌≤◌, All, IfOk};
ghost use Rattle.cover_terms.specs.Term.{FitsWidth};
ghost use Rattle.cover_logic.specs.Inner.Lasts.{AreLastsOn};
ghost use Rattle.cover_terms.specs.Lists.{Covers};
ghost use Rattle.cover_logic.specs.Inner.Rows.{AreNeededRows};

use crate::table::Table;
use cover_terms::Term;
use cover_terms::chart::{blank, clear, fill, find};
use std::alloc::{AllocError, Global};

/// For each value of on one more than the number of the last row that holds it, or 0 where no row does, and 0 for any
/// other value.
fn lasts_on(alloc: Global, rows: &[Term], on: &[Term], width: u8) -> Result<Vec<usize>, AllocError>
    requires few { width ≤ 16 }
    requires fits { All (FitsWidth width) rows.now }
    requires on_fits { All (FitsWidth width) on.now }
    ensures { IfOk result (λ chart. AreLastsOn width rows.now on.now chart.items) }
{
    let ones = Table::of(alloc, on, width)?;
    let mut chart = blank(alloc, width)?;
    for (i, row) in rows.iter().enumerate() {
        fill(&mut chart, *row, width, i + 1);
    }
    clear(&mut chart, &ones.marks);
    Ok(chart)
}

/// The rows that are left when each row goes whose values of on the others hold. A value of on that is held
/// by a row already kept gets the number 0, so a row is needed where a value has the number of that row.
pub fn needed_by_lasts(
    alloc: Global,
    rows: &[Term],
    on: &[Term],
    width: u8,
) -> Result<Vec<Term>, AllocError>
    requires few { width ≤ 16 }
    requires fits { All (FitsWidth width) rows.now }
    requires on_fits { All (FitsWidth width) on.now }
    requires covers { Covers rows.now on.now }
    ensures { IfOk result (λ kept. AreNeededRows on.now rows.now kept.items) }
{
    let mut chart = lasts_on(alloc, rows, on, width)?;
    let mut kept = Vec::new(alloc);
    for (i, row) in rows.iter().enumerate() {
        let sole = find(&chart, *row, width, i + 1);
        if sole.is_some() {
            fill(&mut chart, *row, width, 0);
            kept.push(*row)?;
        }
    }
    Ok(kept)
}
