//! Which rows can be left out of a cover.
ghost use Rattle.std.specs.Prelude.{◌≤◌, ◌++◌, All, IfOk, filter};
ghost use Rattle.cover_terms.specs.Term.{FitsWidth};
ghost use Rattle.cover_terms.specs.Pair.{agree};
ghost use Rattle.cover_terms.specs.Lists.{Covers};
ghost use Rattle.cover_logic.specs.Inner.Rows.{AreNeededRows, IsSole};

use crate::rivals::needed_by_bundles;
use cover_terms::Term;
use cover_terms::gap::{add_overlapping, find_shared_gap};
use std::alloc::{AllocError, Global};

/// A value of on in the row that the terms of both lists do not hold.
fn sole_beside(
    alloc: Global,
    row: Term,
    on: &[Term],
    kept: &[Term],
    rest: &[Term],
) -> Result<Option<u128>, AllocError>
    ensures { IfOk result (IsSole row on.now (filter (agree row) (kept.now ++ rest.now))) }
{
    let mut others = Vec::new(alloc);
    add_overlapping(&mut others, row, kept)?;
    add_overlapping(&mut others, row, rest)?;
    for term in on {
        if let Some(gap) = find_shared_gap(alloc, row, *term, &others)? {
            return Ok(Some(gap));
        }
    }
    Ok(None)
}

/// The rows that are left when each row goes whose values of on the others hold, by passes over the lists.
fn needed_by_passes(alloc: Global, rows: &[Term], on: &[Term]) -> Result<Vec<Term>, AllocError>
    requires { Covers rows.now on.now }
    ensures { IfOk result (λ kept. AreNeededRows on.now rows.now kept.items) }
{
    let mut kept = Vec::new(alloc);
    for (i, row) in rows.iter().enumerate() {
        let sole = sole_beside(alloc, *row, on, &kept, &rows[i + 1..])?;
        if sole.is_some() {
            kept.push(*row)?;
        }
    }
    Ok(kept)
}

/// The least numbers of terms of on and of rows for which bundles pay.
const BUNDLED_TERMS: usize = 1024;

const BUNDLED_ROWS: usize = 128;

/// The rows that are left when each row goes whose values of on the others hold.
pub fn needed_rows(
    alloc: Global,
    rows: &[Term],
    on: &[Term],
    width: u8,
) -> Result<Vec<Term>, AllocError>
    requires width { width ≤ 128 }
    requires fits { All (FitsWidth width) rows.now }
    requires on_fits { All (FitsWidth width) on.now }
    requires covers { Covers rows.now on.now }
    ensures { IfOk result (λ kept. AreNeededRows on.now rows.now kept.items) }
{
    if on.len() < BUNDLED_TERMS || rows.len() < BUNDLED_ROWS {
        return needed_by_passes(alloc, rows, on);
    }
    needed_by_bundles(alloc, rows, on, width)
}
