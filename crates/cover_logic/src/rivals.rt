//! Which rows can be left out, in long lists: bundles tell which rows and which terms of on share a value with a row.
ghost use Rattle.std.specs.Prelude.{◌≡◌, ◌≤◌, ◌↔◌, All, IfOk, IsTrue, length, replicate, true};
ghost use Rattle.cover_terms.specs.Term.{FitsWidth};
ghost use Rattle.cover_logic.specs.Inner.Entries.{IsRival};
ghost use Rattle.cover_logic.specs.Inner.Bundles.{AreRowsIn, IsSoleLeft, terms_in_bundles};
ghost use Rattle.cover_terms.specs.Lists.{Covers};
ghost use Rattle.cover_logic.specs.Inner.Rows.{AreNeededRows, IsSole};

use crate::bundles::{Bundles, Entry};
use cover_terms::Term;
use cover_terms::gap::find_shared_gap;
use std::alloc::{AllocError, Global};

/// Whether the entry is of another row than that of the number, and its row is left.
fn is_rival(row: usize, left: &[bool], entry: Entry) -> bool
    ensures { IsTrue result ↔ IsRival row left.now entry }
{
    entry.number != row && left.get(entry.number).copied().unwrap_or(false)
}

/// A value of on in the row that the others do not hold.
fn sole_value(
    alloc: Global,
    row: Term,
    on: &Bundles,
    others: &[Term],
) -> Result<Option<u128>, AllocError>
    requires { FitsWidth on.now.width row }
    ensures { IfOk result (IsSole row (terms_in_bundles on.now) others.now) }
{
    let near = on.met_by(alloc, row)?;
    for entry in &near {
        if let Some(gap) = find_shared_gap(alloc, row, entry.term, others)? {
            return Ok(Some(gap));
        }
    }
    Ok(None)
}

/// A value of on in the row of that number that no other row which is left holds.
fn sole_left(
    alloc: Global,
    number: usize,
    row: Term,
    rows: &Bundles,
    left: &[bool],
    on: &Bundles,
) -> Result<Option<u128>, AllocError>
    requires fits { FitsWidth rows.now.width row }
    requires on_fits { FitsWidth on.now.width row }
    ensures { IfOk result (IsSoleLeft number row rows.now on.now left.now) }
{
    let near = rows.met_by(alloc, row)?;
    let mut others = Vec::new(alloc);
    for entry in &near {
        if is_rival(number, left, *entry) {
            others.push(entry.term)?;
        }
    }
    sole_value(alloc, row, on, &others)
}

/// The rows that are left when each row goes whose values of on the others hold. At first all rows are left.
fn needed_rows(
    alloc: Global,
    rows: &[Term],
    all: &Bundles,
    on: &Bundles,
    left: &mut [bool],
) -> Result<Vec<Term>, AllocError>
    requires rows { AreRowsIn rows.now all.now on.now.width }
    requires left { left.old ≡ replicate (length rows.now) true }
    requires covers { Covers rows.now (terms_in_bundles on.now) }
    ensures { IfOk result (λ kept. AreNeededRows (terms_in_bundles on.now) rows.now kept.items) }
{
    let mut kept = Vec::new(alloc);
    for (i, row) in rows.iter().enumerate() {
        let sole = sole_left(alloc, i, *row, all, left, on)?;
        if sole.is_some() {
            kept.push(*row)?;
        } else {
            left[i] = false;
        }
    }
    Ok(kept)
}

/// The rows that are left when each row goes whose values of on the others hold, found by bundles of the rows and of on.
pub fn needed_by_bundles(
    alloc: Global,
    rows: &[Term],
    on: &[Term],
    width: u8,
) -> Result<Vec<Term>, AllocError>
    requires width { width ≤ 128 }
    requires fits { All (FitsWidth width) rows.now }
    requires on_fits { All (FitsWidth width) on.now }
    requires covers { Covers rows.now on.now }
    ensures { IfOk result (λ kept. AreNeededRows on.now rows.now kept.items) }
{
    let mut left = vec![in alloc; true; rows.len()]?;
    let held = Bundles::new(alloc, on, width)?;
    let all = Bundles::new(alloc, rows, width)?;
    needed_rows(alloc, rows, &all, &held, &mut left)
}
