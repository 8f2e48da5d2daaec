//! Rows that hold every value of on and none of off, and that need each of their literals.
ghost use Rattle.std.specs.Prelude.{◌≡◌, ◌≤◌, [], All, IfOk, OnOk, filter, not, vec_len};
ghost use Rattle.cover_terms.specs.Term.{FitsWidth};
ghost use Rattle.cover_logic.specs.Inner.Index.{terms_of};
ghost use Rattle.cover_terms.specs.Pair.{refines};
ghost use Rattle.cover_logic.specs.Inner.Rows.{ArePrimeRows, IsClear, IsGrown, IsPrimeRow};

use crate::index::Index;
use crate::waiting_terms::Waiting;
use crate::wide_rows::{grow, raise, widened};
use cover_advice::{Limits, Prospects, Slices};
use cover_terms::Term;
use std::alloc::{AllocError, Global};

/// Drops each term whose values the row all holds.
fn drop_included(terms: &mut Vec<Term>, row: Term)
    ensures kept { terms.new.items ≡ filter (λ t. not (refines row t)) terms.old.items }
    ensures len { vec_len terms.new ≤ vec_len terms.old }
{
    terms.retain(|term| !row.includes(*term));
}

/// Advice on which steps are worth a question to the index, for long lists.
#[derive(Drop)]
struct Guide {
    on: Slices,
    off: Slices,
    /// The places in the index of the terms of off.
    places: Vec<usize>,
}

/// The least width and the least number of terms of a list for which a guide pays.
const GUIDED_WIDTH: u8 = 13;

const GUIDED_TERMS: usize = 256;

impl Guide {
    fn new(alloc: Global, on: &[Term], off: &Index, width: u8) -> Result<Guide, AllocError>
        requires { width ≤ 128 }
    {
        let places = off.places(alloc)?;
        let off = Slices::new(alloc, &off.terms(alloc)?, width)?;
        let on = Slices::new(alloc, on, width)?;
        Ok(Guide { on, off, places })
    }
}

/// A row that holds the seed and no value of off, and that needs each of its literals.
fn plain_row(
    alloc: Global,
    seed: Term,
    left: &[Term],
    off: &Index,
    width: u8,
) -> Result<Term, AllocError>
    requires width { width ≤ 128 }
    requires fits { FitsWidth width seed }
    requires clear { IsClear (terms_of off.now) seed }
    ensures { IfOk result (IsPrimeRow seed (terms_of off.now) width) }
{
    let mut limits = Limits::new(alloc, 0);
    let grown = grow(seed, left, &mut limits, off)?;
    Ok(raise(grown, off, width, &[], &[]))
}

/// The seed grown by the terms of on that the guide finds.
fn guided_growth(alloc: Global, seed: Term, guide: &Guide, off: &Index) -> Result<Term, AllocError>
    requires { IsClear (terms_of off.now) seed }
    ensures { IfOk result (IsGrown seed (terms_of off.now)) }
{
    let mut prospects = Prospects::new(alloc, seed, &guide.on, &guide.off)?;
    grow(seed, &prospects.others, &mut prospects.limits, off)
}

/// The same as `plain_row`, with the guide: the grown row is widened further by its advice.
fn guided_row(
    alloc: Global,
    seed: Term,
    guide: &mut Guide,
    off: &Index,
    width: u8,
) -> Result<Term, AllocError>
    requires width { width ≤ 128 }
    requires fits { FitsWidth width seed }
    requires clear { IsClear (terms_of off.now) seed }
    ensures { IfOk result (IsPrimeRow seed (terms_of off.now) width) }
{
    let grown = guided_growth(alloc, seed, guide, off)?;
    let advice = guide.off.advice(alloc, grown)?;
    let wide = widened(grown, advice.wide, off);
    let row = raise(wide, off, width, &advice.reasons, &guide.places);
    guide.on.drop_included(alloc, row)?;
    Ok(row)
}

/// Adds rows for `primes`, by passes over the list of the terms that lie in no row yet.
fn add_plain_rows(
    alloc: Global,
    on: &[Term],
    off: &Index,
    width: u8,
    rows: &mut Vec<Term>,
) -> Result<(), AllocError>
    requires none { rows.old.items ≡ [] }
    requires width { width ≤ 128 }
    requires fits { All (FitsWidth width) on.now }
    requires clear { All (IsClear (terms_of off.now)) on.now }
    ensures { OnOk result (ArePrimeRows on.now (terms_of off.now) width rows.new.items) }
{
    let mut left = Vec::from_slice(alloc, on)?;
    while let Some(seed) = left.pop() {
        let row = plain_row(alloc, seed, &left, off, width)?;
        drop_included(&mut left, row);
        rows.push(row)?;
    }
    Ok(())
}

/// The same, with the guide and with bundles of those terms.
fn add_guided_rows(
    alloc: Global,
    on: &[Term],
    guide: &mut Guide,
    off: &Index,
    width: u8,
    rows: &mut Vec<Term>,
) -> Result<(), AllocError>
    requires none { rows.old.items ≡ [] }
    requires width { width ≤ 128 }
    requires fits { All (FitsWidth width) on.now }
    requires clear { All (IsClear (terms_of off.now)) on.now }
    ensures { OnOk result (ArePrimeRows on.now (terms_of off.now) width rows.new.items) }
{
    let mut waiting = Waiting::new(alloc, on, width)?;
    while let Some(seed) = waiting.pop() {
        let row = guided_row(alloc, seed, guide, off, width)?;
        waiting.drop_included(alloc, row, width)?;
        rows.push(row)?;
    }
    Ok(())
}

/// The same, with a guide where the lists are long.
fn add_rows(
    alloc: Global,
    on: &[Term],
    off: &Index,
    are_long: bool,
    width: u8,
    rows: &mut Vec<Term>,
) -> Result<(), AllocError>
    requires none { rows.old.items ≡ [] }
    requires width { width ≤ 128 }
    requires fits { All (FitsWidth width) on.now }
    requires clear { All (IsClear (terms_of off.now)) on.now }
    ensures { OnOk result (ArePrimeRows on.now (terms_of off.now) width rows.new.items) }
{
    if !are_long {
        return add_plain_rows(alloc, on, off, width, rows);
    }
    let mut guide = Guide::new(alloc, on, off, width)?;
    add_guided_rows(alloc, on, &mut guide, off, width, rows)
}

/// Whether the lists are long enough for a guide.
fn are_long(on: &[Term], off: &[Term], width: u8) -> bool {
    width >= GUIDED_WIDTH && on.len() >= GUIDED_TERMS && off.len() >= GUIDED_TERMS
}

/// Rows that hold every value of on and none of off, and that need each of their literals.
pub fn primes(alloc: Global, on: &[Term], off: &[Term], width: u8) -> Result<Vec<Term>, AllocError>
    requires width { width ≤ 128 }
    requires fits { All (FitsWidth width) on.now }
    requires off_fits { All (FitsWidth width) off.now }
    requires clear { All (IsClear off.now) on.now }
    ensures { IfOk result (λ rows. ArePrimeRows on.now off.now width rows.items) }
{
    let index = Index::new(alloc, off, width)?;
    let mut rows = Vec::new(alloc);
    let are_long = are_long(on, off, width);
    add_rows(alloc, on, &index, are_long, width, &mut rows)?;
    Ok(rows)
}
