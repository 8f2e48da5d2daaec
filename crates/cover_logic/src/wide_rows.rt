//! Rows widened as far as off allows.
ghost use Rattle.std.specs.Prelude.{◌≤◌, ◌<◌, ◌↔◌, IfOk, IsTrue};
ghost use Rattle.cover_terms.specs.Term.{FitsWidth, LooksAt};
ghost use Rattle.cover_logic.specs.Inner.Index.{terms_of};
ghost use Rattle.cover_terms.specs.Pair.{Includes, IsLooser};
ghost use Rattle.cover_logic.specs.Inner.Rows.{IsClear, IsGrown, IsPrime, NeedsLiteral};

use crate::index::Index;
use crate::off::Off;
use cover_advice::{Limits, apart};
use cover_terms::Term;
use std::alloc::{AllocError, Global};

/// Whether no value of the row is held by a term.
pub fn is_clear(row: Term, terms: &[Term]) -> bool
    ensures { IsTrue result ↔ IsClear terms.now row }
{
    for term in terms {
        if row.touches(*term) {
            return false;
        }
    }
    true
}

/// Widens the seed so that it holds more of the other terms, each whole, and no value of off. The limits say what a row
/// has to keep so as to share no value with the terms of off that were met before: they are asked first, since rows
/// often share values with the same terms.
pub fn grow(
    seed: Term,
    others: &[Term],
    limits: &mut Limits,
    off: &Index,
) -> Result<Term, AllocError>
    requires { IsClear (terms_of off.now) seed }
    ensures { IfOk result (IsGrown seed (terms_of off.now)) }
{
    let mut row = seed;
    for other in others {
        if row.includes(*other) {
            continue;
        }
        let joined = row.joined(*other);
        if limits.allow(joined.care) {
            match off.met_by(joined) {
                Some(term) => limits.add(apart(seed, term), row.care)?,
                None => {
                    row = joined;
                    limits.narrow(joined.care);
                }
            }
        }
    }
    Ok(row)
}

/// The row widened to hold the other term whole, or the row itself where the wider row would hold a value of
/// off.
pub fn widened<O: Off>(row: Term, other: Term, off: &O) -> Term
    requires can { O.can_ask off.now row }
    requires clear { IsClear (O.terms off.now) row }
    ensures { IsGrown row (O.terms off.now) result }
{
    let joined = row.joined(other);
    if off.meets(joined) { row } else { joined }
}

/// The row with a dash at the column, or the row itself where the wider row would hold a value of off. The
/// term at the place `reason` is asked first.
fn dashed<O: Off>(row: Term, column: u32, reason: Option<usize>, off: &O) -> Term
    requires column { column < 128 }
    requires can { O.can_ask off.now row }
    requires clear { IsClear (O.terms off.now) row }
    ensures looser { IsLooser result row }
    ensures clear { IsClear (O.terms off.now) result }
    ensures needed { LooksAt result column → NeedsLiteral (O.terms off.now) result column }
    ensures care { result.care ≤ row.care }
{
    let wider = row.with_dash(column);
    if wider.care == row.care {
        return row;
    }
    if let Some(place) = reason {
        if off.meets_at(place, wider) {
            return row;
        }
    }
    if off.meets(wider) { row } else { wider }
}

/// The place of the term of that number for the column, if there is one.
fn place_for(column: u32, numbers: &[Option<usize>], places: &[usize]) -> Option<usize> {
    match numbers.get(column as usize).copied().flatten() {
        Some(number) => places.get(number).copied(),
        None => None,
    }
}

/// Replaces literals by dashes as long as no value of off is held. For each column `reasons` may have the number of a
/// term that is asked first, and `places` has the places in the list of the terms with those numbers.
pub fn raise<O: Off>(
    row: Term,
    off: &O,
    width: u8,
    reasons: &[Option<usize>],
    places: &[usize],
) -> Term
    requires width { width ≤ 128 }
    requires fits { FitsWidth width row }
    requires can { O.can_ask off.now row }
    requires clear { IsClear (O.terms off.now) row }
    ensures includes { Includes result row }
    ensures clear { IsClear (O.terms off.now) result }
    ensures prime { IsPrime (O.terms off.now) result }
    ensures fits { FitsWidth width result }
{
    let mut raised = row;
    for column in 0..u32::from(width) {
        let reason = place_for(column, reasons, places);
        raised = dashed(raised, column, reason, off);
    }
    raised
}
