//! Irredundant covers of gates.
//!
//! A gate of up to 128 columns is given by two lists of terms: `on` holds the values at which it is 1, and `off`
//! those at which it is 0. Any other value is free. `cover` answers rows that are a good cover (`IsTermCover`, in
//! specs/TermCover.antt): they hold every value of on and none of off, no literal can become a dash without a value of
//! off being held, and no row can be left out without a value of on being lost. That definition speaks of values,
//! by their bits (`specs/Term` of `cover_terms`), and never of the terms that give them. Which of the good covers is answered is
//! left to the crate, and no clause says that it is a least one. (specs/Inner has the definitions of the crate's own
//! functions.)
//!
//! The argument is the same for every gate. A term of on is widened, and then each of its literals in turn becomes a
//! dash, as long as the row holds no value of off. A literal that is kept has a value of off as its reason, and the
//! reason remains when later literals go, since the row only grows. Rows are made until each term of on is held.
//! Then each row is compared with the others, and is left out where they hold all its values of on. A row that is
//! kept has a value of its own, which stays its own when other rows go.
//!
//! How the crate finds out what a row holds depends on the gate.
//!
//! A dense gate has 10 to 16 columns, and its terms hold most of all values (`dense_gates`). It is asked by its values.
//! One table has a mark for each value of off, and another for each value that a row holds already (`table`). A row can
//! be left out unless it is the last row that holds some value of on, and no row kept before holds that value
//! (`lasts`).
//!
//! Any other gate is asked by its terms, so the number of values does not matter. An index of off tells whether a row
//! shares a value with off (`index`). Rows are made until each term of on lies whole within one (`primes`);
//! in large gates one step asks this of 128 terms at once, by their columns (`waiting_terms`, `bundles`). In long lists
//! the same is done to find the rows and the terms of on that share a value with a row (`rivals`). Whether other rows
//! hold the values that a row shares with a term of on is asked of one part of them at a time (`gap` of
//! `cover_terms`). Of the rows that
//! touch the part, the one with the fewest literals outside it either holds the part whole, or has such a literal,
//! and the part is split there in two.
//!
//! Either way rows are widened by the same calls (`wide_rows`), which ask a trait (`off`): the table and the index are
//! its two implementations. The crate `cover_advice` says how far a row may be widened, and the table or the index is
//! asked before its advice is followed. Terms, charts and what is asked of plain lists of terms are in `cover_terms`.
#![tactic(auto)]

ghost use Rattle.std.specs.Prelude.{◌≤◌, ◌↔◌, All, IfOk, IsTrue};
ghost use Rattle.cover_terms.specs.Term.{FitsWidth};
ghost use Rattle.cover_logic.specs.TermCover.{CanCover, IsTermCover};
ghost use Rattle.cover_logic.specs.Inner.Rows.{AreNeededPrimes, IsClear};

mod bundles;
mod column_counts;
mod dense_gates;
mod index;
mod lasts;
mod off;
mod primes;
mod rivals;
mod spare_rows;
mod table;
mod waiting_terms;
mod wide_rows;

pub use cover_terms::Term;
use cover_terms::distinct_terms::distinct;
use dense_gates::{dense_rows, is_dense};
use lasts::needed_by_lasts;
use primes::primes;
use spare_rows::needed_rows;
use std::alloc::{AllocError, Global};
use wide_rows::is_clear;

/// Whether `cover` may be called: at most 128 columns, no literal at or above the width, and no value
/// in both lists.
pub fn can_cover(on: &[Term], off: &[Term], width: u8) -> bool
    ensures { IsTrue result ↔ CanCover width on.now off.now }
{
    width <= 128 && all_fit(on, width) && all_fit(off, width) && are_apart(on, off)
}

/// Whether no term has a literal at or above the width.
fn all_fit(terms: &[Term], width: u8) -> bool
    requires { width ≤ 128 }
    ensures { IsTrue result ↔ All (FitsWidth width) terms.now }
{
    for term in terms {
        if !term.fits(width) {
            return false;
        }
    }
    true
}

/// Whether no value is held by both lists.
fn are_apart(on: &[Term], off: &[Term]) -> bool
    ensures { IsTrue result ↔ All (IsClear off.now) on.now }
{
    for term in on {
        if !is_clear(*term, off) {
            return false;
        }
    }
    true
}

/// The cover of the gate in the way that suits it: of a dense gate by its values, and of any other by its terms.
fn chosen_cover(
    alloc: Global,
    on: &[Term],
    off: &[Term],
    width: u8,
) -> Result<Vec<Term>, AllocError>
    requires width { width ≤ 128 }
    requires fits { All (FitsWidth width) on.now }
    requires off_fits { All (FitsWidth width) off.now }
    requires clear { All (IsClear off.now) on.now }
    ensures { IfOk result (λ rows. AreNeededPrimes on.now off.now width rows.items) }
{
    if is_dense(on, off, width) {
        let rows = dense_rows(alloc, on, off, width)?;
        return needed_by_lasts(alloc, &rows, on, width);
    }
    let primes = primes(alloc, on, off, width)?;
    needed_rows(alloc, &primes, on, width)
}

/// Rows that hold every value of on and no value of off, and of which no literal and no row can be left out. Values
/// in neither list are free. A list may be empty, and its terms may overlap or repeat. A gate of width 0 has
/// one row without literals where on is not empty, and no row otherwise.
pub fn cover(alloc: Global, on: &[Term], off: &[Term], width: u8) -> Result<Vec<Term>, AllocError>
    requires { CanCover width on.now off.now }
    ensures good { IfOk result (λ rows. IsTermCover width rows.items on.now off.now) }
    ensures fits { IfOk result (λ rows. All (FitsWidth width) rows.items) }
{
    let ones = distinct(alloc, on)?;
    let zeros = distinct(alloc, off)?;
    chosen_cover(alloc, &ones, &zeros, width)
}
