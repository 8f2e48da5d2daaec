//! The values of a term that a list of terms does not hold.
ghost use Rattle.std.specs.Prelude.{◌≡◌, ◌++◌, All, Contains, IfOk, OnOk, filter, true};
ghost use Rattle.cover_terms.specs.Pair.{agree};
ghost use Rattle.cover_terms.specs.Lists.{IsSharedGap, IsUncovered};

use crate::term::Term;
use std::alloc::{AllocError, Global};

/// Adds the terms that share a value with the part.
pub fn add_overlapping(near: &mut Vec<Term>, part: Term, terms: &[Term]) -> Result<(), AllocError>
    ensures { OnOk result (near.new.items ≡ near.old.items ++ filter (agree part) terms.now) }
{
    for term in terms {
        if part.touches(*term) {
            near.push(*term)?;
        }
    }
    Ok(())
}

/// The first of the terms that have the fewest literals outside the part.
fn nearest(part: Term, first: Term, near: &[Term]) -> Term
    requires { Contains near.now first }
    ensures { Contains near.now result }
{
    let mut nearest = first;
    let mut fewest = (first.care & !part.care).count_ones();
    for term in near {
        let literals = (term.care & !part.care).count_ones();
        if literals < fewest {
            nearest = *term;
            fewest = literals;
        }
    }
    nearest
}

/// A value of the part that no term holds.
#[cycle(find_gap)]
fn find_gap(alloc: Global, part: Term, terms: &[Term]) -> Result<Option<u128>, AllocError>
    ensures { IfOk result (IsUncovered part terms.now) }
{
    let mut near = Vec::new(alloc);
    add_overlapping(&mut near, part, terms)?;
    find_near_gap(alloc, part, &near)
}

/// A value of the part that no term holds, where each of the terms shares a value with the part.
#[cycle(find_gap)]
fn find_near_gap(alloc: Global, part: Term, near: &[Term]) -> Result<Option<u128>, AllocError>
    requires { All (λ t. agree part t ≡ true) near.now }
    ensures { IfOk result (IsUncovered part near.now) }
{
    let Some(first) = near.first() else {
        return Ok(Some(part.value));
    };
    let term = nearest(part, *first, near);
    let open = term.care & !part.care;
    if open == 0 {
        return Ok(None);
    }
    let column = open.trailing_zeros();
    if let Some(gap) = find_gap(alloc, part.with_literal(column, false), near)? {
        return Ok(Some(gap));
    }
    find_gap(alloc, part.with_literal(column, true), near)
}

/// A value that the row shares with the term and that none of the others holds.
pub fn find_shared_gap(
    alloc: Global,
    row: Term,
    term: Term,
    others: &[Term],
) -> Result<Option<u128>, AllocError>
    ensures { IfOk result (IsSharedGap row term others.now) }
{
    match row.meet(term) {
        Some(part) => find_gap(alloc, part, others),
        None => Ok(None),
    }
}
