//! The columns of literals.

use cover_terms::Term;

/// The columns at which the terms have different literals.
/// Advice: asked before it is followed.
pub fn apart(term: Term, other: Term) -> u128 {
    (term.value ^ other.value) & term.care & other.care
}

/// The term with dashes at these columns.
pub(crate) fn without(term: Term, columns: u128) -> Term {
    Term::masked(term.care & !columns, term.value)
}
