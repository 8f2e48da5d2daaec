//! The terms of off, as a row is asked against them.
ghost use Rattle.std.specs.Prelude.{◌≤◌, IsTrue, List};
ghost use Rattle.std.proofs.Math.Nat.{lt_of_le_of_lt};
ghost use Rattle.cover_terms.specs.declared.term.Term.{Term};
ghost use Rattle.cover_terms.specs.Term.{FitsWidth};
ghost use Rattle.cover_logic.specs.Inner.Index.{terms_of};
ghost use Rattle.cover_logic.specs.Inner.Rows.{IsMetOrClear, MeetsSome};
ghost use Rattle.cover_logic.specs.Inner.Tables.{IsMarkTable};

use crate::index::Index;
use crate::table::Table;
use cover_terms::Term;

/// A list of terms that tells whether a row shares a value with one of them.
pub trait Off {
    ghost terms: { Self → List Term };

    /// That the row may be asked.
    ghost can_ask: { Self → Term → Type 0 };

    /// Whether the row shares a value with a term.
    fn meets(&self, row: Term) -> bool
        requires { can_ask self.now row }
        ensures { IsMetOrClear (terms self.now) row result };

    /// Whether the row shares a value with the term at the place, as far as that is known without a search.
    fn meets_at(&self, place: usize, row: Term) -> bool
        ensures { IsTrue result → MeetsSome (terms self.now) row };

    ghost can_ask_wider: { (off : Self) (row wider : Term) → wider.care ≤ row.care → can_ask off row
        → can_ask off wider };
}

impl Off for Index {
    ghost terms = { terms_of };

    ghost can_ask = { λ _ _. Unit {0} };

    fn meets(&self, row: Term) -> bool {
        self.met_by(row).is_some()
    }

    fn meets_at(&self, place: usize, row: Term) -> bool {
        self.is_met_at(place, row)
    }

    ghost can_ask_wider = { λ off row wider less can. can };
}

impl Off for Table {
    ghost terms = { λ table. table.terms.items };

    ghost can_ask = { λ table row. IsMarkTable table × FitsWidth table.width row };

    fn meets(&self, row: Term) -> bool {
        self.shares_value(row)
    }

    fn meets_at(&self, place: usize, row: Term) -> bool {
        false
    }

    ghost can_ask_wider = { λ off row wider less can. (can.0, lt_of_le_of_lt less can.1) };
}
