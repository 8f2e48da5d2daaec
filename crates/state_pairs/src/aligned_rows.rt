//! The rows of two states, paired place by place.
ghost use Rattle.std.specs.Prelude.{ℕ, ◌≡◌, ◌<◌, All, IfSome, length};
ghost use Rattle.kiss_file.specs.Machine.{Conflicting};
ghost use Rattle.state_pairs.specs.AlignedRows.{AreAligned, HoldAllRows};
ghost use Rattle.state_rows.specs.Places.{places_of};
ghost use Rattle.state_pairs.specs.Table.{IsTable};

use crate::RowsByState;
use crate::question::Question;
use crate::search::Search;
use hs_list::Items;
use state_rows::list_of;

/// The numbers of rows of two states. At each place of the two lists the rows have the same cube.
#[derive(Clone, Copy)]
pub struct AlignedRows<'a> {
    /// Those of the first state.
    pub first: &'a [usize],
    /// Those of the second.
    pub second: &'a [usize],
}

/// The lists of two states.
fn lists_of_two(lists: &[Items<usize>], s: usize, t: usize) -> AlignedRows<'_>
    requires s { s < length lists.now }
    requires t { t < length lists.now }
    ensures first { result.first.now ≡ places_of lists.now s }
    ensures second { result.second.now ≡ places_of lists.now t }
{
    AlignedRows {
        first: list_of(lists, s),
        second: list_of(lists, t),
    }
}

impl RowsByState {
    /// The rows of two states to be compared place by place, if the states have the same cubes. When any
    /// symbol will do and only the next state matters, one place for each column of next states is enough.
    pub fn aligned_rows<Q: Question>(&self, search: &Search<'_, Q>) -> Option<AlignedRows<'_>>
        requires s { search.now.s < length self.now.states }
        requires t { search.now.t < length self.now.states }
        ensures aligned { IfSome result
            (λ rows. AreAligned self.now search.now.s search.now.t rows.first.now rows.second.now
            (Q.said search.now.question.now) search.now.least) }
        ensures first { IfSome result (λ rows. All (λ i. i < length self.now.rows) rows.first.now) }
        ensures second { IfSome result (λ rows. All (λ i. i < length self.now.rows) rows.second.now) }
        ensures count { IfSome result (λ rows. length rows.first.now ≡ length rows.second.now) }
        ensures table { IsTable self.now }
        ensures no_conflict { Conflicting self.now → ⊥ }
    {
        if self.leaders[search.s] != self.leaders[search.t] {
            return None;
        }
        if search.question.is_of_next() && !search.least {
            return Some(lists_of_two(&self.columns, search.s, search.t));
        }
        Some(lists_of_two(&self.places, search.s, search.t))
    }

    /// All rows of two states, paired place by place, if the states have the same cubes.
    pub(crate) fn rows_of_both(&self, s: usize, t: usize) -> Option<AlignedRows<'_>>
        requires s { s < length self.now.states }
        requires t { t < length self.now.states }
        ensures all { IfSome result (λ rows. HoldAllRows self.now s t rows.first.now rows.second.now) }
        ensures first { IfSome result (λ rows. All (λ i. i < length self.now.rows) rows.first.now) }
        ensures second { IfSome result (λ rows. All (λ i. i < length self.now.rows) rows.second.now) }
        ensures count { IfSome result (λ rows. length rows.first.now ≡ length rows.second.now) }
        ensures table { IsTable self.now }
        ensures no_conflict { Conflicting self.now → ⊥ }
    {
        if self.leaders[s] != self.leaders[t] {
            return None;
        }
        Some(lists_of_two(&self.places, s, t))
    }
}
