//! Symbols at which rows of two states give answers that differ.
//!
//! Symbols are never enumerated. Two rows that meet have a least common symbol. States with the same cubes are compared
//! row by row, and others by the rows that share a symbol.
ghost use Rattle.std.specs.Prelude.{ℕ, ◌≡◌, ◌<◌, ◌≤◌, ◌^◌, ◌↔◌, All, IfSome, IsSome, IsTrue, length, false, true};
ghost use Rattle.cubes.specs.Cube.{HoldsNumber};
ghost use Rattle.kiss_file.specs.LawfulFile.{IsLawfulRow};
ghost use Rattle.state_pairs.specs.RowLabels.{
  AllSay,
  ApartBelow,
  HaveOneLabel,
  MeetsApart,
  AreApartAt,
  IsApartAt,
  SayApart,
  SayTwo,
};
ghost use Rattle.state_rows.specs.Least.{IsMetBy, lesser_of};
ghost use Rattle.state_rows.specs.Bundles.{IsBundle, IsFit};
ghost use Rattle.state_pairs.specs.MarkedRows.{IsSearchedIn};

use crate::RowsByState;
use crate::question::Question;
use crate::search::Search;
use cubes::Cube;
use kiss_file::KissRow;
use pattern_bundles::take_first;
use state_rows::RowBundle;

/// The lesser of two numbers, if any was found.
pub fn lesser(first: Option<u32>, second: Option<u32>) -> Option<u32>
    ensures { result ≡ lesser_of first second }
{
    match (first, second) {
        (None, found) => found,
        (Some(x), None) => Some(x),
        (Some(x), Some(y)) => Some(x.min(y)),
    }
}

/// Whether the search is over: a symbol was found and the least is not needed.
pub fn is_settled(found: Option<u32>, least: bool) -> bool
    ensures some { IsTrue result → IsSome found }
    ensures any { IsTrue result → least ≡ false }
{
    found.is_some() && !least
}

/// Whether the rows give different labels.
fn say_two<Q: Question>(question: &Q, row: &KissRow, other: &KissRow) -> bool
    requires row { IfSome row.now.to (λ t. t < Q.states question.now) }
    requires other { IfSome other.now.to (λ t. t < Q.states question.now) }
    ensures { IsTrue result ↔ SayApart (Q.said question.now) row.now other.now }
{
    match (question.said(row), question.said(other)) {
        (Some(v), Some(w)) => v != w,
        _ => false,
    }
}

/// The least symbol that both rows hold, if they give different labels.
fn first_between<Q: Question>(question: &Q, row: &KissRow, other: &KissRow) -> Option<u32>
    requires width { row.now.cube.width ≡ other.now.cube.width }
    requires row { IfSome row.now.to (λ t. t < Q.states question.now) }
    requires other { IfSome other.now.to (λ t. t < Q.states question.now) }
    ensures some { IfSome result (AreApartAt (Q.said question.now) row.now other.now) }
    ensures within { IfSome result (λ x. x < 2 ^ row.now.cube.width) }
    ensures least { (y : ℕ) → AreApartAt (Q.said question.now) row.now other.now y → IsMetBy result true y }
{
    if !say_two(question, row, other) {
        return None;
    }
    least_of_both(&row.cube, &other.cube)
}

/// The least symbol that both cubes hold.
pub fn least_of_both(cube: &Cube, other: &Cube) -> Option<u32>
    requires { cube.now.width ≡ other.now.width }
    ensures first { IfSome result (HoldsNumber cube.now) }
    ensures second { IfSome result (HoldsNumber other.now) }
    ensures within { IfSome result (λ x. x < 2 ^ cube.now.width) }
    ensures least { (y : ℕ) → HoldsNumber cube.now y → HoldsNumber other.now y → IsMetBy result true y }
{
    if cube.meets(other) {
        Some(cube.value | other.value)
    } else {
        None
    }
}

impl RowsByState {
    /// A symbol at which rows of both states give the part and the answer differs.
    pub fn first_said<Q: Question>(&self, search: &Search<'_, Q>) -> Option<u32>
        requires s { search.now.s < length self.now.states }
        requires t { search.now.t < length self.now.states }
        requires known { length self.now.states ≤ Q.states search.now.question.now }
        requires one { HaveOneLabel (Q.said search.now.question.now) self.now }
        ensures some { IfSome result (SayTwo (Q.said search.now.question.now) self.now search.now.s search.now.t) }
        ensures within { IfSome result (λ x. x < 2 ^ self.now.inputs) }
        ensures met { (y : ℕ) → SayTwo (Q.said search.now.question.now) self.now search.now.s search.now.t y
            → IsMetBy result search.now.least y }
    {
        if let Some(rows) = self.aligned_rows(search) {
            let found = self.first_by_rows(search, rows.first, rows.second);
            if is_settled(found, search.least) {
                return found;
            }
            if self.all_say(search.question, rows.second) {
                return found;
            }
        }
        self.first_by_fewer(search)
    }

    /// Whether each row with one of these numbers gives the part.
    pub fn all_say<Q: Question>(&self, question: &Q, numbers: &[usize]) -> bool
        requires inside { All (λ i. i < length self.now.rows) numbers.now }
        requires known { length self.now.states ≤ Q.states question.now }
        ensures { IsTrue result → AllSay (Q.said question.now) self.now.rows numbers.now }
    {
        for number in numbers {
            if question.said(self.row(*number)).is_none() {
                return false;
            }
        }
        true
    }

    /// A symbol at which the answer differs between the rows at one place of both lists.
    pub(crate) fn first_by_rows<Q: Question>(
        &self,
        search: &Search<'_, Q>,
        first: &[usize],
        second: &[usize],
    ) -> Option<u32>
        requires first { All (λ i. i < length self.now.rows) first.now }
        requires second { All (λ i. i < length self.now.rows) second.now }
        requires count { length first.now ≡ length second.now }
        requires known { length self.now.states ≤ Q.states search.now.question.now }
        ensures some { IfSome result
            (ApartBelow (Q.said search.now.question.now) self.now.rows first.now second.now (length first.now)) }
        ensures within { IfSome result (λ x. x < 2 ^ self.now.inputs) }
        ensures met { MeetsApart (Q.said search.now.question.now) self.now.rows first.now second.now
            (length first.now) result search.now.least }
    {
        let mut found = None;
        for i in 0..first.len() {
            let row = self.row(first[i]);
            let other = self.row(second[i]);
            found = lesser(found, first_between(search.question, row, other));
            if is_settled(found, search.least) {
                return found;
            }
        }
        found
    }

    /// A symbol at which the answer differs between any rows of the two states. It goes through the rows of the state
    /// that has fewer.
    fn first_by_fewer<Q: Question>(&self, search: &Search<'_, Q>) -> Option<u32>
        requires s { search.now.s < length self.now.states }
        requires t { search.now.t < length self.now.states }
        requires known { length self.now.states ≤ Q.states search.now.question.now }
        ensures some { IfSome result (SayTwo (Q.said search.now.question.now) self.now search.now.s search.now.t) }
        ensures within { IfSome result (λ x. x < 2 ^ self.now.inputs) }
        ensures met { (y : ℕ) → SayTwo (Q.said search.now.question.now) self.now search.now.s search.now.t y
            → IsMetBy result search.now.least y }
    {
        if self.numbers_of(search.s).len() <= self.numbers_of(search.t).len() {
            return self.first_by_pairs(search);
        }
        let turned = Search {
            question: search.question,
            s: search.t,
            t: search.s,
            least: search.least,
        };
        self.first_by_pairs(&turned)
    }

    /// A symbol at which the answer differs between any row of the first state and any row of the second.
    fn first_by_pairs<Q: Question>(&self, search: &Search<'_, Q>) -> Option<u32>
        requires s { search.now.s < length self.now.states }
        requires t { search.now.t < length self.now.states }
        requires known { length self.now.states ≤ Q.states search.now.question.now }
        ensures some { IfSome result (SayTwo (Q.said search.now.question.now) self.now search.now.s search.now.t) }
        ensures within { IfSome result (λ x. x < 2 ^ self.now.inputs) }
        ensures met { (y : ℕ) → SayTwo (Q.said search.now.question.now) self.now search.now.s search.now.t y
            → IsMetBy result search.now.least y }
    {
        let mut found = None;
        for number in self.numbers_of(search.s) {
            found = lesser(found, self.first_apart_from(search, self.row(*number)));
            if is_settled(found, search.least) {
                return found;
            }
        }
        found
    }

    /// A symbol of the row at which the answer differs between it and any row of the second state.
    fn first_apart_from<Q: Question>(&self, search: &Search<'_, Q>, row: &KissRow) -> Option<u32>
        requires t { search.now.t < length self.now.states }
        requires known { length self.now.states ≤ Q.states search.now.question.now }
        requires row { IsLawfulRow self.now.inputs self.now.outputs (length self.now.states) row.now }
        ensures some { IfSome result (IsApartAt (Q.said search.now.question.now) self.now search.now.t row.now) }
        ensures within { IfSome result (λ x. x < 2 ^ self.now.inputs) }
        ensures met { (y : ℕ) → IsApartAt (Q.said search.now.question.now) self.now search.now.t row.now y
            → IsMetBy result search.now.least y }
    {
        let mut found = None;
        for bundle in self.bundles_of(search.t) {
            found = lesser(found, self.first_apart_in(search, row, bundle));
            if is_settled(found, search.least) {
                return found;
            }
        }
        found
    }

    /// A symbol of the row at which the answer differs between it and a row of the bundle. Only the rows that share
    /// a symbol with the row are asked.
    fn first_apart_in<Q: Question>(
        &self,
        search: &Search<'_, Q>,
        row: &KissRow,
        bundle: &RowBundle,
    ) -> Option<u32>
        requires known { length self.now.states ≤ Q.states search.now.question.now }
        requires row { IsLawfulRow self.now.inputs self.now.outputs (length self.now.states) row.now }
        requires bundle { IsBundle self.now.rows bundle.now }
        requires fit { All (IsFit row.now.cube.width) self.now.rows }
        ensures { IsSearchedIn
            (Q.said search.now.question.now) self.now bundle.now.numbers row.now search.now.least result }
    {
        let numbers = bundle.numbers.as_slice();
        let mut marks = bundle.meeting(&row.cube);
        let mut found = None;
        while let Some(place) = take_first(&mut marks) {
            let other = self.row(numbers[place]);
            found = lesser(found, first_between(search.question, row, other));
            if is_settled(found, search.least) {
                return found;
            }
        }
        found
    }
}
