//! Symbols at which rows of two states leave a part open.
//!
//! Symbols are never enumerated. Those of a cube at which rows leave the part open are found by halving the cube at an
//! input that some row depends on.
ghost use Rattle.std.specs.Prelude.{ℕ, ◌≡◌, ◌<◌, ◌≤◌, ◌^◌, ◌↔◌, IfNone, IfSome, IsSome, IsTrue, length};
ghost use Rattle.cubes.specs.Cube.{HoldsNumber, Meets};
ghost use Rattle.kiss_file.specs.LawfulFile.{IsLawfulRow};
ghost use Rattle.state_pairs.specs.RowLabels.{IsAloneAt, AreOpenAt, DifferBothOpen, DifferOpen, IsOpenAt, SaysAlone};
ghost use Rattle.state_rows.specs.Least.{IsMetBy};

use crate::RowsByState;
use crate::question::Question;
use crate::row_pairs::{is_settled, lesser};
use crate::search::Search;
use cubes::Cube;
use kiss_file::KissRow;

/// Whether the row gives the part and shares a symbol with the cube.
fn says_in<Q: Question>(question: &Q, row: &KissRow, cube: &Cube) -> bool
    requires width { cube.now.width ≡ row.now.cube.width }
    requires row { IfSome row.now.to (λ t. t < Q.states question.now) }
    ensures { IsTrue result ↔ (IsSome (Q.said question.now row.now) × Meets cube.now row.now.cube) }
{
    cube.meets(&row.cube) && question.said(row).is_some()
}

impl RowsByState {
    /// A symbol at which one of the states leaves the part open and the answer differs.
    pub fn first_open_differing<Q: Question>(&self, search: &Search<'_, Q>) -> Option<u32>
        requires s { search.now.s < length self.now.states }
        requires t { search.now.t < length self.now.states }
        requires known { length self.now.states ≤ Q.states search.now.question.now }
        ensures some { IfSome result
            (DifferOpen (Q.said search.now.question.now)
            (Q.unsaid search.now.question.now) self.now search.now.s search.now.t) }
        ensures within { IfSome result (λ x. x < 2 ^ self.now.inputs) }
        ensures met { (y : ℕ)
            → DifferOpen (Q.said search.now.question.now)
            (Q.unsaid search.now.question.now) self.now search.now.s search.now.t y
            → IsMetBy result search.now.least y }
    {
        let first = self.first_alone(search);
        if is_settled(first, search.least) {
            return first;
        }
        let turned = Search {
            question: search.question,
            s: search.t,
            t: search.s,
            least: search.least,
        };
        let either = lesser(first, self.first_alone(&turned));
        if is_settled(either, search.least) {
            return either;
        }
        lesser(either, self.first_both_open(search))
    }

    /// A symbol at which both states leave the part open and the answer differs.
    fn first_both_open<Q: Question>(&self, search: &Search<'_, Q>) -> Option<u32>
        requires s { search.now.s < length self.now.states }
        requires t { search.now.t < length self.now.states }
        requires known { length self.now.states ≤ Q.states search.now.question.now }
        ensures some { IfSome result
            (DifferBothOpen (Q.said search.now.question.now)
            (Q.unsaid search.now.question.now) self.now search.now.s search.now.t) }
        ensures within { IfSome result (λ x. x < 2 ^ self.now.inputs) }
        ensures met { (y : ℕ)
            → DifferBothOpen (Q.said search.now.question.now)
            (Q.unsaid search.now.question.now) self.now search.now.s search.now.t y
            → IsMetBy result search.now.least y }
    {
        if search.question.unsaid(search.s) == search.question.unsaid(search.t) {
            return None;
        }
        self.first_open_in(search, Cube::whole(self.inputs()))
    }

    /// A symbol at which the second state leaves the part open, and a row of the first state gives a label other
    /// than the one that then applies to the second.
    fn first_alone<Q: Question>(&self, search: &Search<'_, Q>) -> Option<u32>
        requires s { search.now.s < length self.now.states }
        requires t { search.now.t < length self.now.states }
        requires known { length self.now.states ≤ Q.states search.now.question.now }
        ensures some { IfSome result
            (SaysAlone (Q.said search.now.question.now) self.now search.now.s search.now.t
            (Q.unsaid search.now.question.now search.now.t)) }
        ensures within { IfSome result (λ x. x < 2 ^ self.now.inputs) }
        ensures met { (y : ℕ)
            → SaysAlone (Q.said search.now.question.now) self.now search.now.s search.now.t
            (Q.unsaid search.now.question.now search.now.t) y → IsMetBy result search.now.least y }
    {
        let mut found = None;
        for number in self.numbers_of(search.s) {
            found = lesser(found, self.first_alone_in(search, self.row(*number)));
            if is_settled(found, search.least) {
                return found;
            }
        }
        found
    }

    /// A symbol of the row at which the second state leaves the part open, where the row gives a label other than the
    /// one that then applies to that state.
    fn first_alone_in<Q: Question>(&self, search: &Search<'_, Q>, row: &KissRow) -> Option<u32>
        requires t { search.now.t < length self.now.states }
        requires known { length self.now.states ≤ Q.states search.now.question.now }
        requires row { IsLawfulRow self.now.inputs self.now.outputs (length self.now.states) row.now }
        ensures some { IfSome result
            (IsAloneAt (Q.said search.now.question.now) self.now search.now.t
            (Q.unsaid search.now.question.now search.now.t) row.now) }
        ensures within { IfSome result (λ x. x < 2 ^ self.now.inputs) }
        ensures met { (y : ℕ)
            → IsAloneAt (Q.said search.now.question.now) self.now search.now.t
            (Q.unsaid search.now.question.now search.now.t) row.now y → IsMetBy result search.now.least y }
    {
        let alone = Search {
            question: search.question,
            s: search.t,
            t: search.t,
            least: search.least,
        };
        match search.question.said(row) {
            Some(label) if label != search.question.unsaid(search.t) => {
                self.first_open_in(&alone, row.cube)
            }
            _ => None,
        }
    }

    /// A symbol of the cube at which both states leave the part open.
    pub(crate) fn first_open_in<Q: Question>(
        &self,
        search: &Search<'_, Q>,
        cube: Cube,
    ) -> Option<u32>
        requires s { search.now.s < length self.now.states }
        requires t { search.now.t < length self.now.states }
        requires known { length self.now.states ≤ Q.states search.now.question.now }
        requires width { cube.width ≡ self.now.inputs }
        ensures some { IfSome result
            (λ x. HoldsNumber cube x
            × AreOpenAt (Q.said search.now.question.now) self.now search.now.s search.now.t x) }
        ensures within { IfSome result (λ x. x < 2 ^ self.now.inputs) }
        ensures met { (y : ℕ) → HoldsNumber cube y
            → AreOpenAt (Q.said search.now.question.now) self.now search.now.s search.now.t y
            → IsMetBy result search.now.least y }
    {
        let Some(said) = self.said_within(search, &cube) else {
            return Some(cube.value);
        };
        let place = cube.free_place(&said)?;
        let low = self.first_open_in(search, cube.half(place, false));
        if is_settled(low, search.least) {
            return low;
        }
        lesser(low, self.first_open_in(search, cube.half(place, true)))
    }

    /// The cube of a row of either state that gives the part and shares a symbol with the cube.
    fn said_within<Q: Question>(&self, search: &Search<'_, Q>, cube: &Cube) -> Option<Cube>
        requires s { search.now.s < length self.now.states }
        requires t { search.now.t < length self.now.states }
        requires known { length self.now.states ≤ Q.states search.now.question.now }
        requires width { cube.now.width ≡ self.now.inputs }
        ensures width { IfSome result (λ found. found.width ≡ self.now.inputs) }
        ensures meets { IfSome result (Meets cube.now) }
        ensures some { IfSome result
            (λ found. (y : ℕ) → HoldsNumber found y
            → AreOpenAt (Q.said search.now.question.now) self.now search.now.s search.now.t y → ⊥) }
        ensures none { IfNone result
            ((y : ℕ) → HoldsNumber cube.now y
            → AreOpenAt (Q.said search.now.question.now) self.now search.now.s search.now.t y) }
    {
        match self.said_in(search.question, search.s, cube) {
            Some(found) => Some(found),
            None => self.said_in(search.question, search.t, cube),
        }
    }

    /// The cube of a row of the state that gives the part and shares a symbol with the cube.
    fn said_in<Q: Question>(&self, question: &Q, s: usize, cube: &Cube) -> Option<Cube>
        requires s { s < length self.now.states }
        requires known { length self.now.states ≤ Q.states question.now }
        requires width { cube.now.width ≡ self.now.inputs }
        ensures width { IfSome result (λ found. found.width ≡ self.now.inputs) }
        ensures meets { IfSome result (Meets cube.now) }
        ensures some { IfSome result
            (λ found. (y : ℕ) → HoldsNumber found y → IsOpenAt (Q.said question.now) self.now s y → ⊥) }
        ensures none { IfNone result ((y : ℕ) → HoldsNumber cube.now y → IsOpenAt (Q.said question.now) self.now s y) }
    {
        for number in self.numbers_of(s) {
            let row = self.row(*number);
            if says_in(question, row, cube) {
                return Some(row.cube);
            }
        }
        None
    }
}
