//! The pairs of next states of two states, as their rows name them.
//!
//! Rows of both states that share a symbol name a pair. Where rows leave a next state open, there are further pairs.
ghost use Rattle.std.specs.Prelude.{ℕ, ◌≡◌, ◌<◌, ◌↔◌, All, Contains, IfOk, OnOk, length};
ghost use Rattle.kiss_file.specs.LawfulFile.{IsLawfulRow};
ghost use Rattle.state_pairs.specs.AddedPairs.{
  AddsPairs,
  AreBothOpen,
  AreNamed,
  AreNamedAtPlaces,
  AreNamedBy,
  AreNamedIn,
  IsAddedAt,
  IsFound,
  IsNamedBeside,
  IsOpenImage,
  NamesAlone,
  OfSomeRow,
  pair_of,
};
ghost use Rattle.state_rows.specs.Bundles.{IsBundle, IsFit};
ghost use Rattle.state_pairs.specs.SeenPairs.{AreStates};

use crate::RowsByState;
use crate::pair_list::PairList;
use crate::question::NextState;
use crate::row_pairs::least_of_both;
use crate::search::Search;
use cubes::Cube;
use kiss_file::KissRow;
use pattern_bundles::take_first;
use state_rows::RowBundle;
use std::alloc::{AllocError, Global};

/// Adds the pair, if one was found.
fn add_found(found: Option<(u16, u16)>, pairs: &mut PairList) -> Result<(), AllocError>
    requires { AreStates pairs.old.states (IsFound found) }
    ensures pairs { OnOk result (AddsPairs (IsFound found) pairs.old.pairs pairs.new.pairs) }
    ensures states { pairs.new.states ≡ pairs.old.states }
{
    if let Some(pair) = found {
        pairs.add(pair)?;
    }
    Ok(())
}

/// The pair, swapped if `turned` is set.
fn in_order(first: u16, second: u16, turned: bool) -> (u16, u16)
    ensures { result ≡ pair_of turned first second }
{
    if turned {
        (second, first)
    } else {
        (first, second)
    }
}

/// The pair that two rows name, if they share a symbol.
pub(crate) fn named_pair(row: &KissRow, other: &KissRow) -> Option<(u16, u16)>
    requires { row.now.cube.width ≡ other.now.cube.width }
    ensures { (u v : ℕ) → IsFound result u v ↔ AreNamedBy row.now other.now u v }
{
    least_of_both(&row.cube, &other.cube)?;
    Some((row.to?, other.to?))
}

impl RowsByState {
    /// The pairs named by the rows at the same place of both lists.
    pub fn pairs_by_places(
        &self,
        alloc: Global,
        first: &[usize],
        second: &[usize],
    ) -> Result<Vec<(u16, u16)>, AllocError>
        requires first { All (λ i. i < length self.now.rows) first.now }
        requires second { All (λ i. i < length self.now.rows) second.now }
        requires count { length first.now ≡ length second.now }
        ensures { IfOk result
            (λ pairs. (u v : ℕ) → Contains pairs.items (u, v)
            ↔ AreNamedAtPlaces self.now.rows first.now second.now u v) }
    {
        let mut pairs = Vec::with_capacity(alloc, first.len())?;
        for i in 0..first.len() {
            if let Some(pair) = named_pair(self.row(first[i]), self.row(second[i])) {
                pairs.push(pair)?;
            }
        }
        Ok(pairs)
    }

    /// Adds the pairs that rows of both states name.
    pub fn add_named(&self, s: usize, t: usize, pairs: &mut PairList) -> Result<(), AllocError>
        requires s { s < length self.now.states }
        requires t { t < length self.now.states }
        requires states { pairs.old.states ≡ length self.now.states }
        ensures pairs { OnOk result (AddsPairs (AreNamed self.now s t) pairs.old.pairs pairs.new.pairs) }
        ensures states { pairs.new.states ≡ pairs.old.states }
    {
        let question = NextState::new(self.states());
        let any = Search {
            question: &question,
            s,
            t,
            least: false,
        };
        if let Some(rows) = self.aligned_rows(&any)
            && self.all_say(&question, rows.second)
        {
            return self.add_by_places(rows.first, rows.second, pairs);
        }
        self.add_by_rows(s, t, pairs)
    }

    /// Adds the pairs named by the rows at the same place of both lists.
    fn add_by_places(
        &self,
        first: &[usize],
        second: &[usize],
        pairs: &mut PairList,
    ) -> Result<(), AllocError>
        requires first { All (λ i. i < length self.now.rows) first.now }
        requires second { All (λ i. i < length self.now.rows) second.now }
        requires count { length first.now ≡ length second.now }
        requires states { pairs.old.states ≡ length self.now.states }
        ensures pairs { OnOk result
            (AddsPairs (AreNamedAtPlaces self.now.rows first.now second.now) pairs.old.pairs pairs.new.pairs) }
        ensures states { pairs.new.states ≡ pairs.old.states }
    {
        for i in 0..first.len() {
            let row = self.row(first[i]);
            let other = self.row(second[i]);
            add_found(named_pair(row, other), pairs)?;
        }
        Ok(())
    }

    /// Adds the pairs named by any row of the first state and any row of the second.
    fn add_by_rows(&self, s: usize, t: usize, pairs: &mut PairList) -> Result<(), AllocError>
        requires s { s < length self.now.states }
        requires t { t < length self.now.states }
        requires states { pairs.old.states ≡ length self.now.states }
        ensures pairs { OnOk result
            (AddsPairs (OfSomeRow self.now s (IsNamedBeside self.now t)) pairs.old.pairs pairs.new.pairs) }
        ensures states { pairs.new.states ≡ pairs.old.states }
    {
        for number in self.numbers_of(s) {
            self.add_beside(self.row(*number), t, pairs)?;
        }
        Ok(())
    }

    /// Adds the pairs named by the row and any row of the state.
    pub(crate) fn add_beside(
        &self,
        row: &KissRow,
        t: usize,
        pairs: &mut PairList,
    ) -> Result<(), AllocError>
        requires t { t < length self.now.states }
        requires row { IsLawfulRow self.now.inputs self.now.outputs (length self.now.states) row.now }
        requires states { pairs.old.states ≡ length self.now.states }
        ensures pairs { OnOk result (AddsPairs (IsNamedBeside self.now t row.now) pairs.old.pairs pairs.new.pairs) }
        ensures states { pairs.new.states ≡ pairs.old.states }
    {
        let Some(next) = row.to else {
            return Ok(());
        };
        for bundle in self.bundles_of(t) {
            self.add_in(&row.cube, next, bundle, pairs)?;
        }
        Ok(())
    }

    /// Adds the pairs of the next state and of those that rows of a bundle name which share a symbol with the
    /// cube. For each pair one row is asked; the others with its next state are passed over.
    fn add_in(
        &self,
        cube: &Cube,
        next: u16,
        bundle: &RowBundle,
        pairs: &mut PairList,
    ) -> Result<(), AllocError>
        requires next { next < length self.now.states }
        requires width { cube.now.width ≡ self.now.inputs }
        requires fit { All (IsFit self.now.inputs) self.now.rows }
        requires bundle { IsBundle self.now.rows bundle.now }
        requires states { pairs.old.states ≡ length self.now.states }
        ensures pairs { OnOk result
            (AddsPairs (AreNamedIn self.now.rows bundle.now.numbers cube.now next) pairs.old.pairs pairs.new.pairs) }
        ensures states { pairs.new.states ≡ pairs.old.states }
    {
        let mut marks = bundle.meeting(cube);
        while let Some(place) = take_first(&mut marks) {
            let done = self.add_marked(next, bundle, place, pairs)?;
            marks &= !done;
        }
        Ok(())
    }

    /// Adds the pair of the next state and of the one that the row at the place names, and marks rows whose
    /// pairs are then in the list.
    fn add_marked(
        &self,
        next: u16,
        bundle: &RowBundle,
        place: usize,
        pairs: &mut PairList,
    ) -> Result<u64, AllocError>
        requires next { next < length self.now.states }
        requires place { place < length bundle.now.numbers }
        requires fit { All (IsFit self.now.inputs) self.now.rows }
        requires bundle { IsBundle self.now.rows bundle.now }
        requires states { pairs.old.states ≡ length self.now.states }
        ensures pairs { IfOk result
            (λ word. IsAddedAt self.now.rows bundle.now.numbers next place word pairs.old.pairs pairs.new.pairs) }
        ensures states { pairs.new.states ≡ pairs.old.states }
    {
        let row = self.row(bundle.numbers.as_slice()[place]);
        let Some(other) = row.to else {
            return Ok(0);
        };
        if pairs.add((next, other))? {
            return Ok(0);
        }
        Ok(bundle.naming_no_other(other))
    }

    /// Adds the pairs at symbols at which one of the states leaves the next state open.
    pub fn add_open(&self, s: usize, t: usize, pairs: &mut PairList) -> Result<(), AllocError>
        requires s { s < length self.now.states }
        requires t { t < length self.now.states }
        requires states { pairs.old.states ≡ length self.now.states }
        ensures pairs { OnOk result (AddsPairs (IsOpenImage self.now s t) pairs.old.pairs pairs.new.pairs) }
        ensures states { pairs.new.states ≡ pairs.old.states }
    {
        self.add_alone(s, t, false, pairs)?;
        self.add_alone(t, s, true, pairs)?;
        add_found(self.open_pair(s, t), pairs)
    }

    /// The pair of the states themselves, if at some symbol both leave the next state open.
    fn open_pair(&self, s: usize, t: usize) -> Option<(u16, u16)>
        requires s { s < length self.now.states }
        requires t { t < length self.now.states }
        ensures { (u v : ℕ) → IsFound result u v ↔ AreBothOpen self.now s t u v }
    {
        let question = NextState::new(self.states());
        let any = Search {
            question: &question,
            s,
            t,
            least: false,
        };
        self.first_open_in(&any, Cube::whole(self.inputs()))?;
        Some((s as u16, t as u16))
    }

    /// Adds the pairs of a next state that a row of the first state names and of the second state itself, for
    /// symbols at which the second state leaves the next state open; swapped, if `turned` is set.
    fn add_alone(
        &self,
        s: usize,
        t: usize,
        turned: bool,
        pairs: &mut PairList,
    ) -> Result<(), AllocError>
        requires s { s < length self.now.states }
        requires t { t < length self.now.states }
        requires states { pairs.old.states ≡ length self.now.states }
        ensures pairs { OnOk result
            (AddsPairs (OfSomeRow self.now s (NamesAlone self.now t turned)) pairs.old.pairs pairs.new.pairs) }
        ensures states { pairs.new.states ≡ pairs.old.states }
    {
        for number in self.numbers_of(s) {
            add_found(self.alone_pair(self.row(*number), t, turned), pairs)?;
        }
        Ok(())
    }

    /// The pair of the next state that the row names and of the state itself, if at some symbol of the row the
    /// state leaves the next state open.
    fn alone_pair(&self, row: &KissRow, t: usize, turned: bool) -> Option<(u16, u16)>
        requires t { t < length self.now.states }
        requires width { row.now.cube.width ≡ self.now.inputs }
        ensures { (u v : ℕ) → IsFound result u v ↔ NamesAlone self.now t turned row.now u v }
    {
        let next = row.to?;
        let question = NextState::new(self.states());
        let any = Search {
            question: &question,
            s: t,
            t,
            least: false,
        };
        self.first_open_in(&any, row.cube)?;
        Some(in_order(next, t as u16, turned))
    }
}
