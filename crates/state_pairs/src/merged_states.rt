//! The next states of two states, merged in a partition.
//!
//! Pairs are merged row by row, and no more rows are asked once all states are one block.
ghost use Rattle.std.specs.Prelude.{ℕ, ◌≡◌, ◌<◌, All, Contains, OnOk, Some, length};
ghost use Rattle.kiss_file.specs.LawfulFile.{IsLawfulRow};
ghost use Rattle.state_pairs.specs.AddedPairs.{
  AreNamed,
  AreNamedAtPlaces,
  IsFound,
  IsListedPair,
  IsNamedBeside,
  IsOpenImage,
};
ghost use Rattle.state_pairs.specs.SeenPairs.{AreStates};
ghost use Rattle.state_pairs.specs.MergedStates.{MergesPairs};
ghost use Rattle.partition.specs.Partition.{IsPartition, Together};

use crate::RowsByState;
use crate::named_pairs::named_pair;
use crate::pair_list::PairList;
use crate::question::NextState;
use crate::search::Search;
use kiss_file::KissRow;
use partition::Partition;
use std::alloc::{AllocError, Global};

/// Merges the two states of the pair.
fn merge_pair(pair: (u16, u16), part: &mut Partition)
    requires first { pair.0 < length part.old }
    requires second { pair.1 < length part.old }
    ensures { MergesPairs (IsFound (Some pair)) part.old part.new }
{
    part.merge(usize::from(pair.0), usize::from(pair.1));
}

/// Merges the two states of the pair, if one was found.
fn merge_found(found: Option<(u16, u16)>, part: &mut Partition)
    requires states { AreStates (length part.old) (IsFound found) }
    requires lawful { IsPartition (length part.old) part.old }
    ensures { MergesPairs (IsFound found) part.old part.new }
{
    if let Some(pair) = found {
        merge_pair(pair, part);
    }
}

/// Merges the two states of each pair.
fn merge_pairs(pairs: &[(u16, u16)], part: &mut Partition)
    requires states { AreStates (length part.old) (IsListedPair pairs.now) }
    requires lawful { IsPartition (length part.old) part.old }
    ensures { MergesPairs (IsListedPair pairs.now) part.old part.new }
{
    for pair in pairs {
        merge_pair(*pair, part);
    }
}

impl RowsByState {
    /// Merges the pairs that rows of both states name.
    pub fn merge_named(
        &self,
        alloc: Global,
        s: usize,
        t: usize,
        part: &mut Partition,
    ) -> Result<(), AllocError>
        requires s { s < length self.now.states }
        requires t { t < length self.now.states }
        requires lawful { IsPartition (length self.now.states) part.old }
        ensures { OnOk result (MergesPairs (AreNamed self.now s t) part.old part.new) }
    {
        let question = NextState::new(self.states());
        let any = Search {
            question: &question,
            s,
            t,
            least: false,
        };
        if let Some(rows) = self.aligned_rows(&any)
            && self.all_say(&question, rows.second)
        {
            self.merge_by_places(rows.first, rows.second, part);
            return Ok(());
        }
        self.merge_by_rows(alloc, s, t, part)
    }

    /// Merges the pairs named by the rows at the same place of both lists.
    fn merge_by_places(&self, first: &[usize], second: &[usize], part: &mut Partition)
        requires first { All (λ i. i < length self.now.rows) first.now }
        requires second { All (λ i. i < length self.now.rows) second.now }
        requires count { length first.now ≡ length second.now }
        requires states { AreStates (length part.old) (AreNamedAtPlaces self.now.rows first.now second.now) }
        requires lawful { IsPartition (length part.old) part.old }
        ensures { MergesPairs (AreNamedAtPlaces self.now.rows first.now second.now) part.old part.new }
    {
        for i in 0..first.len() {
            if part.blocks() == 1 {
                return;
            }
            merge_found(named_pair(self.row(first[i]), self.row(second[i])), part);
        }
    }

    /// Merges the pairs named by any row of the first state and any row of the second.
    fn merge_by_rows(
        &self,
        alloc: Global,
        s: usize,
        t: usize,
        part: &mut Partition,
    ) -> Result<(), AllocError>
        requires s { s < length self.now.states }
        requires t { t < length self.now.states }
        requires lawful { IsPartition (length self.now.states) part.old }
        ensures { OnOk result (MergesPairs (AreNamed self.now s t) part.old part.new) }
    {
        let mut pairs = PairList::new(alloc, self.states())?;
        for number in self.numbers_of(s) {
            if part.blocks() == 1 {
                return Ok(());
            }
            self.merge_beside(self.row(*number), t, &mut pairs, part)?;
        }
        Ok(())
    }

    /// Merges the pairs named by the row and any row of the state, and adds them to the list. The pairs in the
    /// list are together already.
    fn merge_beside(
        &self,
        row: &KissRow,
        t: usize,
        pairs: &mut PairList,
        part: &mut Partition,
    ) -> Result<(), AllocError>
        requires t { t < length self.now.states }
        requires row { IsLawfulRow self.now.inputs self.now.outputs (length self.now.states) row.now }
        requires states { pairs.old.states ≡ length self.now.states }
        requires inside { AreStates (length self.now.states) (IsNamedBeside self.now t row.now) }
        requires known { (u v : ℕ) → Contains pairs.old.pairs (u, v) → Together part.old u v }
        requires lawful { IsPartition (length self.now.states) part.old }
        ensures merged { OnOk result (MergesPairs (IsNamedBeside self.now t row.now) part.old part.new) }
        ensures known { OnOk result ((u v : ℕ) → Contains pairs.new.pairs (u, v) → Together part.new u v) }
        ensures states { pairs.new.states ≡ pairs.old.states }
    {
        let known = pairs.as_slice().len();
        self.add_beside(row, t, pairs)?;
        merge_pairs(&pairs.as_slice()[known..], part);
        Ok(())
    }

    /// Merges the pairs at symbols at which one of the states leaves the next state open.
    pub fn merge_open(
        &self,
        alloc: Global,
        s: usize,
        t: usize,
        part: &mut Partition,
    ) -> Result<(), AllocError>
        requires s { s < length self.now.states }
        requires t { t < length self.now.states }
        requires inside { AreStates (length self.now.states) (IsOpenImage self.now s t) }
        requires lawful { IsPartition (length self.now.states) part.old }
        ensures { OnOk result (MergesPairs (IsOpenImage self.now s t) part.old part.new) }
    {
        if part.blocks() == 1 {
            return Ok(());
        }
        let mut pairs = PairList::new(alloc, self.states())?;
        self.add_open(s, t, &mut pairs)?;
        merge_pairs(pairs.as_slice(), part);
        Ok(())
    }
}
