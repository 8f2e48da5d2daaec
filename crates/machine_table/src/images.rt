//! The pairs of next states of two states, listed, or merged in a partition.
ghost use Rattle.std.specs.Prelude.{ℕ, ◌≡◌, ◌≢◌, ◌<◌, ◌↔◌, ◌^◌, AllPairs, Contains, IfOk, IfSome, OnOk, length};
ghost use Rattle.machine_table.specs.Pieces.{IsImage};
ghost use Rattle.machine_table.specs.MergedStates.{MergesImages};
ghost use Rattle.partition.specs.Partition.{IsPartition};
ghost use Rattle.state_pairs.specs.AddedPairs.{AddsPairs};

use crate::Machine;
use partition::Partition;
use state_pairs::{NextState, PairList, Search, least_of_both};
use std::alloc::{AllocError, Global};

impl Machine {
    /// The pairs of next states of the two states, each once.
    pub fn images(&self, alloc: Global, s: usize, t: usize) -> Result<Vec<(u16, u16)>, AllocError>
        requires s { s < length self.now.states }
        requires t { t < length self.now.states }
        ensures listed { IfOk result (λ images. (u v : ℕ) → Contains images.items (u, v) ↔ IsImage self.now s t u v) }
        ensures once { IfOk result (λ images. AllPairs (λ a b. a ≢ b) images.items) }
    {
        let mut images = PairList::new(alloc, self.states())?;
        self.add_images(s, t, &mut images)?;
        Ok(images.into_pairs())
    }

    /// The pairs of next states of the two states. A pair may be listed more than once, which saves time where the
    /// states have the same cubes.
    pub fn image_pairs(
        &self,
        alloc: Global,
        s: usize,
        t: usize,
    ) -> Result<Vec<(u16, u16)>, AllocError>
        requires s { s < length self.now.states }
        requires t { t < length self.now.states }
        ensures { IfOk result (λ pairs. (u v : ℕ) → Contains pairs.items (u, v) ↔ IsImage self.now s t u v) }
    {
        let question = NextState::new(self.states());
        let any = Search {
            question: &question,
            s,
            t,
            least: false,
        };
        let complete = self.is_complete();
        if complete
            && let Some(rows) = self.rows.aligned_rows(&any)
            && self.rows.all_say(&question, rows.second)
        {
            return self.rows.pairs_by_places(alloc, rows.first, rows.second);
        }
        self.images(alloc, s, t)
    }

    /// A symbol of the k-th column of next states that is kept for the state, if there are so many. States with the
    /// same cubes have the same columns, and each symbol leads them as some column does.
    pub fn symbol_of_column(&self, s: usize, k: usize) -> Option<u32>
        requires { s < length self.now.states }
        ensures { IfSome result (λ x. x < 2 ^ self.now.inputs) }
    {
        let question = NextState::new(self.states());
        let own = Search {
            question: &question,
            s,
            t: s,
            least: false,
        };
        let rows = self.rows.aligned_rows(&own)?;
        let number = rows.first.get(k)?;
        let row = self.row(*number);
        least_of_both(&row.cube, &row.cube)
    }

    /// Adds the pairs of next states of the two states.
    fn add_images(&self, s: usize, t: usize, pairs: &mut PairList) -> Result<(), AllocError>
        requires s { s < length self.now.states }
        requires t { t < length self.now.states }
        requires states { pairs.old.states ≡ length self.now.states }
        ensures pairs { OnOk result (AddsPairs (IsImage self.now s t) pairs.old.pairs pairs.new.pairs) }
        ensures states { pairs.new.states ≡ pairs.old.states }
    {
        let complete = self.is_complete();
        self.rows.add_named(s, t, pairs)?;
        if complete {
            return Ok(());
        }
        self.rows.add_open(s, t, pairs)
    }

    /// Merges, in a partition of the states, the next states of the two states at each symbol, and nothing else.
    ///
    /// It stops where all states are one block.
    pub fn merge_images(
        &self,
        alloc: Global,
        s: usize,
        t: usize,
        part: &mut Partition,
    ) -> Result<(), AllocError>
        requires s { s < length self.now.states }
        requires t { t < length self.now.states }
        requires lawful { IsPartition (length self.now.states) part.old }
        ensures { OnOk result (MergesImages self.now s t part.old part.new) }
    {
        let complete = self.is_complete();
        self.rows.merge_named(alloc, s, t, part)?;
        if complete {
            return Ok(());
        }
        self.rows.merge_open(alloc, s, t, part)
    }
}
