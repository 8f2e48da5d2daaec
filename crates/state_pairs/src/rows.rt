//! The rows of a file, arranged by state.
ghost use Rattle.std.specs.Prelude.{ℕ, ◌≡◌, ◌<◌, ◌≤◌, All, Contains, IfOk, Some, length, slice_get};
ghost use Rattle.kiss_file.specs.LawfulFile.{IsLawfulRow};
ghost use Rattle.kiss_file.specs.Machine.{Conflicting};
ghost use Rattle.kiss_file.specs.Names.{AreDistinct};
ghost use Rattle.kiss_file.specs.declared.file.KissRow.{KissRow};
ghost use Rattle.state_rows.specs.declared.bundles.RowBundle.{RowBundle};
ghost use Rattle.state_rows.specs.Bundles.{IsBundle, IsFit, IsInBundles, ListBundles};
ghost use Rattle.state_rows.specs.Places.{ArePlaces, IsNumberOf};
ghost use Rattle.state_pairs.specs.NextStates.{NeverLeaves};
ghost use Rattle.state_pairs.specs.Table.{IsTable};

use hs_list::Items;
use kiss_file::{KissFile, KissRow, copied_file};
use state_rows::{RowBundle, columns_of_states, leaders_of_states, places_by_cubes};
use std::alloc::{AllocError, Global};
use std::marker::Model;

/// The rows of a file without conflicts, arranged by state. Contracts see them as that file.
#[derive(Drop)]
pub struct RowsByState {
    file: KissFile,
    /// For each state, the numbers of its rows in the order of their cubes.
    pub(crate) places: Vec<Items<usize>>,
    /// For each state, its rows in bundles, in the order of the file.
    bundles: Vec<Items<RowBundle>>,
    /// For each state, the first state whose rows have the same cubes.
    pub(crate) leaders: Vec<usize>,
    /// For each state, the numbers of its rows at one place for each column of the states with its leader.
    pub(crate) columns: Vec<Items<usize>>,
}

impl Model for RowsByState {
    ghost use Rattle.std.specs.Prelude.{length};
    ghost use Rattle.kiss_file.specs.declared.file.KissFile.{KissFile};
    ghost use Rattle.kiss_file.specs.Machine.{Conflicting};
    ghost use Rattle.state_pairs.specs.Table.{IsTable};
    ghost use Rattle.state_rows.specs.Bundles.{ListBundles};
    ghost use Rattle.state_rows.specs.Columns.{AreColumns};
    ghost use Rattle.state_rows.specs.Places.{ListRows};

    ghost Value = { KissFile };

    ghost view = { λ r. r.file };

    ghost invariant = { λ r. IsTable r.file × (Conflicting r.file → ⊥)
        × ListRows r.file.rows (length r.file.states) r.places.items
        × AreColumns r.file.rows r.places.items r.leaders.items r.columns.items
        × ListBundles r.file.rows (length r.file.states) r.bundles.items };
}

impl RowsByState {
    /// The rows of a file, whose states have their rows at these places and in these bundles.
    pub fn of_lists(
        alloc: Global,
        file: &KissFile,
        places: &[Items<usize>],
        bundles: Vec<Items<RowBundle>>,
    ) -> Result<RowsByState, AllocError>
        requires table { IsTable file.now }
        requires no_conflict { Conflicting file.now → ⊥ }
        requires size { length places.now ≡ length file.now.states }
        requires places { ArePlaces file.now.rows (length places.now) (length file.now.rows) places.now }
        requires bundles { ListBundles file.now.rows (length file.now.states) bundles.items }
        ensures { IfOk result (λ rows. rows ≡ file.now) }
    {
        let rows = file.rows.as_slice();
        let ordered = places_by_cubes(alloc, rows, places)?;
        let leaders = leaders_of_states(alloc, rows, &ordered)?;
        let columns = columns_of_states(alloc, rows, &ordered, &leaders)?;
        let file = copied_file(alloc, file)?;
        Ok(RowsByState {
            file,
            places: ordered,
            bundles,
            leaders,
            columns,
        })
    }

    /// The number of states.
    pub fn states(&self) -> usize
        ensures count { result ≡ length self.now.states }
        ensures some { 0 < result }
        ensures limit { result ≤ 256 }
        ensures inside { NeverLeaves self.now }
        ensures names { AreDistinct self.now.states }
    {
        self.file.states.count()
    }

    /// The number of input bits.
    pub fn inputs(&self) -> u8
        ensures count { result ≡ self.now.inputs }
        ensures some { 0 < result }
        ensures limit { result ≤ 32 }
    {
        self.file.inputs
    }

    /// The number of outputs.
    pub fn outputs(&self) -> u8
        ensures count { result ≡ self.now.outputs }
        ensures some { 0 < result }
        ensures limit { result ≤ 64 }
    {
        self.file.outputs
    }

    /// The number of the reset state.
    pub fn reset(&self) -> usize
        ensures number { result ≡ self.now.reset }
        ensures state { result < length self.now.states }
    {
        usize::from(self.file.reset)
    }

    /// The rows of the file.
    pub fn all_rows(&self) -> &[KissRow]
        ensures { result.now ≡ self.now.rows }
    {
        self.file.rows.as_slice()
    }

    /// The numbers of the rows of a state, in the order of their cubes.
    pub fn numbers_of(&self, s: usize) -> &[usize]
        requires { s < length self.now.states }
        ensures inside { All (λ i. i < length self.now.rows) result.now }
        ensures own { (i : ℕ) → Contains result.now i → IsNumberOf self.now s i }
        ensures each { (i : ℕ) (row : KissRow) → slice_get self.now.rows i ≡ Some row → row.from ≡ s
            → Contains result.now i }
        ensures table { IsTable self.now }
        ensures no_conflict { Conflicting self.now → ⊥ }
    {
        self.places[s].as_slice()
    }

    /// The rows of a state in bundles.
    pub fn bundles_of(&self, s: usize) -> &[RowBundle]
        requires { s < length self.now.states }
        ensures right { (bundle : RowBundle) → Contains result.now bundle → IsBundle self.now.rows bundle }
        ensures own { (i : ℕ) → IsInBundles result.now i → IsNumberOf self.now s i }
        ensures each { (i : ℕ) (row : KissRow) → slice_get self.now.rows i ≡ Some row → row.from ≡ s
            → IsInBundles result.now i }
        ensures fit { All (IsFit self.now.inputs) self.now.rows }
    {
        self.bundles[s].as_slice()
    }

    /// The row with that number.
    pub fn row(&self, number: usize) -> &KissRow
        requires { number < length self.now.rows }
        ensures row { slice_get self.now.rows number ≡ Some result.now }
        ensures lawful { IsLawfulRow self.now.inputs self.now.outputs (length self.now.states) result.now }
    {
        &self.file.rows.as_slice()[number]
    }
}
