//! The rows of a state in bundles of 64, to find those that share a symbol with a cube.
//!
//! A bundle keeps the cubes, the next states and the outputs of its rows as patterns. Each question to a bundle
//! is answered for all its rows at once, by a word that marks them.
ghost use Rattle.std.specs.Prelude.{ℕ, ◌≡◌, ◌<◌, ◌≤◌, All, AllPairs, IfOk, List, length};
ghost use Rattle.std.specs.Int.{bit_at};
ghost use Rattle.cubes.specs.Cube.{Meets};
ghost use Rattle.kiss_file.specs.declared.file.KissRow.{KissRow};
ghost use Rattle.state_rows.specs.Conflict.{Contradicts};
ghost use Rattle.state_rows.specs.Bundles.{
  NamesNoOther,
  AreBundles,
  AreFit,
  ArePatterns,
  IsBundle,
  IsComparable,
  IsFit,
  ListBundles,
  MarksRows,
  cube_pattern,
  next_pattern,
  output_pattern,
  pattern_of,
};
ghost use Rattle.state_rows.specs.Columns.{IsAtPlace};
ghost use Rattle.state_rows.specs.Places.{ArePlaces};

use cubes::Cube;
use hs_list::Items;
use kiss_file::KissRow;
use pattern_bundles::{Bundle, Pattern};
use std::alloc::{AllocError, Global};

/// The number of rows of a full bundle.
const FULL: usize = 64;

/// What a pattern tells of a row.
#[derive(Clone, Copy)]
pub(crate) enum Aspect {
    /// The symbols that it holds.
    Symbols,
    /// The next state that it names.
    Next,
    /// The outputs that it gives.
    Outputs,
}

/// At most 64 rows of one state, in the order of their numbers.
#[derive(Drop)]
pub struct RowBundle {
    pub numbers: Items<usize>,
    pub cubes: Bundle,
    pub nexts: Bundle,
    pub outputs: Bundle,
}

/// The characters of a cube as a pattern.
fn pattern_of_cube(cube: &Cube) -> Pattern
    ensures { result ≡ cube_pattern cube.now }
{
    Pattern {
        care: u64::from(cube.care),
        value: u64::from(cube.value),
    }
}

/// The number of a next state as a pattern, and no bit if none is named.
fn pattern_of_next(next: Option<u16>) -> Pattern
    ensures { result ≡ next_pattern next }
{
    match next {
        Some(t) => Pattern {
            care: 0xFFFF,
            value: u64::from(t),
        },
        None => Pattern { care: 0, value: 0 },
    }
}

/// The outputs that a row gives as a pattern.
fn pattern_of_outputs(row: &KissRow) -> Pattern
    ensures { result ≡ output_pattern row.now }
{
    Pattern {
        care: row.care,
        value: row.value,
    }
}

/// What the row tells under one aspect, as a pattern.
fn pattern_of(aspect: Aspect, row: &KissRow) -> Pattern
    ensures { result ≡ pattern_of aspect row.now }
{
    match aspect {
        Aspect::Symbols => pattern_of_cube(&row.cube),
        Aspect::Next => pattern_of_next(row.to),
        Aspect::Outputs => pattern_of_outputs(row),
    }
}

/// The patterns of the rows with these numbers.
fn patterns_of(
    alloc: Global,
    rows: &[KissRow],
    numbers: &[usize],
    aspect: Aspect,
) -> Result<Bundle, AllocError>
    requires few { length numbers.now ≤ 64 }
    requires inside { All (λ i. i < length rows.now) numbers.now }
    ensures { IfOk result (ArePatterns aspect rows.now numbers.now (length numbers.now)) }
{
    let mut patterns = Vec::with_capacity(alloc, numbers.len())?;
    for number in numbers {
        patterns.push(pattern_of(aspect, &rows[*number]))?;
    }
    let bundle = Bundle::new(alloc, &patterns)?;
    Ok(bundle)
}

/// The bundle of the rows with these numbers.
fn bundle_of(alloc: Global, rows: &[KissRow], numbers: &[usize]) -> Result<RowBundle, AllocError>
    requires few { length numbers.now ≤ 64 }
    requires inside { All (λ i. i < length rows.now) numbers.now }
    requires ascending { AllPairs (λ i j. i < j) numbers.now }
    ensures numbers { IfOk result (λ bundle. bundle.numbers ≡ numbers.now) }
    ensures bundle { IfOk result (IsBundle rows.now) }
{
    let copied = numbers.to_vec(alloc)?;
    let cubes = patterns_of(alloc, rows, numbers, Aspect::Symbols)?;
    let nexts = patterns_of(alloc, rows, numbers, Aspect::Next)?;
    let outputs = patterns_of(alloc, rows, numbers, Aspect::Outputs)?;
    Ok(RowBundle {
        numbers: Items::from(copied),
        cubes,
        nexts,
        outputs,
    })
}

/// The rows with these numbers in bundles.
fn bundles_of_numbers(
    alloc: Global,
    rows: &[KissRow],
    numbers: &[usize],
) -> Result<Vec<RowBundle>, AllocError>
    requires inside { All (λ i. i < length rows.now) numbers.now }
    requires ascending { AllPairs (λ i j. i < j) numbers.now }
    ensures { IfOk result (λ bundles. AreBundles rows.now numbers.now bundles.items) }
{
    let mut bundles = Vec::new(alloc);
    let mut start = 0;
    while start < numbers.len() {
        let end = start + (numbers.len() - start).min(FULL);
        bundles.push(bundle_of(alloc, rows, &numbers[start..end])?)?;
        start = end;
    }
    Ok(bundles)
}

/// For each state, its rows in bundles.
pub fn bundles_of_states(
    alloc: Global,
    rows: &[KissRow],
    places: &[Items<usize>],
) -> Result<Vec<Items<RowBundle>>, AllocError>
    requires { ArePlaces rows.now (length places.now) (length rows.now) places.now }
    ensures { IfOk result (λ bundles. ListBundles rows.now (length places.now) bundles.items) }
{
    let mut bundles = Vec::with_capacity(alloc, places.len())?;
    for list in places {
        let own = bundles_of_numbers(alloc, rows, list.as_slice())?;
        bundles.push(Items::from(own))?;
    }
    Ok(bundles)
}

impl RowBundle {
    /// Marks the rows that share a symbol with the cube.
    pub fn meeting(&self, cube: &Cube) -> u64
        ensures { (rows : List KissRow) → IsBundle rows self.now → All (IsFit cube.now.width) rows
            → MarksRows rows self.now.numbers (λ row. Meets cube.now row.cube) result }
    {
        self.cubes.agreeing(pattern_of_cube(cube))
    }

    /// Marks the rows that contradict the row.
    pub(crate) fn contradicting(&self, row: &KissRow) -> u64
        ensures { (rows : List KissRow) → IsComparable rows row.now self.now
            → MarksRows rows self.now.numbers (λ other. Contradicts other row.now) result }
    {
        let meeting = self.meeting(&row.cube);
        if meeting == 0 {
            return 0;
        }
        let agreeing = self.nexts.agreeing(pattern_of_next(row.to))
            & self.outputs.agreeing(pattern_of_outputs(row));
        meeting & !agreeing
    }

    /// Marks rows that name no other next state.
    pub fn naming_no_other(&self, next: u16) -> u64
        ensures { (rows : List KissRow) → IsBundle rows self.now → AreFit rows → (k : ℕ) (row : KissRow)
            → IsAtPlace rows self.now.numbers k row → bit_at result k ≡ 1 → NamesNoOther next row }
    {
        self.nexts.agreeing(pattern_of_next(Some(next)))
    }
}
