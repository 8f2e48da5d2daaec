//! Rows that contradict one another.
ghost use Rattle.std.specs.Prelude.{ℕ, ◌≡◌, ◌<◌, ◌≤◌, All, Contains, IfNone, IfSome, List, length};
ghost use Rattle.kiss_file.specs.declared.file.KissRow.{KissRow};
ghost use Rattle.state_rows.specs.Conflict.{AreFirstTwo, ContradictAt};
ghost use Rattle.state_rows.specs.declared.bundles.RowBundle.{RowBundle};
ghost use Rattle.state_rows.specs.Least.{lesser_of};
ghost use Rattle.state_rows.specs.Bundles.{AreFit, IsComparable, IsFirstAgainst, IsInBundles, ListBundles};

use crate::bundles::RowBundle;
use hs_list::Items;
use kiss_file::KissRow;
use pattern_bundles::take_first;

/// The lesser of two numbers, if any was found.
fn earlier_of(first: Option<usize>, second: Option<usize>) -> Option<usize>
    ensures { result ≡ lesser_of first second }
{
    match (first, second) {
        (None, found) => found,
        (Some(i), None) => Some(i),
        (Some(i), Some(j)) => Some(i.min(j)),
    }
}

/// A number, if it is below the bound.
fn below(number: usize, bound: usize) -> Option<usize>
    ensures some { IfSome result (λ i. (i ≡ number) × (i < bound)) }
    ensures none { IfNone result (bound ≤ number) }
{
    if number < bound { Some(number) } else { None }
}

/// The first number below `number` in the bundle whose row contradicts the row. A bundle without a number below it is
/// passed over.
fn first_in(bundle: &RowBundle, number: usize, row: &KissRow) -> Option<usize>
    ensures below { IfSome result (λ i. i < number) }
    ensures found { (rows : List KissRow) → IsComparable rows row.now bundle.now
        → IsFirstAgainst rows (Contains bundle.now.numbers) number row.now result }
{
    let numbers = bundle.numbers.as_slice();
    below(*numbers.first()?, number)?;
    let mut marks = bundle.contradicting(row);
    let place = take_first(&mut marks)?;
    let earlier = numbers.get(place)?;
    below(*earlier, number)
}

/// The first number below `number` in any of the bundles whose row contradicts the row.
fn first_against(bundles: &[RowBundle], number: usize, row: &KissRow) -> Option<usize>
    ensures below { IfSome result (λ i. i < number) }
    ensures found { (rows : List KissRow)
        → ((bundle : RowBundle) → Contains bundles.now bundle → IsComparable rows row.now bundle)
        → IsFirstAgainst rows (IsInBundles bundles.now) number row.now result }
{
    let mut first = None;
    for bundle in bundles {
        first = earlier_of(first, first_in(bundle, number, row));
    }
    first
}

/// The numbers of the first two rows that contradict one another: the least later row, and then the least
/// earlier row.
pub fn first_conflict(rows: &[KissRow], bundles: &[Items<RowBundle>]) -> Option<(usize, usize)>
    requires bundles { ListBundles rows.now (length bundles.now) bundles.now }
    requires fit { AreFit rows.now }
    requires states { All (λ row. row.from < length bundles.now) rows.now }
    ensures some { IfSome result (λ found. AreFirstTwo rows.now found.0 found.1) }
    ensures none { IfNone result ((i j : ℕ) → i < j → ContradictAt rows.now i j → ⊥) }
{
    for (number, row) in rows.iter().enumerate() {
        let own = bundles[usize::from(row.from)].as_slice();
        if let Some(earlier) = first_against(own, number, row) {
            return Some((earlier, number));
        }
    }
    None
}
