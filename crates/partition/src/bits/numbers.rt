//! The rows that a partition needs, one for each block of two states or more.

ghost use Rattle.std.specs.Prelude.{◌≡◌, ℕ, ◌<◌, ◌≤◌, length, slice_index};
ghost use Rattle.partition.specs.Inner.Rows.{AreRowNumbers};

/// Gives each label a number: 0 if no state has it, 1 if one state has it, and otherwise the number of the row
/// of its block plus 2. Returns the number of rows.
pub fn number_rows(labels: &[u16], numbers: &mut [u16]) -> usize
    requires labels { (s : ℕ) → s < length labels.now → slice_index labels.now s < length numbers.old }
    requires few { length labels.now ≤ 256 }
    requires none { (label : ℕ) → slice_index numbers.old label ≡ 0 }
    ensures { AreRowNumbers labels.now numbers.new result (length labels.now) }
{
    let mut count: u16 = 0;
    for label in labels {
        let number = numbers[*label as usize];
        if number == 0 {
            numbers[*label as usize] = 1;
        } else if number == 1 {
            numbers[*label as usize] = count + 2;
            count += 1;
        }
    }
    count as usize
}
