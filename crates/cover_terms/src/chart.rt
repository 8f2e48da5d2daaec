//! A number for each value of at most 16 columns.
ghost use Rattle.std.specs.Prelude.{◌≡◌, ◌≤◌, ◌-◌, ◌^◌, IfOk, length, replicate};
ghost use Rattle.cover_terms.specs.Term.{FitsWidth};
ghost use Rattle.cover_terms.specs.Charts.{IsCleared, IsFilled, IsFound};

use crate::term::Term;
use std::alloc::{AllocError, Global};

/// The columns below the width, as a number that has a bit for each.
fn columns(width: u8) -> u128
    requires { width ≤ 16 }
    ensures { result ≡ 2 ^ width - 1 }
{
    (1u128 << width) - 1
}

/// A chart with 0 at each value.
pub fn blank(alloc: Global, width: u8) -> Result<Vec<usize>, AllocError>
    requires { width ≤ 16 }
    ensures { IfOk result (λ chart. chart.items ≡ replicate (2 ^ width) 0) }
{
    vec![in alloc; 0; 1usize << width]
}

/// Puts the number at each value that the row holds.
pub fn fill(chart: &mut [usize], row: Term, width: u8, number: usize)
    requires few { width ≤ 16 }
    requires fits { FitsWidth width row }
    requires size { length chart.old ≡ 2 ^ width }
    ensures { IsFilled width row number chart.old chart.new }
{
    let open = columns(width) & !row.care;
    if open == 0 {
        chart[row.value as usize] = number;
        return;
    }
    let column = open.trailing_zeros();
    fill(chart, row.with_literal(column, false), width, number);
    fill(chart, row.with_literal(column, true), width, number);
}

/// A value of the row that has the number.
pub fn find(chart: &[usize], row: Term, width: u8, number: usize) -> Option<u128>
    requires few { width ≤ 16 }
    requires fits { FitsWidth width row }
    requires size { length chart.now ≡ 2 ^ width }
    ensures { IsFound width row number chart.now result }
{
    let open = columns(width) & !row.care;
    if open == 0 {
        if chart[row.value as usize] == number {
            return Some(row.value);
        }
        return None;
    }
    let column = open.trailing_zeros();
    if let Some(value) = find(chart, row.with_literal(column, false), width, number) {
        return Some(value);
    }
    find(chart, row.with_literal(column, true), width, number)
}

/// Gives 0 to each value that has the mark 0.
pub fn clear(chart: &mut [usize], marks: &[usize])
    requires { length chart.old ≡ length marks.now }
    ensures { IsCleared marks.now chart.old chart.new }
{
    for value in 0..chart.len() {
        if marks[value] == 0 {
            chart[value] = 0;
        }
    }
}
