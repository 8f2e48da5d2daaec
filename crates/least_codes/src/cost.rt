//! The least numbers of bits that the latches of a code can read.

ghost use Rattle.std.specs.Prelude.{◌≡◌, ◌<◌, ◌≤◌, All, IfOk, length};
ghost use Rattle.kiss_file.specs.declared.file.KissFile.{KissFile};
ghost use Rattle.least_codes.specs.Cost.{IsCost, IsLatchCost};
ghost use Rattle.least_codes.specs.Inner.Table.{IsInside, IsImageTable};
ghost use Rattle.least_codes.specs.LeastCode.{AreCodeWords};

use crate::choice::{Question, least_choice};
use crate::table::{Images, apart_at};
use dependence::bits_below;
use std::alloc::{AllocError, Global};

/// The least number of bits that the gate of a latch can read.
fn latch_cost(
    alloc: Global,
    table: &[Images],
    words: &[u64],
    bits: u32,
    i: u32,
) -> Result<u32, AllocError>
    requires bits { bits ≤ 3 }
    requires latch { i < bits }
    requires inside { All (IsInside (length words.now)) table.now }
    requires codes { AreCodeWords (length words.now) bits words.now }
    ensures cost { IfOk result (λ cost. (F : KissFile) → IsImageTable F table.now → length F.states ≡ length words.now
        → IsLatchCost F words.now bits i cost) }
    ensures few { IfOk result (λ cost. cost ≤ 3) }
{
    let apart = apart_at(alloc, table, words, i)?;
    let question = Question {
        words,
        apart: apart.as_slice(),
        candidates: bits_below(bits as usize),
        bits,
    };
    Ok(least_choice(&question).size)
}

/// The sum, over the latches, of the least numbers of bits that their gates can read.
pub(crate) fn code_cost(
    alloc: Global,
    table: &[Images],
    words: &[u64],
    bits: u32,
) -> Result<u32, AllocError>
    requires bits { bits ≤ 3 }
    requires inside { All (IsInside (length words.now)) table.now }
    requires codes { AreCodeWords (length words.now) bits words.now }
    ensures { IfOk result (λ cost. (F : KissFile) → IsImageTable F table.now → length F.states ≡ length words.now
        → IsCost F words.now bits cost) }
{
    let mut cost = 0;
    for i in 0..bits {
        cost += latch_cost(alloc, table, words, bits, i)?;
    }
    Ok(cost)
}
