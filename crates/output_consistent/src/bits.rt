//! The partition of the states by one output.

ghost use Rattle.std.specs.Prelude.{ℕ, ◌<◌, IfNone, IfOk, IfSome, length};
ghost use Rattle.output_consistent.specs.Outputs.{IsOutputPartition};
ghost use Rattle.output_consistent.specs.Inner.Agreement.{AgreeInEach};

use machine_table::Machine;
use partition::Partition;
use std::alloc::{AllocError, Global};

/// The partition in which states are together exactly where their output with the given number is equal for
/// each symbol.
///
/// Each state joins the block of the first state that it agrees with.
pub fn bit_partition(alloc: Global, m: &Machine, bit: u8) -> Result<Partition, AllocError>
    requires { bit < m.now.outputs }
    ensures { IfOk result (IsOutputPartition m.now bit) }
{
    let mut p = Partition::zero(alloc, m.states())?;
    for s in 0..m.states() {
        if let Some(first) = first_agreeing(m, s, bit) {
            p.merge(first, s);
        }
    }
    Ok(p)
}

/// The first state below s that has the same bit as s for each symbol.
fn first_agreeing(m: &Machine, s: usize, bit: u8) -> Option<usize>
    requires s { s < length m.now.states }
    requires bit { bit < m.now.outputs }
    ensures below { IfSome result (λ first. first < s) }
    ensures agrees { IfSome result (λ first. AgreeInEach m.now bit first s) }
    ensures none { IfNone result ((t : ℕ) → t < s → AgreeInEach m.now bit t s → ⊥) }
{
    for t in 0..s {
        if m.bit_agrees(t, s, bit) {
            return Some(t);
        }
    }
    None
}
