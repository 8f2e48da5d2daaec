//! The least partition of a pair.
ghost use Rattle.std.specs.Prelude.{◌≡◌, IfOk, length};
ghost use Rattle.pair_operators.specs.Extremes.{IsLow};

use machine_table::Machine;
use partition::Partition;
use std::alloc::{AllocError, Global};

/// m(p): the least partition q for which (p, q) is a pair.
///
/// It begins with zero, and merges what has to be together: the next states of each state and of the least
/// state of its block.
pub fn low(alloc: Global, m: &Machine, p: &Partition) -> Result<Partition, AllocError>
    requires { length p.now ≡ length m.now.states }
    ensures { IfOk result (IsLow m.now p.now) }
{
    let mut q = Partition::zero(alloc, m.states())?;
    for s in 0..m.states() {
        let first = p.least_of(s);
        if first < s {
            m.merge_images(alloc, first, s, &mut q)?;
        }
    }
    Ok(q)
}
