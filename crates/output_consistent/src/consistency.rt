//! Whether the outputs respect a partition.

ghost use Rattle.std.specs.Prelude.{◌≡◌, ◌↔◌, IsTrue, length};
ghost use Rattle.pair_operators.specs.Consistency.{Consistent};

use machine_table::Machine;
use partition::Partition;

/// Whether states that are together have equal outputs for each symbol.
///
/// Each state is compared with the least state of its block.
pub fn is_consistent(m: &Machine, p: &Partition) -> bool
    requires { length p.now ≡ length m.now.states }
    ensures { IsTrue result ↔ Consistent m.now p.now }
{
    for s in 0..m.states() {
        if !m.outputs_agree(p.least_of(s), s) {
            return false;
        }
    }
    true
}
