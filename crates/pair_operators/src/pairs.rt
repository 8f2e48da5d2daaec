//! Whether two partitions are a pair.
ghost use Rattle.std.specs.Prelude.{◌≡◌, ◌↔◌, IsTrue, length};
ghost use Rattle.pair_operators.specs.Pair.{Pair};

use machine_table::Machine;
use partition::Partition;

/// Whether states that are together in p go, for each symbol, to states that are together in q.
///
/// Each state is compared with the least state of its block.
pub fn is_pair(m: &Machine, p: &Partition, q: &Partition) -> bool
    requires left { length p.now ≡ length m.now.states }
    requires right { length q.now ≡ length m.now.states }
    ensures { IsTrue result ↔ Pair m.now p.now q.now }
{
    for s in 0..m.states() {
        if !m.pair_goes(p.least_of(s), s, q) {
            return false;
        }
    }
    true
}
