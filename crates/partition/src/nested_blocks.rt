//! The blocks of one partition inside the blocks of another.

ghost use Rattle.std.specs.Prelude.{◌≡◌, length, IfOk};
ghost use Rattle.partition.specs.Partition.{IsPartition, Le, blocks_of};
ghost use Rattle.partition.specs.NestedBlocks.{IsInside, IsComplement, IsLargestSize};

use crate::{MOST_STATES, Partition};
use std::alloc::{AllocError, Global};

impl Partition {
    /// Numbers the blocks of q inside each block of this partition, by their least states.
    pub fn inside(&self, alloc: Global, q: &Partition) -> Result<Partition, AllocError>
        requires length { length q.now ≡ length self.now }
        requires le { Le q.now self.now }
        ensures { IfOk result (λ r. IsInside self.now q.now r) }
    {
        inside_of(alloc, self.labels(), q.labels())
    }

    /// Numbers the states inside each block. It has as many blocks as the largest block has states.
    pub fn complement(&self, alloc: Global) -> Result<Partition, AllocError>
        ensures inside { IfOk result (λ r. IsComplement self.now r) }
        ensures blocks { IfOk result (λ r. IsLargestSize self.now (blocks_of r)) }
    {
        let zero = Partition::zero(alloc, self.len())?;
        self.inside(alloc, &zero)
    }
}

/// The blocks of q, numbered inside each block of p.
fn inside_of(alloc: Global, p: &[u16], q: &[u16]) -> Result<Partition, AllocError>
    requires p { IsPartition (length p.now) p.now }
    requires q { IsPartition (length p.now) q.now }
    requires le { Le q.now p.now }
    ensures { IfOk result (λ r. IsInside p.now q.now r) }
{
    let mut counts = [0; MOST_STATES];
    let mut inner = [0; MOST_STATES];
    let mut found = 0;
    let mut blocks: usize = 0;
    let mut labels = Vec::with_capacity(alloc, p.len())?;
    for (s, label) in q.iter().enumerate() {
        let block = *label as usize;
        if block == found {
            let outer = p[s] as usize;
            inner[block] = counts[outer];
            counts[outer] += 1;
            found += 1;
        }
        blocks = blocks.max(inner[block] as usize + 1);
        labels.push(inner[block])?;
    }
    Ok(Partition { labels, blocks })
}
