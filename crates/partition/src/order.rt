//! Comparisons of partitions: at or below, equal, and the order of listings.

ghost use Rattle.std.specs.Prelude.{◌≡◌, ◌<◌, ◌↔◌, length, slice_index, IsTrue, IfOk};
ghost use Rattle.partition.specs.Partition.{IsPartition, Le};
ghost use Rattle.partition.specs.Order.{Before, IsSmaller};

use crate::{MOST_STATES, Partition};

impl Partition {
    /// Whether all states that are together here are together in q.
    pub fn le(&self, q: &Partition) -> bool
        requires { length q.now ≡ length self.now }
        ensures { IsTrue result ↔ Le self.now q.now }
    {
        is_below(self.labels(), q.labels())
    }

    /// Whether q has the same states together.
    pub fn equal(&self, q: &Partition) -> bool
        ensures { IsTrue result ↔ (self.now ≡ q.now) }
    {
        self.labels() == q.labels()
    }

    /// Whether this partition comes before q in a listing: the one with more blocks comes first, and if both
    /// have as many, the one with the smaller label at the first difference.
    pub fn before(&self, q: &Partition) -> bool
        requires { length q.now ≡ length self.now }
        ensures { IsTrue result ↔ Before self.now q.now }
    {
        let (blocks, others) = (self.blocks(), q.blocks());
        if blocks == others {
            is_smaller(self.labels(), q.labels())
        } else {
            others < blocks
        }
    }
}

/// Whether p has the smaller label at the first state where the two differ.
fn is_smaller(p: &[u16], q: &[u16]) -> bool
    requires { length q.now ≡ length p.now }
    ensures { IsTrue result ↔ IsSmaller p.now q.now }
{
    for (s, label) in p.iter().enumerate() {
        if *label != q[s] {
            return *label < q[s];
        }
    }
    false
}

/// Whether each block of p lies in one block of q.
fn is_below(p: &[u16], q: &[u16]) -> bool
    requires lawful { IsPartition (length p.now) p.now }
    requires length { length q.now ≡ length p.now }
    ensures { IsTrue result ↔ Le p.now q.now }
{
    let mut above = [0; MOST_STATES];
    let mut blocks = 0;
    for (s, label) in p.iter().enumerate() {
        let block = *label as usize;
        if block == blocks {
            above[block] = q[s];
            blocks += 1;
        } else if above[block] != q[s] {
            return false;
        }
    }
    true
}
