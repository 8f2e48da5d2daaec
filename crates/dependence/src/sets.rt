//! The lists of what gates read.

use crate::Numbers;
use hs_list::Items;

/// What one gate reads: the numbers of inputs, and the numbers of latches, which are those of the state bits.
/// Both lists are ascending. Input 0 is the first character of a symbol.
#[derive(Drop)]
pub struct ReadSet {
    pub inputs: Numbers,
    pub latches: Numbers,
}

/// Read sets in order.
pub type ReadSets = Items<ReadSet>;

/// What the gate of each latch and of each output reads.
#[derive(Drop)]
pub struct Reads {
    pub latches: ReadSets,
    pub outputs: ReadSets,
}
