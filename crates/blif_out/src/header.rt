//! What the comments at the head of a network say about it.

use hs_list::Items;
use kiss_file::StateNames;
use partition::Partition;
use state_codes::{CodeWords, Kind, Parts};

/// The note of a latch: the number of its part, the partition of the states by the bits that its gate reads,
/// and the partition of the states by the latch's own bit.
#[derive(Drop)]
pub struct LatchNote {
    pub part: u16,
    pub from: Partition,
    pub to: Partition,
}

/// The notes of the latches in order.
pub type LatchNotes = Items<LatchNote>;

/// What the comments at the head of a network say:
///
/// - how its parts were made;
/// - the partition of the states into alike ones, if these were made one;
/// - the parts;
/// - the name and the code of each state, where bit i of a code is its bit of value 2^i;
/// - a note for each latch.
#[derive(Drop)]
pub struct Header {
    pub kind: Kind,
    pub classes: Option<Partition>,
    pub parts: Parts,
    pub states: StateNames,
    pub words: CodeWords,
    pub latches: LatchNotes,
}
