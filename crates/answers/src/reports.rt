//! What a command gives, and what is put of it.

use blif_out::{CommentedNetwork, Design};
use hs_list::Items;

/// A text or a line.
pub type Bytes = Items<u8>;

/// What a command gives: its whole text, evidence that there are more than its limit, or a network that is still to
/// be written.
#[derive(Drop)]
pub enum Report {
    /// The whole text.
    Whole(Bytes),
    /// The lines of limit + 1 members of a list that has more than the limit.
    Evidence {
        text: Bytes,
        limit: usize,
    },
    /// A network with the comments before it, and how it is written.
    Network {
        design: Design,
        made: CommentedNetwork,
    },
}

/// What is put: a whole text, or evidence that there are more than a limit.
#[derive(Drop)]
pub enum Page {
    /// The whole text.
    Whole(Bytes),
    /// The lines of limit + 1 members of a list that has more than the limit.
    Evidence { text: Bytes, limit: usize },
}
