//! Networks that are to be written, with what stands before them.

use crate::Header;
use hs_list::Items;
use net_core::Network;

/// A network, and the comments that stand before it in its text.
#[derive(Drop)]
pub struct CommentedNetwork {
    pub comments: Items<u8>,
    pub network: Network,
}

/// A network, and the header that explains it.
#[derive(Drop)]
pub struct HeadedNetwork {
    pub header: Header,
    pub network: Network,
}
