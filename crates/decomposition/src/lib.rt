//! One way from a split to a network.
//!
//! A split of a machine's states into parts gives codes to the states. The codes and the flow between the parts
//! give what each gate reads, and these give a network and the header that explains it. [`headed_network`] does
//! this for every split through whose parts information flows as the parts say (`specs/Flow`), so that only the
//! split is special to a kind of decomposition. The network answers as the machine of the file does;
//! `specs/Decomposition` says all that holds of it, of its header and of their text.
//!
//! [`network_of_split`] goes as far as the network, for any machine and any names of its signals;
//! `specs/Network` says all that is known of it.
//!
//! The machine that is split is the work machine of `state_reduce`: the machine of the file, or of the classes of its
//! alike states. The other definitions are `Names` for names, `Notes` and `OwnPairs` for the partition pair of each
//! latch, and `PartReads` for what the gates of a part read.
#![tactic(auto)]

mod headed_networks;
mod header;
mod labels;
mod laws;
mod network;
mod notes;

pub use headed_networks::headed_network;
pub use laws::{flow_permits, own_pairs_permit, reads_are_enough};
pub use network::{SplitNetwork, network_of_split};
