//! Networks from codes: the network in which each gate reads its read set and no more.
//!
//! The states of a machine have codes, and each gate, of a latch or of an output, has a set of inputs and
//! state bits that is enough for what it gives. [`network`] builds the network of these: it starts at the
//! code of the reset state, and each gate lists exactly its read set. The rows of a gate are a good cover of
//! its on-set, the values read at some state and symbol that give 1, and its off-set, those that give 0. Such
//! a network carries the machine from code to code, and so answers every word as the machine does.
//!
//! [`names`] gives the names of the signals for a file: those that the file gives, and own names for the
//! others. The least number of prefixes keeps the own names apart from the given ones.
//!
//! The definitions are in `specs/`: `Names` has the names, `Codes` codes as bits, `CarriedMachine` what it is to
//! carry a machine, `Rows` where a gate gives a bit, and `CodeNetwork` the network of codes. The functions of
//! `laws` promise what follows from them.
#![tactic(auto)]

mod code_network;
mod laws;
mod lists;
mod own_names;
mod row_bits;
mod whole_rows;

pub use code_network::network;
pub use laws::{carried_answers, equal_reads, names_apart, realised_carries, realised_is_flat};
pub use own_names::names;
