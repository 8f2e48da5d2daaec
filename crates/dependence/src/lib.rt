//! What the gates of a code read: no state bit to spare, and the inputs that matter.
//!
//! The codes of the states are given, and with them the bits that the gate of each latch may read, its
//! candidates. A set of bits permits a latch where states whose codes agree on it have next states whose
//! codes agree at that latch, and an output where such states have that output equal. [`permits`] and
//! [`permits_output`] decide it. A [`Bit`] is a latch or an output, and stands for its gate.
//!
//! [`reads`] gives each gate a [`ReadSet`]. A candidate is read exactly where the candidates below it and the
//! read ones above it do not permit, so that none can be left out. Two states are compared once for all latches,
//! by their pairs of next states. An input is read where some state and two symbols that differ in it alone give
//! different values. [`add_effects`] gathers this state by state, and [`inputs_of`] gives the inputs that matter
//! for a gate. What a state does is said by its [`filled_rows`], from which covers of gates are made too.
//!
//! The definitions are in `specs/`: `SufficientBits` has what a set permits, `Bit` what the gate of a bit gives,
//! `Candidates` which bits a gate may read, `ReadRule` which of them it reads and that it can spare none, and
//! `Inputs` where an input matters, `Effects` and `BitLists` what words of bits say of it. `Reads` puts them
//! together. The functions of `laws` promise what follows from them.
#![tactic(auto)]

mod bit;
mod differences;
mod effects;
mod gate_reads;
mod laws;
mod numbers;
mod own_rows;
mod read_rule;
mod sets;
mod sufficient_bits;
mod whole_rows;
mod words;

pub use bit::Bit;
pub use effects::{Effect, add_effects, inputs_of, no_effects};
pub use gate_reads::reads;
pub use laws::rule_is_irredundant;
pub use numbers::Numbers;
pub use sets::{ReadSet, ReadSets, Reads};
pub use sufficient_bits::{permits, permits_output};
pub use whole_rows::filled_rows;
pub use words::{bits_below, has_bit, numbers_of, with_bit};
