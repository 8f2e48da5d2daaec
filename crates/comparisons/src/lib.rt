//! What the networks of a machine cost: the text of `compare`.
//!
//! [`compare`] goes through the kinds of decomposition that need no operand, and then the shift register. For each
//! it makes the network that the command of that name would write, on one work machine, and counts it. Where the
//! command would refuse the machine, the line has the reason instead, so that only want of memory ends the call. One
//! network is kept at a time, and none is written.
//!
//! `specs/Counts` says what is counted of a network and its header, `specs/Lines` which refusal has which reason, and
//! `specs/Comparison` what the seven lines are.
//!
//! The laws say what a reader may conclude from a line. Parts, order, latches and reads are determined, while rows and
//! literals are of one good cover of several ([`counts_are_one`]). So is the reason of a line without counts
//! ([`reasons_are_one`]). No line could have been of the other form ([`never_both`]). Each refusal that can come has a
//! reason ([`refusals_have_reasons`]).
#![tactic(auto)]

mod comparison;
mod laws;
mod lines;
mod network_counts;
mod worked;

pub use comparison::compare;
pub use laws::{counts_are_one, never_both, reasons_are_one, refusals_have_reasons};
pub use worked::{worked_counts, worked_lines};
