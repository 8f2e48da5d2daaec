//! The shift register of a definite machine.
//!
//! [`shift`] makes the machine that a command works on, and refuses it in three cases:
//!
//! - for every length, some word of that length keeps two states apart;
//! - the register has too many bits;
//! - no word of as many symbols as the order ends in the reset state.
//!
//! Otherwise it gives the network of the register with two comments, the second of which gives the order.
//! [`register_of_work`] gives the order and the network, on a machine that is there already.
//!
//! `specs/Causes` says which refusals a machine calls for, in their order, and `specs/ShiftText` what holds of
//! the network and its text. The laws of `specs/Laws` say that all refusals that `shift` calls for have one
//! answer ([`shift_has_one_answer`]).
#![tactic(auto)]

mod comments;
mod laws;
mod networks;
mod orders;
mod registers;

pub use laws::shift_has_one_answer;
pub use registers::{OrderedRegister, register_of_work, shift};
