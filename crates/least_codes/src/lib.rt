//! Least reads and least codes: the fewest bits that a gate needs, and the code whose latches read the fewest.
//!
//! [`least_reads`] gives a set of candidates that permits what a gate gives. No smaller set of candidates
//! permits it, and among the sets of its size that do, it has the first ascending list. The set may be empty: a
//! gate that gives the same at all states reads no bit.
//!
//! [`split`] gives the least code of a machine of 3 to 8 states, one part for each bit. It is chosen among the
//! codes of as few bits as the states need that differ for different states. Such codes cost the sum, over
//! their latches, of the sizes of least sets among all bits. The least code costs the least. Of those that cost
//! the same it has the first texts, state by state, bit 0 first and 0 before 1.
//!
//! `specs/LeastReads` says what least sets are, `specs/Cost` what codes cost, `specs/LeastCode` which code is
//! the least, and `specs/Kind` what its split is. The functions of `laws` promise what follows: the machine
//! determines the least code and its split, whose parts distinguish all states. With codes as short as these,
//! the rule by which gates read, defined in `dependence`, ends at a least set. What is in `specs/Inner` serves
//! private functions and proofs alone.
//!
//! Codes are tried in the order of their texts, and a code replaces the best so far only if it costs less.
//! Inverting one bit in all codes changes no agreement of two states, and so no cost. Hence the bits of state 0
//! are 0 in the least code, and no other codes are tried. For each two states, the machine is asked only once
//! where its symbols lead them.
#![tactic(auto)]

mod bit_parts;
mod choice;
mod code;
mod cost;
mod laws;
mod least_split;
mod reads;
mod table;
mod two_states;

pub use dependence::Bit;
pub use laws::{
    all_bits_permit, choice_is_one, least_code_exists, least_reads_are_one, parts_tell_all,
    rule_gives_least,
};
pub use least_split::split;
pub use reads::least_reads;
