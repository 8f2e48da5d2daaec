//! The partitions of a machine's states that its outputs respect, after Hartmanis and Stearns.
//!
//! A partition is consistent where states that are together have equal outputs for each symbol;
//! [`is_consistent`] decides it, and [`bit_partition`] gives the partition of the states by one output alone.
//! [`all`] lists the partitions that are closed and consistent, in order. Each of them has a machine of its
//! blocks, in which a block answers every word as its members do.
//!
//! The definition of consistent partitions is in `pair_operators`, beside pairs; `specs/Outputs` says which
//! partitions are listed and what the partition by one output is. What is in `specs/Inner` serves private
//! functions alone.
#![tactic(auto)]

mod bits;
mod consistency;
mod listing;

pub use bits::bit_partition;
pub use consistency::is_consistent;
pub use listing::all;
