//! Worked texts of BLIF, with the first fault of each, with none where a text only reaches a limit, or with the network
//! that is read.
//!
//! Each is a law, the contract of a function that does nothing. So another reading of a line, a word or a limit is
//! refused by the check. The definitions are those of `net_core` and `blif_in`; `specs/Worked` has what the texts
//! share.
#![tactic(auto)]

mod worked;

pub use worked::{
    worked_beginnings, worked_clocks, worked_forms, worked_gate_limit, worked_limits,
    worked_orders, worked_reaches, worked_rows, worked_structures, worked_texts,
};
