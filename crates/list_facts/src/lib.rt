//! Facts on plain lists that several crates cite, and that the standard library does not state.
//!
//! There is no code. `specs/Laws` has them by their subject: what is at a place of a list, what is in a list,
//! what holds of each of its items, and a text that grows item by item.
#![tactic(auto)]
