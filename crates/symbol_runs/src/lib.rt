//! Machines and networks that run on symbols.
//!
//! [`walk`] gives the answers of a machine, from its reset state on, to the symbols of a file, and [`sim`]
//! those of a network, from its start on. What is loaded first is judged first: [`judge_start`] judges the
//! start of a network before its symbols are loaded.
//!
//! `specs/Starts` says which networks have a start, `specs/Causes` what calls for a refusal, and `specs/Texts`
//! what the text of a machine is. The text of a network is that of a run of `net_sim`.
#![tactic(auto)]

mod lines;
mod networks;
mod walks;

pub use networks::{judge_start, sim};
pub use walks::walk;
