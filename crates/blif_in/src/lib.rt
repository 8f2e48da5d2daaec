//! Reads BLIF texts.
//!
//! [`read()`] gives the network that a text denotes, if it is sound and within the limits, or else the first
//! fault of the text with its line and kind. [`read_ordered()`] gives with the network an order of its gates, which
//! the check that it is sound finds, so that a caller who runs the network need not check it again. `net_core`
//! defines what a text denotes, which networks are sound, what an order is, and the limits. This crate defines
//! which fault is the first: `specs/Faults.antt` for a statement, given those before it, and `specs/Text.antt` for
//! the whole text. Its laws say that a text denotes such a network or has a first fault, and never both; the crate
//! `blif_laws` has worked texts. `specs/Inner` is for private functions only.
//!
//! The reader takes one line at a time, and keeps no line that it has read. It works in layers, each with a
//! contract of its own. `joined_lines` gives the joined lines that are statements, one after another. `standing` gives
//! the fault of a statement, after a summary of those before it, and `progress` keeps that summary and the clock.
//! `draft` adds the statement to the network. `reader` combines these, checks that the clock is not driven,
//! and puts the gates of the network in order.
#![tactic(auto)]

mod draft;
mod fault;
mod joined_lines;
mod laws;
mod progress;
mod reader;
mod standing;
mod statement;

pub use fault::{BlifFail, BlifFault, BlifKind, NetLimit};
pub use laws::{faultless_denotes, one_fault};
pub use reader::{OrderedNetwork, read, read_ordered};
