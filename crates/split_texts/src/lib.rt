//! The decompositions of a machine, of every kind: the split, its codes, and its network.
//!
//! `specs/Kinds` is the one table of the kinds. Its row for a kind says:
//!
//! - what the kind refuses before a split is sought;
//! - what it asks of its parts, what makes them best, and which of several right lists of parts it takes;
//! - for which machines there are no parts;
//! - what it promises of codes and gates, besides what holds for every kind.
//!
//! [`plan`] follows this table for every kind, so that a new kind is one row there, the proof that the row is
//! sound (`specs/Laws/Kinds`), and one call. `specs/Splits` says what a plan is, and why there may be none. A plan
//! does not know yet whether its parts distinguish all states: given parts may not. The codes show it.
//!
//! [`decompose`] makes the machine that a command works on, plans its split, and gives its network with the header
//! that explains it; [`decompose_work`] does so on a machine that is there already. [`codes_of`] gives the codes of a split, or the refusal that says why it has none, and
//! [`network_of_codes`] gives its network. `specs/Causes` says which refusals a machine without a decomposition calls
//! for, in their order. `specs/SplitText` says what holds of the network, its header and their text; it is the
//! headline. `specs/LeastNetwork` has the promises of the least code.
#![tactic(auto)]

mod decompositions;
mod networks;
mod plans;

pub use decompositions::{decompose, decompose_work};
pub use networks::{codes_of, network_of_codes, network_of_plan};
pub use plans::plan;
