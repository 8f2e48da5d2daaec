//! The closed partitions of a machine's states, after Hartmanis and Stearns.
//!
//! A partition is closed where states that are together go, for each symbol, to states that are together.
//! [`principal`] gives the least closed partition that holds two states together. [`all`] lists the closed
//! partitions in order, as the joins of these least ones, and [`atoms`] the least of them other than zero.
//! [`principals_within`] gives the least ones of the pairs of states that another partition holds together.
//! [`below`], [`apart`] and [`separating`] join the least ones of pairs of states, one pair after another, as
//! far as a condition allows. One pass is enough: where a partition meets a condition, so does each smaller one.
//! [`Principals`] keeps the least ones over several such growths of one machine.
//!
//! That joins of closed partitions are closed, and that each closed partition is such a join, are the clauses
//! of [`closed_are_joins`].
//!
//! `specs/ClosedPartitions` says what a closed partition is and which one is the least that holds two states together,
//! `specs/Limits` how far closed partitions grow and what a growth is for: no closed partition
//! strictly above it meets the condition. `specs/KnownPrincipals` says what is kept over growths. `specs/Inner` is only
//! for private functions.
#![tactic(auto)]

mod closure;
mod growth;
mod known_principals;
mod laws;
mod listing;
mod next_pairs;
mod principal_list;

pub use closure::principal;
pub use growth::{apart, below, separating};
pub use known_principals::Principals;
pub use laws::{closed_are_joins, one_is_principal};
pub use listing::{all, atoms};
pub use principal_list::principals_within;
