//! The Mm pairs of a machine, after Hartmanis and Stearns.
//!
//! (p, q) is an Mm pair where q is m(p), the least partition that p makes a pair with, and p is M(q), the
//! greatest partition that makes a pair with q. So each side decides the other, and Mm pairs are ordered by
//! their right sides. The join of two right sides is a right side again, since m keeps joins: so Mm pairs are
//! values of a world that can be joined, [`MmWorld`]. [`all`] lists the right sides, as joins of the partitions
//! m(hold(s, t)), where hold(s, t) holds the states s and t together and nothing else. Then it makes M of each
//! right side that is listed.
//!
//! [`top_right`] joins the right sides of two states as long as the join is strictly below one, so that no
//! right side is strictly between its result and one.
//!
//! That joins of Mm pairs are Mm pairs, and that each Mm pair is such a join, are the clauses of
//! [`mm_pairs_are_joins`].
//!
//! `specs/Sides` says how contracts see an [`MmPair`], `specs/MmPairs` has the Mm pairs, their order, their
//! least one and their joins, `specs/Generators` the right sides of two states, and `specs/Top` the greatest
//! right sides strictly below one. What is in `specs/Inner` serves private functions alone.
#![tactic(auto)]

mod laws;
mod listing;
mod placed_pairs;
mod right_sides;
mod top;
mod worlds;

pub use laws::mm_pairs_are_joins;
pub use listing::all;
pub use top::top_right;
pub use worlds::{MmPair, MmWorld};
