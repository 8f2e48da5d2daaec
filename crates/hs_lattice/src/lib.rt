//! Worlds of values that can be joined, and listings of their values.
//!
//! A [`JoinWorld`] is a finite semilattice with a bottom and a total order on its values. It keeps values as
//! items of any type; contracts speak of what an item means, which is plain data. Several kinds of values of
//! this product are such worlds, so what is proved of any world is proved once. The definitions are in
//! `specs/`:
//!
//! - `JoinWorld` says when a value is a join of some list of generators.
//! - `Listing` says what a whole listing is, and what is evidence of more than a limit.
//! - `Laws` says that a property of the least value and of the generators that joins keep is a property of
//!   every generated value.
//! - `Inner` is for private functions only.
//!
//! A [`Collection`] keeps different values as it grows, and says of each item whether its value is already
//! there. It also has the places of its items in ascending order. A value is found by halving these places, so
//! an insertion moves numbers and not items. In the end items change places, at most once for each place.
//! `specs/Collection.antt` says what a collection is and what an addition changes.
//!
//! [`join_closure`] lists the joins of all lists of generators, and is proved once for every world. It first
//! puts the generators into ascending order, equal ones only once. At first only the least value is known. Then
//! each generator passes over the values known so far, and the join with each of them becomes known. So the
//! known values are always the joins of lists of the generators that have passed.
//!
//! The known values are closed under joins with these generators. For the values known before a pass this is
//! the induction hypothesis. A new value is x + g; its join with an earlier generator h is (x + h) + g, and its
//! join with g is x + g. A generator that is known already is a join of earlier ones, so the known values are
//! closed under joins with it too, and it needs no pass.
//!
//! In the end each list of generators has a join, and this join is known, by induction on the list. The join of
//! the empty list is the least value. That of a longer list is the join of its first generator and of a value
//! that is known already.
//!
//! An order that puts finer values first lets more generators be known when their turn comes; the result does
//! not depend on that. If a listing is whole there is no evidence of more than the limit, and the other way
//! round.
#![tactic(auto)]

mod arrangement;
mod closure;
mod collection;
mod world;

pub use closure::{generated_fit, join_closure};
pub use collection::Collection;
use hs_list::Items;
pub use world::JoinWorld;

/// The members of a set in ascending order, or more of them than were asked for.
#[derive(Drop)]
pub enum Listing<T> {
    /// All members.
    Whole(Items<T>),
    /// One member more than the limit, as evidence that there are more than the limit.
    More(Items<T>),
}
