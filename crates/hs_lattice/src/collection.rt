//! Lists of different values, and their places in ascending order.

ghost use Rattle.std.specs.Prelude.{
  ◌≡◌,
  ◌↔◌,
  length,
  All,
  AllPairs,
  Any,
  IfOk,
  OnOk,
  IfSome,
  IfNone,
  IsTrue,
  slice_index_or,
};
ghost use Rattle.hs_lattice.specs.Collection.{items_in, Adds, IsAscending, IsCollection, IsEmpty, IsOrder, Knows};
ghost use Rattle.hs_lattice.specs.Places.{IsInsertionPlace};

use crate::JoinWorld;
use crate::arrangement::arrange;
use hs_list::Items;
use std::alloc::{AllocError, Global};
use std::marker::Model;

/// Different values of a world, in the order in which they were added, and their places in ascending order.
#[derive(Drop)]
pub struct Collection<T> {
    items: Vec<T>,
    order: Vec<usize>,
}

impl<T> Model for Collection<T> {
    ghost use Rattle.hs_lattice.specs.Collection.{ItemsAndOrder};

    ghost Value = { ItemsAndOrder T };

    ghost view = { λ c. record { items = c.items.items; order = c.order.items } };
}

/// The place among the ordered places at which the next item belongs, or None if there is already an item of
/// its value.
fn place_for<W: JoinWorld>(
    world: &W,
    items: &[W::Item],
    order: &[usize],
    item: &W::Item,
) -> Option<usize>
    requires world { W.lawful world.now }
    requires items_fit { All (λ x. W.fits world.now (W.meaning x)) items.now }
    requires item_fits { W.fits world.now (W.meaning item.now) }
    requires order { IsOrder (λ x y. W.precedes world.now (W.meaning x) (W.meaning y)) items.now order.now }
    ensures known { IfNone result (Knows W.meaning items.now (W.meaning item.now)) }
    ensures new { IfSome result (IsInsertionPlace (λ i j. W.precedes world.now
        (W.meaning (slice_index_or items.now i item.now)) (W.meaning (slice_index_or items.now j item.now)))
        order.now (length items.now)) }
{
    let mut low = 0;
    let mut high = order.len();
    while low < high {
        let middle = low + (high - low) / 2;
        if world.before(&items[order[middle]], item) {
            low = middle + 1;
        } else {
            high = middle;
        }
    }
    if low < order.len() && world.same(&items[order[low]], item) {
        None
    } else {
        Some(low)
    }
}

impl<T: Drop> Collection<T> {
    /// No values. It keeps the allocator, and takes no memory.
    pub fn new(alloc: Global) -> Self
        ensures { IsEmpty result }
    {
        Collection {
            items: Vec::new(alloc),
            order: Vec::new(alloc),
        }
    }

    /// The number of the values.
    pub fn len(&self) -> usize
        ensures { result ≡ length (items_in self.now) }
    {
        self.items.len()
    }

    /// Lends the items in the order in which they were added.
    pub fn as_slice(&self) -> &[T]
        ensures { result.now ≡ items_in self.now }
    {
        self.items.as_slice()
    }

    /// Whether one of the items has the value of this item.
    pub fn holds<W: JoinWorld<Item = T>>(&self, world: &W, item: &T) -> bool
        requires world { W.lawful world.now }
        requires collection { IsCollection W.meaning (W.fits world.now) (W.precedes world.now) self.now }
        requires item { W.fits world.now (W.meaning item.now) }
        ensures { IsTrue result ↔ Knows W.meaning (items_in self.now) (W.meaning item.now) }
    {
        place_for(world, self.items.as_slice(), self.order.as_slice(), item).is_none()
    }

    /// Adds an item at the end, unless one of the items has its value.
    ///
    /// If memory runs out, nothing is known of the items.
    pub fn add<W: JoinWorld<Item = T>>(&mut self, world: &W, item: T) -> Result<(), AllocError>
        requires world { W.lawful world.now }
        requires collection { IsCollection W.meaning (W.fits world.now) (W.precedes world.now) self.old }
        requires item { W.fits world.now (W.meaning item) }
        ensures collection { OnOk result (IsCollection W.meaning (W.fits world.now) (W.precedes world.now) self.new) }
        ensures adds { OnOk result (Adds W.meaning (items_in self.old) (W.meaning item) (items_in self.new)) }
    {
        if let Some(place) = place_for(world, self.items.as_slice(), self.order.as_slice(), &item) {
            let last = self.items.len();
            self.items.push(item)?;
            self.order.insert(place, last)?;
        }
        Ok(())
    }

    /// The items in ascending order, each moved to its place.
    pub fn ascending<W: JoinWorld<Item = T>>(
        self,
        alloc: Global,
        world: &W,
    ) -> Result<Items<T>, AllocError>
        requires world { W.lawful world.now }
        requires collection { IsCollection W.meaning (W.fits world.now) (W.precedes world.now) self }
        ensures ascending { IfOk result (IsAscending W.meaning (W.precedes world.now)) }
        ensures values { IfOk result (λ list. (z : W.Meaning)
            → Knows W.meaning list z ↔ Knows W.meaning (items_in self) z) }
        ensures count { IfOk result (λ list. length list ≡ length (items_in self)) }
    {
        let mut items = self.items;
        arrange(alloc, items.as_mut_slice(), self.order.as_slice())?;
        Ok(Items::from(items))
    }
}
