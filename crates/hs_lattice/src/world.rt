//! The trait of a world of values that can be joined.

ghost use Rattle.std.specs.Prelude.{◌≡◌, ◌↔◌, ◌⊎◌, IfOk, IsTrue};

use std::alloc::{AllocError, Global};

/// A world of values that can be joined, with a bottom and a total order.
///
/// The meaning of an item is its value; two items may have one value. A world may be unlawful, and then nothing
/// is promised of it. An item fits a lawful world if its meaning is one of the world's values. The least value
/// and joins are given by relations, since some worlds define them as the greatest or the least value with
/// some property.
pub trait JoinWorld {
    /// The type of the items, which keep values.
    type Item: Drop;

    /// The type of the values: plain data.
    ghost Meaning: { Type 0 };

    /// The value of an item.
    ghost meaning: { Self.Item → Meaning };

    /// The condition on a world under which the laws below hold.
    ghost lawful: { Self → Type 0 };

    /// The value is one of the world's.
    ghost fits: { Self → Meaning → Type 0 };

    /// `least w x`: x is the least value.
    ghost least: { Self → Meaning → Type 0 };

    /// `joins w x y z`: the join of x and y is z.
    ghost joins: { Self → Meaning → Meaning → Meaning → Type 0 };

    /// `precedes w x y`: x comes before y in the order.
    ghost precedes: { Self → Meaning → Meaning → Type 0 };

    /// The least value.
    fn bottom(&self, alloc: Global) -> Result<Self::Item, AllocError>
        requires { lawful self.now }
        ensures { IfOk result (λ item. least self.now (meaning item)) };

    /// The join of two values.
    fn join(&self, alloc: Global, a: &Self::Item, b: &Self::Item) -> Result<Self::Item, AllocError>
        requires world { lawful self.now }
        requires left { fits self.now (meaning a.now) }
        requires right { fits self.now (meaning b.now) }
        ensures { IfOk result (λ item. joins self.now (meaning a.now) (meaning b.now) (meaning item)) };

    /// The same value again.
    fn copy(&self, alloc: Global, a: &Self::Item) -> Result<Self::Item, AllocError>
        requires world { lawful self.now }
        requires value { fits self.now (meaning a.now) }
        ensures { IfOk result (λ item. meaning item ≡ meaning a.now) };

    /// Whether a comes before b.
    fn before(&self, a: &Self::Item, b: &Self::Item) -> bool
        requires world { lawful self.now }
        requires left { fits self.now (meaning a.now) }
        requires right { fits self.now (meaning b.now) }
        ensures { IsTrue result ↔ precedes self.now (meaning a.now) (meaning b.now) };

    /// Whether a and b have the same value.
    fn same(&self, a: &Self::Item, b: &Self::Item) -> bool
        requires world { lawful self.now }
        requires left { fits self.now (meaning a.now) }
        requires right { fits self.now (meaning b.now) }
        ensures { IsTrue result ↔ (meaning a.now ≡ meaning b.now) };

    /// The least value is one of the world's.
    ghost least_fits: { (w : Self) (x : Meaning) → lawful w → least w x → fits w x };

    /// There is only one least value.
    ghost least_once: { (w : Self) (x other : Meaning) → lawful w → least w x → least w other
        → x ≡ other };

    /// A join of two of the world's values is one of its values.
    ghost joins_fit: { (w : Self) (x y z : Meaning) → lawful w → fits w x → fits w y
        → joins w x y z → fits w z };

    /// Two values have only one join.
    ghost joins_once: { (w : Self) (x y z other : Meaning) → lawful w → fits w x → fits w y
        → joins w x y z → joins w x y other → z ≡ other };

    /// The join is commutative.
    ghost joins_commute: { (w : Self) (x y z : Meaning) → lawful w → fits w x → fits w y
        → joins w x y z → joins w y x z };

    /// The join is associative: (x + y) + z is x + (y + z).
    ghost joins_associate: { (w : Self) (x y z front back all : Meaning) → lawful w
        → fits w x → fits w y → fits w z
        → joins w x y front → joins w front z all → joins w y z back → joins w x back all };

    /// The join is idempotent.
    ghost joins_repeat: { (w : Self) (x : Meaning) → lawful w → fits w x → joins w x x x };

    /// The least value is the unit of the join.
    ghost joins_least: { (w : Self) (x y : Meaning) → lawful w → least w x → fits w y → joins w x y y };

    /// No value comes before itself.
    ghost precedes_irreflexive: { (w : Self) (x : Meaning) → lawful w → fits w x
        → precedes w x x → ⊥ };

    /// The order is transitive.
    ghost precedes_transitive: { (w : Self) (x y z : Meaning) → lawful w
        → fits w x → fits w y → fits w z
        → precedes w x y → precedes w y z → precedes w x z };

    /// Of two different values one comes before the other.
    ghost precedes_total: { (w : Self) (x y : Meaning) → lawful w → fits w x → fits w y
        → precedes w x y ⊎ ((x ≡ y) ⊎ precedes w y x) };
}
