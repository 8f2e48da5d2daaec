//! Bundles of patterns.
ghost use Rattle.std.specs.Prelude.{ℕ, ◌≡◌, ◌<◌, ◌≤◌, ◌↔◌, IfOk, IsTrue, Some, false, length, slice_get, true};
ghost use Rattle.std.specs.Int.{bit_at};
ghost use Rattle.pattern_bundles.specs.declared.pattern.Pattern.{Pattern};
ghost use Rattle.pattern_bundles.specs.Pattern.{Agree, Marks};
ghost use Rattle.pattern_bundles.specs.Inner.Plane.{Allows, AreFirst, ArePlanes, ArePlanes-prop};

use crate::Pattern;
use crate::marks::take_first;
use std::alloc::{AllocError, Global};
use std::marker::Model;

/// The patterns of a bundle that allow a 0 at one place, and those that allow a 1. A pattern with a dash there allows
/// both.
#[derive(Clone, Copy)]
struct Plane {
    zeros: u64,
    ones: u64,
}

impl Plane {
    ghost use Rattle.std.specs.Prelude.{◌≡◌, if◌then◌else◌};

    /// The patterns that allow the bit.
    fn allowing(self, one: bool) -> u64
        ensures { result ≡ (if one then self.ones else self.zeros) }
    {
        if one { self.ones } else { self.zeros }
    }
}

/// At most 64 patterns. Contracts see the bundle as the list of them.
#[derive(Drop)]
pub struct Bundle {
    patterns: Vec<Pattern>,
    /// One for each place, up to the last place at which some pattern has no dash.
    planes: Vec<Plane>,
    ghost told: { ArePlanes patterns.items planes.items } by { ArePlanes-prop patterns.items planes.items },
}

impl Model for Bundle {
    ghost use Rattle.std.specs.Prelude.{List};
    ghost use Rattle.pattern_bundles.specs.declared.pattern.Pattern.{Pattern};

    ghost Value = { List Pattern };

    ghost view = { λ b. b.patterns.items };
}

/// All places at which some pattern has no dash.
fn places_with_bits(patterns: &[Pattern]) -> u64
    ensures { (k place : ℕ) (p : Pattern) → slice_get patterns.now k ≡ Some p → bit_at p.care place ≡ 1
        → bit_at result place ≡ 1 }
{
    let mut care = 0u64;
    for pattern in patterns {
        care |= pattern.care;
    }
    care
}

/// The number of places up to the last one with a 1.
fn count_of_places(care: u64) -> usize
    ensures within { result ≤ 64 }
    ensures none { (place : ℕ) → result ≤ place → bit_at care place ≡ 0 }
{
    for places in 0..64 {
        if care >> places == 0 {
            return places;
        }
    }
    64
}

/// Whether the pattern allows the bit at the place.
fn allows(pattern: &Pattern, place: usize, one: bool) -> bool
    requires { place < 64 }
    ensures { IsTrue result ↔ Allows place one pattern.now }
{
    let bit = (pattern.value >> place) & 1 == 1;
    (pattern.care >> place) & 1 == 0 || bit == one
}

/// Marks the patterns that allow the bit at the place.
fn allowing(patterns: &[Pattern], place: usize, one: bool) -> u64
    requires few { length patterns.now ≤ 64 }
    requires place { place < 64 }
    ensures { Marks patterns.now (Allows place one) result }
{
    let mut marks = 0u64;
    for k in 0..patterns.len() {
        if allows(&patterns[k], place, one) {
            marks |= 1u64 << k;
        }
    }
    marks
}

/// Marks all of that many items.
fn all_of(count: usize) -> u64
    requires { count ≤ 64 }
    ensures { AreFirst count result }
{
    if count == 64 {
        u64::MAX
    } else {
        (1u64 << count) - 1
    }
}

impl Bundle {
    /// The bundle of at most 64 patterns.
    pub fn new(alloc: Global, patterns: &[Pattern]) -> Result<Bundle, AllocError>
        requires few { length patterns.now ≤ 64 }
        ensures { IfOk result (λ bundle. bundle ≡ patterns.now) }
    {
        let places = count_of_places(places_with_bits(patterns));
        let mut planes = Vec::with_capacity(alloc, places)?;
        for place in 0..places {
            planes.push(Plane {
                zeros: allowing(patterns, place, false),
                ones: allowing(patterns, place, true),
            })?;
        }
        Ok(Bundle {
            patterns: Vec::from_slice(alloc, patterns)?,
            planes,
        })
    }

    /// Marks the patterns of the bundle that agree with the pattern.
    pub fn agreeing(&self, pattern: Pattern) -> u64
        ensures { Marks self.now (Agree pattern) result }
    {
        let mut marks = all_of(self.patterns.len());
        let mut places = pattern.care;
        while let Some(place) = take_first(&mut places) {
            if marks == 0 {
                return 0;
            }
            if place >= self.planes.len() {
                return marks;
            }
            marks &= self.planes[place].allowing((pattern.value >> place) & 1 == 1);
        }
        marks
    }
}
