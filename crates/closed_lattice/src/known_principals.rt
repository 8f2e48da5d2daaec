//! The least closed partitions of pairs of states that are known already.

ghost use Rattle.std.specs.Prelude.{◌≡◌, All, IfOk, IfSome, IsTrue, OnOk, length};
ghost use Rattle.closed_lattice.specs.ClosedPartitions.{IsPrincipal};
ghost use Rattle.closed_lattice.specs.KnownPrincipals.{ArePrincipalsOf, IsPrincipalItem};
ghost use Rattle.kiss_file.specs.declared.file.KissFile.{KissFile};

use partition::Partition;
use std::alloc::{AllocError, Global};
use std::marker::Model;

/// The least closed partition that holds two states together.
#[derive(Drop)]
pub struct Item {
    pub s: u16,
    pub t: u16,
    pub least: Partition,
}

impl Item {
    /// Whether it is that of the two states, whichever comes first.
    fn is_of(&self, s: u16, t: u16) -> bool
        ensures { IsTrue result → (F : KissFile) → IsPrincipalItem F self.now → IsPrincipal F s t self.now.least }
    {
        self.s == s && self.t == t || self.s == t && self.t == s
    }
}

/// Least closed partitions of pairs of states of one machine, seen by contracts as the list of them. They are kept from
/// one growth to the next, so that each is made once.
#[derive(Drop)]
pub struct Principals {
    items: Vec<Item>,
    /// For each two states the place of their partition, if it is known.
    places: Vec<usize>,
}

impl Model for Principals {
    ghost use Rattle.std.specs.Prelude.{List};
    ghost use Rattle.closed_lattice.specs.declared.known_principals.Item.{Item};

    ghost Value = { List Item };

    ghost view = { λ k. k.items.items };
}

/// A number for two states, whichever comes first. Numbers of states are below 256.
pub(crate) fn number_of(s: u16, t: u16) -> usize {
    usize::from(s.max(t)) * 256 + usize::from(s.min(t))
}

/// Puts the place at the number of two states, if there is a place for any.
fn put_place(places: &mut [usize], number: usize, place: usize) {
    if number < places.len() {
        places[number] = place;
    }
}

impl Principals {
    /// No partitions, and no places for any.
    pub(crate) fn none(alloc: Global) -> Principals
        ensures { (F : KissFile) → ArePrincipalsOf F result }
    {
        Principals {
            items: Vec::new(alloc),
            places: Vec::new(alloc),
        }
    }

    /// No partitions yet.
    pub fn new(alloc: Global) -> Result<Principals, AllocError>
        ensures { IfOk result (λ kept. (F : KissFile) → ArePrincipalsOf F kept) }
    {
        Ok(Principals {
            items: Vec::new(alloc),
            places: vec![in alloc; 0; 65536]?,
        })
    }

    /// The item at the place of the two states, if there is one.
    fn item(&self, s: u16, t: u16) -> Option<&Item>
        ensures { IfSome result (λ item. (F : KissFile) → ArePrincipalsOf F self.now → IsPrincipalItem F item.now) }
    {
        let place = self.places.get(number_of(s, t))?;
        self.items.get(*place)
    }

    /// The one that holds the two states together, if it is known.
    pub(crate) fn find(&self, s: u16, t: u16) -> Option<&Partition>
        ensures { IfSome result (λ p. (F : KissFile) → ArePrincipalsOf F self.now → IsPrincipal F s t p.now) }
    {
        let item = self.item(s, t)?;
        if item.is_of(s, t) {
            Some(&item.least)
        } else {
            None
        }
    }

    /// Keeps a copy of the one that holds the two states together.
    pub(crate) fn add(
        &mut self,
        alloc: Global,
        s: u16,
        t: u16,
        least: &Partition,
    ) -> Result<(), AllocError>
        ensures { OnOk result ((F : KissFile) → ArePrincipalsOf F self.old
            → IsPrincipal F s t least.now → ArePrincipalsOf F self.new) }
    {
        let place = self.items.len();
        let least = least.copy(alloc)?;
        self.items.push(Item { s, t, least })?;
        put_place(self.places.as_mut_slice(), number_of(s, t), place);
        Ok(())
    }
}
