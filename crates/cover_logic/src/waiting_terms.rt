//! The terms of a list that lie in no row yet, in bundles: one step asks all terms of a bundle whether a row holds
//! them whole.
ghost use Rattle.std.specs.Prelude.{◌≡◌, ◌-◌, ◌<◌, ◌≤◌, ◌^◌, length};

use crate::bundles::{Bundle, Bundles, Literal, literals_of};
use cover_terms::Term;
use std::alloc::{AllocError, Global};

/// A bundle, and which of its terms are waiting: bit k is for the term at place k.
#[derive(Drop)]
struct Group {
    bundle: Bundle,
    live: u128,
    ghost among: { live < 2 ^ length bundle.entries.items },
}

impl Group {
    ghost use Rattle.std.specs.Prelude.{◌≡◌, ◌≤◌, ◌<◌, ◌↔◌, Contains};
    ghost use Rattle.cover_terms.specs.declared.term.Term.{Term};
    ghost use Rattle.cover_logic.specs.Inner.Entries.{terms_in};
    ghost use Rattle.cover_logic.specs.Inner.Groups.{IsDropped, IsLive, IsTaken};
    ghost use Rattle.cover_logic.specs.Inner.Planes.{AreLiteralsOf};

    /// The bundle with all its terms.
    fn new(bundle: Bundle) -> Group
        ensures { (t : Term) → IsLive result t ↔ Contains (terms_in bundle.entries.items) t }
    {
        let live = first_places(bundle.len());
        Group { bundle, live }
    }

    /// Takes a term that is waiting: the last one.
    fn take_last(&mut self) -> Term
        requires { 0 < self.old.live }
        ensures { IsTaken self.old result self.new }
    {
        let place = 127 - self.live.leading_zeros();
        let term = self.bundle.entries[place as usize].term;
        self.live &= !(1u128 << place);
        term
    }

    /// Drops each term that the row of these literals holds whole.
    fn drop_included(&mut self, literals: &[Literal])
        ensures { (row : Term) → AreLiteralsOf row literals.now → IsDropped row self.old self.new }
    {
        let within = self.bundle.within(self.live, literals);
        self.live &= !within;
    }
}

/// The set of the first `count` places.
fn first_places(count: usize) -> u128
    requires { count ≤ 128 }
    ensures { result ≡ 2 ^ count - 1 }
{
    if count == 128 {
        return u128::MAX;
    }
    (1u128 << count) - 1
}

/// The terms of a list that lie in no row yet. The groups come in the opposite order of the bundles.
#[derive(Drop)]
pub struct Waiting {
    groups: Vec<Group>,
}

impl Waiting {
    ghost use Rattle.std.specs.Prelude.{
      ◌≡◌,
      ◌<◌,
      ◌≤◌,
      ◌↔◌,
      All,
      Contains,
      EachIndex,
      IfOk,
      MatchOption,
      OnOk,
      length,
      slice_index_or,
    };
    ghost use Rattle.cover_terms.specs.declared.term.Term.{Term};
    ghost use Rattle.cover_logic.specs.declared.waiting_terms.Group.{Group};
    ghost use Rattle.cover_terms.specs.Term.{FitsWidth};
    ghost use Rattle.cover_logic.specs.Inner.Groups.{IsFirstLive};
    ghost use Rattle.cover_logic.specs.Inner.WaitingTerms.{HasDropped, HasTaken, IsWaiting};

    /// All terms of the list.
    pub fn new(alloc: Global, terms: &[Term], width: u8) -> Result<Waiting, AllocError>
        requires width { width ≤ 128 }
        requires fits { All (FitsWidth width) terms.now }
        ensures { IfOk result (λ waiting. (t : Term) → IsWaiting waiting t ↔ Contains terms.now t) }
    {
        let all = Bundles::new(alloc, terms, width)?;
        let mut left = all.bundles;
        let mut groups = Vec::new(alloc);
        while let Some(bundle) = left.pop() {
            let group = Group::new(bundle);
            groups.push(group)?;
        }
        Ok(Waiting { groups })
    }

    /// The number of the first group with a live place. No clause says that it is the first.
    fn first_live(&self) -> Option<usize>
        ensures { IsFirstLive self.now.groups.items result }
    {
        for (i, group) in self.groups.iter().enumerate() {
            if group.live != 0 {
                return Some(i);
            }
        }
        None
    }

    /// Takes the last term of the list that is still waiting. No clause says that it is the last.
    pub fn pop(&mut self) -> Option<Term>
        ensures { MatchOption result ((t : Term) → IsWaiting self.old t → ⊥) (λ term. HasTaken self.old term self.new) }
    {
        match self.first_live() {
            Some(i) => Some(self.groups[i].take_last()),
            None => None,
        }
    }

    /// Drops each term that the row holds whole.
    pub fn drop_included(&mut self, alloc: Global, row: Term, width: u8) -> Result<(), AllocError>
        requires width { width ≤ 128 }
        requires fits { FitsWidth width row }
        ensures { OnOk result (HasDropped row self.old self.new) }
    {
        let literals = literals_of(alloc, row, width)?;
        for group in self.groups.iter_mut() {
            group.drop_included(&literals);
        }
        Ok(())
    }
}
