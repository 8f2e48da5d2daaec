ghost use Rattle.std.specs.Prelude.{
  ◌≡◌,
  ◌≢◌,
  ℕ,
  ◌+◌,
  ◌^◌,
  ◌<◌,
  ◌≤◌,
  ◌-◌,
  ◌↔◌,
  List,
  [],
  ◌∷◌,
  ◌++◌,
  Option,
  Some,
  None,
  IsErr,
  IsErrOf,
  is_err,
  IfSome,
  IfNone,
  OnOk,
  OnErr,
  take,
  length,
  vec_len,
  ⊤,
  if◌then◌else◌,
};
ghost use Rattle.std.specs.Option.{option_copied};
ghost use Rattle.std.specs.Map.{lookup};
ghost use Rattle.std.specs.Str.{bytes_eq};
ghost use Rattle.hs_io.specs.Counts.{next_count, Rose};
ghost use Rattle.hs_io.specs.ShelfState.{ShelfState, held, FailsNext, Replaces};
ghost use Rattle.hs_io.specs.Inner.Places.{HoldsAlso, IsPlaceOf};

use crate::{LoadFail, Name, Shelf};
use hs_list::Items;
use std::alloc::{AllocError, Global};
use std::marker::Model;

/// A shelf in memory. It grants every name.
#[derive(Drop)]
pub struct MemShelf {
    alloc: Global,
    texts: Vec<Text>,
    failing: Vec<u64>,
    loads: u64,
    faults: u64,
}

/// A name and the bytes under it.
type Text = (Name, Items<u8>);

impl Model for MemShelf {
    ghost use Rattle.hs_io.specs.ShelfState.{ShelfState};

    ghost Value = { ShelfState };

    ghost view = { λ s.
        record { texts = s.texts.items; failing = s.failing.items; loads = s.loads; faults = s.faults } };
}

impl MemShelf {
    /// A shelf with no names. It keeps the allocator, and takes no memory.
    pub fn new(alloc: Global) -> MemShelf
        ensures { result ≡ record { texts = []; failing = []; loads = 0; faults = 0 } }
    {
        MemShelf {
            alloc,
            texts: Vec::new(alloc),
            failing: Vec::new(alloc),
            loads: 0,
            faults: 0,
        }
    }

    /// Puts the bytes under a name, instead of what it held.
    pub fn add(&mut self, name: &[u8], bytes: &[u8]) -> Result<(), AllocError>
        ensures ok { OnOk result (Replaces self.old self.new name.now bytes.now) }
        ensures err { OnErr result (self.new ≡ self.old) }
    {
        put_text(self.alloc, &mut self.texts, name, bytes)
    }

    /// Lists one more load that is to fail, by its number counted from 1.
    pub fn fail_at(&mut self, call: u64) -> Result<(), AllocError>
        requires first { 1 ≤ call }
        requires before_last { call < 2 ^ 64 - 1 }
        ensures ok { OnOk result (self.new ≡ record self.old { failing = self.old.failing ++ call ∷ [] }) }
        ensures err { OnErr result (self.new ≡ self.old) }
    {
        self.failing.push(call)?;
        Ok(())
    }
}

impl Shelf for MemShelf {
    ghost holds = { held };

    ghost grants = { λ _ _. ⊤ };

    ghost faults = { λ s. s.faults };

    fn load(&mut self, name: &[u8], limit: usize, into: &mut Vec<u8>) -> Result<(), LoadFail>
        requires empty { into.old.items ≡ [] }
        requires limited { limit < 2 ^ 32 }

        ensures within { OnOk result (vec_len into.new ≤ limit) }
        ensures whole { OnOk result (IfSome (held self.old name.now) (λ bytes. into.new.items ≡ bytes)) }
        ensures one_more { IsErrOf result LoadFail.TooLong → vec_len into.new ≡ limit + 1 }
        ensures front { IsErrOf result LoadFail.TooLong
            → IfSome (held self.old name.now) (λ bytes. into.new.items ≡ take (limit + 1) bytes) }
        ensures longer { IsErrOf result LoadFail.TooLong
            → IfSome (held self.old name.now) (λ bytes. limit < length bytes) }
        ensures never_falls { self.old.faults ≤ self.new.faults }

        // It fails exactly at a listed load and at a name that the shelf does not have, and counts only these.
        ensures fails { IsErrOf result LoadFail.Failed ↔ FailsNext self.old name.now }
        ensures counted { FailsNext self.old name.now → self.new.faults ≡ next_count self.old.faults }
        ensures not_counted { ¬ FailsNext self.old name.now → self.new.faults ≡ self.old.faults }
        ensures texts { self.new.texts ≡ self.old.texts }
        ensures failing { self.new.failing ≡ self.old.failing }
        ensures loads { self.new.loads ≡ next_count self.old.loads }
    {
        self.loads = self.loads.saturating_add(1);
        let listed = self.failing.contains(&self.loads);
        match held_bytes(&self.texts, name) {
            Some(text) if !listed => copy(text, limit, into),
            _ => {
                self.faults = self.faults.saturating_add(1);
                Err(LoadFail::Failed)
            }
        }
    }
}

/// Puts the bytes under a name, instead of what it held.
fn put_text(
    alloc: Global,
    texts: &mut Vec<Text>,
    name: &[u8],
    bytes: &[u8],
) -> Result<(), AllocError>
    ensures ok { OnOk result (HoldsAlso texts.old.items texts.new.items name.now bytes.now) }
    ensures err { OnErr result (texts.new.items ≡ texts.old.items) }
{
    let copy = Items::from(Vec::from_slice(alloc, bytes)?);
    match place_of(texts, name) {
        Some(place) => texts[place].1 = copy,
        None => {
            let name = Name::new(alloc, name)?;
            texts.push((name, copy))?;
        }
    }
    Ok(())
}

/// The place of the text with this name.
fn place_of(texts: &[Text], name: &[u8]) -> Option<usize>
    ensures { IsPlaceOf texts.now name.now result }
{
    for (place, text) in texts.iter().enumerate() {
        if name == text.0.bytes() {
            return Some(place);
        }
    }
    None
}

/// The bytes under a name.
fn held_bytes<'a>(texts: &'a [Text], name: &[u8]) -> Option<&'a [u8]>
    ensures { option_copied result ≡ lookup (bytes_eq name.now) texts.now }
{
    match place_of(texts, name) {
        Some(place) => Some(texts[place].1.as_slice()),
        None => None,
    }
}

/// Copies a text, or the front of it that shows that it is longer than the limit.
fn copy(text: &[u8], limit: usize, into: &mut Vec<u8>) -> Result<(), LoadFail>
    requires empty { into.old.items ≡ [] }
    requires limited { limit < 2 ^ 32 }
    ensures whole { OnOk result ((into.new.items ≡ text.now) × (length text.now ≤ limit)) }
    ensures too_long { IsErrOf result LoadFail.TooLong → (into.new.items ≡ take (limit + 1) text.now)
        × (limit < length text.now) }
    ensures told { result ≢ Err LoadFail.Failed }
{
    if text.len() <= limit {
        into.extend_from_slice(text)?;
        return Ok(());
    }
    into.extend_from_slice(&text[..limit + 1])?;
    Err(LoadFail::TooLong)
}
