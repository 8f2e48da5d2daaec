//! Codes as they are made: bit after bit, for all states at once.

ghost use Rattle.std.specs.Prelude.{
  ◌≡◌,
  ℕ,
  ◌+◌,
  ◌<◌,
  ◌≤◌,
  ◌∷◌,
  [],
  ◌==◌,
  if◌then◌else◌,
  All,
  length,
  slice_index,
  IfOk,
};
ghost use Rattle.std.specs.Int.{bit_at};
ghost use Rattle.partition.specs.Partition.{blocks_of};
ghost use Rattle.state_codes.specs.Split.{IsPart};
ghost use Rattle.state_codes.specs.Code.{need, AreInside, label_places, places_of, IsLaidOut};
ghost use Rattle.state_codes.specs.Inner.Draft.{Adds};

use crate::encoder::needed_bits;
use crate::{BitOwners, CarrierMarks, CodeWords, Codes, Part};
use partition::Partition;
use std::alloc::{AllocError, Global};

/// The bits so far: the word of each state, and the part and the mark of each bit.
#[derive(Drop)]
struct Draft {
    bits: usize,
    words: Vec<u64>,
    owner: BitOwners,
    carried: CarrierMarks,
}

/// The codes of n states, of at most 64 bits.
pub fn written(
    alloc: Global,
    parts: &[Part],
    inners: &[Partition],
    n: usize,
) -> Result<Codes, AllocError>
    requires count { length parts.now ≤ 256 }
    requires parts { All (IsPart n) parts.now }
    requires inside { AreInside parts.now inners.now }
    requires short { length (places_of 0 parts.now inners.now) ≤ 64 }
    ensures { IfOk result (λ codes. IsLaidOut n (places_of 0 parts.now inners.now)
        codes.bits codes.words codes.owner codes.carried) }
{
    let mut draft = Draft {
        bits: 0,
        words: vec![in alloc; 0; n]?,
        owner: BitOwners::new(alloc),
        carried: CarrierMarks::new(alloc),
    };
    for (j, part) in parts.iter().enumerate() {
        put_label(&mut draft, j as u16, true, &part.carrier)?;
        put_label(&mut draft, j as u16, false, &inners[j])?;
    }
    Ok(Codes {
        bits: draft.bits,
        words: CodeWords::from(draft.words),
        owner: draft.owner,
        carried: draft.carried,
    })
}

/// Adds the bits of the labels, the most significant first.
fn put_label(
    draft: &mut Draft,
    part: u16,
    carried: bool,
    labels: &Partition,
) -> Result<(), AllocError>
    requires length { length draft.old.words.items ≡ length labels.now }
    requires room { draft.old.bits + need (blocks_of labels.now) ≤ 64 }
    ensures { IfOk result (λ _. Adds draft.old draft.new
        (label_places part carried labels.now (need (blocks_of labels.now)))) }
{
    for weight in (0..needed_bits(labels.blocks())).rev() {
        put_bit(draft, part, carried, labels, weight)?;
    }
    Ok(())
}

/// Adds one bit of the labels.
fn put_bit(
    draft: &mut Draft,
    part: u16,
    carried: bool,
    labels: &Partition,
    weight: usize,
) -> Result<(), AllocError>
    requires length { length draft.old.words.items ≡ length labels.now }
    requires room { draft.old.bits < 64 }
    requires weight { weight < 64 }
    ensures bits { IfOk result (λ _. draft.new.bits ≡ draft.old.bits + 1) }
    ensures states { IfOk result (λ _. length draft.new.words.items ≡ length draft.old.words.items) }
    ensures written { IfOk result (λ _. Adds draft.old draft.new
        (record { part = part; carried = carried; labels = labels.now; weight = weight } ∷ [])) }
{
    draft.owner.push(part)?;
    draft.carried.push(carried)?;
    set_bits(draft.words.as_mut_slice(), draft.bits, labels, weight);
    draft.bits += 1;
    Ok(())
}

/// Sets the bit `at` of each word where the label of its state has the bit of the given weight.
fn set_bits(words: &mut [u64], at: usize, labels: &Partition, weight: usize)
    requires at { at < 64 }
    requires weight { weight < 64 }
    requires length { length words.old ≡ length labels.now }
    ensures { (s : ℕ) → s < length words.old → bit_at (slice_index words.old s) at ≡ 0
        → (i : ℕ) → bit_at (slice_index words.new s) i
        ≡ (if i == at then bit_at (slice_index labels.now s) weight
        else bit_at (slice_index words.old s) i) }
{
    for (s, word) in words.iter_mut().enumerate() {
        if (u64::from(labels.label(s)) >> weight) & 1 == 1 {
            *word |= 1 << at;
        }
    }
}
