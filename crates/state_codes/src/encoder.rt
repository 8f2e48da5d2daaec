//! The code of each state, and the two refusals.

ghost use Rattle.std.specs.Prelude.{◌≡◌, ℕ, ◌<◌, ◌≤◌, ◌↔◌, ◌⊎◌, All, length, IfOk, IfSome, IfNone, IsTrue};
ghost use Rattle.partition.specs.Partition.{IsStateCount, Le};
ghost use Rattle.state_codes.specs.declared.CodeFail.{CodeFail};
ghost use Rattle.state_codes.specs.Split.{IsPart, TogetherInAll};
ghost use Rattle.state_codes.specs.Code.{need, AreInside, places_of, IsCode};
ghost use Rattle.state_codes.specs.Agreement.{AreDistinct};
ghost use Rattle.state_codes.specs.Fault.{AreApart, FirstPartner, FirstTogether, CodeFault};

use crate::draft::written;
use crate::{CodeFail, Codes, Part, Split};
use partition::Partition;
use std::alloc::{AllocError, Global};

/// The number of bits of a word: a code fits into one word.
const MOST_BITS: usize = 64;

/// The codes that a split gives to n states. It first refuses a split of which two states are together in all
/// parts, and then one whose codes are too long.
pub fn encode(alloc: Global, split: &Split, n: usize) -> Result<Codes, CodeFail>
    requires states { IsStateCount n }
    requires count { length split.now.parts ≤ 256 }
    requires parts { All (IsPart n) split.now.parts }
    ensures code { IfOk result (λ codes. IsCode n split.now.parts codes) }
    ensures distinct { IfOk result (λ codes. AreDistinct n codes.words) }
    ensures short { IfOk result (λ codes. codes.bits ≤ 64) }
    ensures refused { (fail : CodeFail) → result ≡ Err fail
        → (fail ≡ CodeFail.NoMemory) ⊎ CodeFault n split.now.parts fail }
    ensures caused { (fail : CodeFail) → CodeFault n split.now.parts fail
        → (result ≡ Err fail) ⊎ (result ≡ Err CodeFail.NoMemory) }
{
    let parts = split.parts.as_slice();
    if let Some((s, t)) = first_together(parts, n) {
        return Err(CodeFail::NotApart {
            s: s as u16,
            t: t as u16,
        });
    }
    let table = inner_labels(alloc, parts)?;
    let inners = table.as_slice();
    let bits = length_of(parts, inners);
    if bits > MOST_BITS {
        return Err(CodeFail::CodeTooLong { bits });
    }
    Ok(written(alloc, parts, inners, n)?)
}

/// The first two states that are together in all parts.
fn first_together(parts: &[Part], n: usize) -> Option<(usize, usize)>
    requires { All (IsPart n) parts.now }
    ensures some { IfSome result (λ pair. FirstTogether n parts.now pair.0 pair.1) }
    ensures none { IfNone result (AreApart n parts.now) }
{
    for s in 0..n {
        if let Some(t) = first_partner(parts, n, s) {
            return Some((s, t));
        }
    }
    None
}

/// The least state above s that is together with it in all parts.
fn first_partner(parts: &[Part], n: usize, s: usize) -> Option<usize>
    requires parts { All (IsPart n) parts.now }
    requires s { s < n }
    ensures some { IfSome result (λ t. FirstPartner n parts.now s t) }
    ensures none { IfNone result ((t : ℕ) → s < t → t < n → TogetherInAll parts.now s t → ⊥) }
{
    for t in s + 1..n {
        if together_in_all(parts, s, t) {
            return Some(t);
        }
    }
    None
}

/// Whether two states are together in all parts.
fn together_in_all(parts: &[Part], s: usize, t: usize) -> bool
    requires s { All (λ part. s < length part.partition) parts.now }
    requires t { All (λ part. t < length part.partition) parts.now }
    ensures { IsTrue result ↔ TogetherInAll parts.now s t }
{
    parts.iter().all(|part| part.partition.same(s, t))
}

/// For each part the labels of its partition inside its carrier.
fn inner_labels(alloc: Global, parts: &[Part]) -> Result<Vec<Partition>, AllocError>
    requires length { All (λ part. length part.partition ≡ length part.carrier) parts.now }
    requires above { All (λ part. Le part.partition part.carrier) parts.now }
    ensures { IfOk result (λ inners. AreInside parts.now inners.items) }
{
    let mut inners = Vec::with_capacity(alloc, parts.len())?;
    for part in parts {
        let inner = part.carrier.inside(alloc, &part.partition)?;
        inners.push(inner)?;
    }
    Ok(inners)
}

/// The number of bits of a code.
fn length_of(parts: &[Part], inners: &[Partition]) -> usize
    requires count { length parts.now ≤ 256 }
    requires inners { length inners.now ≡ length parts.now }
    ensures { result ≡ length (places_of 0 parts.now inners.now) }
{
    let mut bits = 0;
    for (j, part) in parts.iter().enumerate() {
        bits += needed_bits(part.carrier.blocks()) + needed_bits(inners[j].blocks());
    }
    bits
}

/// The least number of bits that distinguish this number of blocks.
pub(crate) fn needed_bits(blocks: usize) -> usize
    ensures need { result ≡ need blocks }
    ensures few { result ≤ 64 }
{
    for bits in 0..64 {
        if blocks <= 1 << bits {
            return bits;
        }
    }
    64
}
