//! What each gate reads.

ghost use Rattle.std.specs.Prelude.{ℕ, ◌≡◌, ◌↔◌, ◌<◌, ◌≤◌, All, IfOk, IsTrue, OnOk, length, slice_index};
ghost use Rattle.state_codes.specs.Code.{IsCode};
ghost use Rattle.state_codes.specs.Split.{IsPart};
ghost use Rattle.dependence.specs.Bit.{IsBit, value_of};
ghost use Rattle.dependence.specs.Candidates.{IsBitOfCode, IsCandidate, IsOpenTo, MayReadPart};
ghost use Rattle.dependence.specs.Inner.Differences.{AreFound};
ghost use Rattle.dependence.specs.Inner.Effects.{AreEffects};
ghost use Rattle.dependence.specs.Effects.{HasPlace};
ghost use Rattle.dependence.specs.Inner.Sets.{AreLatchSets, AreOutputSets};
ghost use Rattle.dependence.specs.SufficientBits.{InWord};
ghost use Rattle.dependence.specs.Reads.{AreReads, IsReadSet};

use crate::bit::Bit;
use crate::differences::Differences;
use crate::effects::{Effect, effects_of, inputs_of};
use crate::read_rule::read_bits;
use crate::words::{bits_below, numbers_of, with_bit};
use crate::{ReadSet, ReadSets, Reads};
use machine_table::Machine;
use state_codes::{Codes, Split};
use std::alloc::{AllocError, Global};

/// What each gate reads, for the codes of the split.
///
/// The candidates of a latch are the bits of its part and the carrier bits of the parts that its part may
/// read. The candidates of an output are all bits. Where the candidates of a gate permit it, the bits that are
/// read permit it too (`rule_is_irredundant`). It fails only for want of memory.
pub fn reads(alloc: Global, m: &Machine, split: &Split, codes: &Codes) -> Result<Reads, AllocError>
    requires parts { All (IsPart (length m.now.states)) split.now.parts }
    requires code { IsCode (length m.now.states) split.now.parts codes.now }
    requires short { codes.now.bits ≤ 64 }
    ensures { IfOk result (AreReads m.now split.now.parts codes.now) }
{
    let effects = effects_of(alloc, m, codes.words.as_slice())?;
    let mut differences = Differences::new(alloc, m.states())?;
    let latches = latch_sets(alloc, m, split, codes, effects.as_slice(), &mut differences)?;
    let outputs = output_sets(alloc, m, codes, effects.as_slice(), &mut differences)?;
    Ok(Reads { latches, outputs })
}

/// What the gate of each latch reads.
fn latch_sets(
    alloc: Global,
    m: &Machine,
    split: &Split,
    codes: &Codes,
    effects: &[Effect],
    differences: &mut Differences,
) -> Result<ReadSets, AllocError>
    requires words { length codes.now.words ≡ length m.now.states }
    requires owner { length codes.now.owner ≡ codes.now.bits }
    requires carried { length codes.now.carried ≡ codes.now.bits }
    requires short { codes.now.bits ≤ 64 }
    requires effects { AreEffects m.now codes.now.words effects.now (length m.now.states) }
    requires found { AreFound m.now codes.now.words differences.old.found.items }
    ensures sets { IfOk result (λ sets. AreLatchSets m.now split.now.parts codes.now sets codes.now.bits) }
    ensures found { OnOk result (AreFound m.now codes.now.words differences.new.found.items) }
{
    let mut sets = ReadSets::new(alloc);
    for i in 0..codes.bits {
        let candidates = candidates_of(split, codes, i);
        sets.push(read_set(
            alloc,
            m,
            codes,
            effects,
            differences,
            candidates,
            Bit::Latch(i),
        )?)?;
    }
    Ok(sets)
}

/// What the gate of each output reads.
fn output_sets(
    alloc: Global,
    m: &Machine,
    codes: &Codes,
    effects: &[Effect],
    differences: &mut Differences,
) -> Result<ReadSets, AllocError>
    requires words { length codes.now.words ≡ length m.now.states }
    requires short { codes.now.bits ≤ 64 }
    requires effects { AreEffects m.now codes.now.words effects.now (length m.now.states) }
    requires found { AreFound m.now codes.now.words differences.old.found.items }
    ensures { IfOk result (λ sets. AreOutputSets m.now codes.now sets m.now.outputs) }
{
    let mut sets = ReadSets::new(alloc);
    let candidates = bits_below(codes.bits);
    for b in 0..m.outputs() {
        sets.push(read_set(
            alloc,
            m,
            codes,
            effects,
            differences,
            candidates,
            Bit::Output(b),
        )?)?;
    }
    Ok(sets)
}

/// What a gate with these candidates reads.
fn read_set(
    alloc: Global,
    m: &Machine,
    codes: &Codes,
    effects: &[Effect],
    differences: &mut Differences,
    candidates: u64,
    gate: Bit,
) -> Result<ReadSet, AllocError>
    requires words { length codes.now.words ≡ length m.now.states }
    requires gate { IsBit m.now gate }
    requires place { HasPlace gate }
    requires effects { AreEffects m.now codes.now.words effects.now (length m.now.states) }
    requires found { AreFound m.now codes.now.words differences.old.found.items }
    ensures set { IfOk result
        (IsReadSet m.now codes.now.words (InWord candidates) (value_of m.now codes.now.words gate)) }
    ensures found { OnOk result (AreFound m.now codes.now.words differences.new.found.items) }
{
    let words = codes.words.as_slice();
    let bits = read_bits(alloc, m, words, differences, candidates, gate)?;
    Ok(ReadSet {
        inputs: numbers_of(alloc, inputs_of(effects, gate))?,
        latches: numbers_of(alloc, bits)?,
    })
}

/// The candidates of latch i.
fn candidates_of(split: &Split, codes: &Codes, i: usize) -> u64
    requires latch { i < codes.now.bits }
    requires owner { length codes.now.owner ≡ codes.now.bits }
    requires carried { length codes.now.carried ≡ codes.now.bits }
    requires short { codes.now.bits ≤ 64 }
    ensures { (c : ℕ) → InWord result c ↔ IsCandidate split.now.parts codes.now i c }
{
    let mut candidates = 0;
    for c in 0..codes.bits {
        if is_open(split, codes, i, c) {
            candidates = with_bit(candidates, c as u32);
        }
    }
    candidates
}

/// Whether the gate of latch i may read bit c.
fn is_open(split: &Split, codes: &Codes, i: usize, c: usize) -> bool
    requires latch { i < codes.now.bits }
    requires bit { c < codes.now.bits }
    requires owner { length codes.now.owner ≡ codes.now.bits }
    requires carried { length codes.now.carried ≡ codes.now.bits }
    ensures { IsTrue result ↔ IsOpenTo split.now.parts codes.now (slice_index codes.now.owner i) c }
{
    let own = codes.owner.as_slice()[i];
    let other = codes.owner.as_slice()[c];
    other == own || codes.carried.as_slice()[c] && may_read(split, own, other)
}

/// Whether part j may read part l.
fn may_read(split: &Split, j: u16, l: u16) -> bool
    ensures { IsTrue result ↔ MayReadPart split.now.parts j l }
{
    match split.parts.as_slice().get(usize::from(j)) {
        Some(part) => part.reads.as_slice().contains(&l),
        None => false,
    }
}
