//! Labels and texts that come from outside: each refusal has the first place that shows it.

ghost use Rattle.std.specs.Prelude.{
  ◌≡◌,
  ◌≢◌,
  ℕ,
  ◌<◌,
  ◌≤◌,
  ◌↔◌,
  ◌++◌,
  length,
  slice_index,
  IfOk,
  MatchResult,
  OnOk,
  OnErr,
  ◌∷◌,
  ◌⊎◌,
  List,
  IfSome,
  IfNone,
  IsTrue,
};
ghost use Rattle.partition.specs.Partition.{IsPartition, IsStateCount, blocks_of};
ghost use Rattle.std.specs.Fmt.{decimal};
ghost use Rattle.partition.specs.Text.{labels_text, TextFault};
ghost use Rattle.partition.specs.Numerals.{IsPlain};
ghost use Rattle.partition.specs.Refusal.{LabelFault, FirstUnlawful, AllLawful, IsLawfulLabel};
ghost use Rattle.partition.specs.declared.PartFail.{PartFail};

use crate::{MOST_LABEL, MOST_STATES, PartFail, Partition};
use itoa::Buffer;
use std::alloc::{AllocError, Global};

impl Partition {
    /// The partition with these labels.
    pub fn from_labels(alloc: Global, labels: &[u16]) -> Result<Partition, PartFail>
        ensures ok { IfOk result (λ p. p ≡ labels.now) }
        ensures lawful { IfOk result (λ p. IsPartition (length labels.now) p) }
        ensures refused { (fail : PartFail) → fail ≢ PartFail.NoMemory
            → (result ≡ Err fail) ↔ LabelFault labels.now fail }
        ensures memory { result ≡ Err PartFail.NoMemory → IsPartition (length labels.now) labels.now }
    {
        if labels.is_empty() {
            return Err(PartFail::Empty);
        }
        match blocks_named(labels) {
            Err(place) => Err(PartFail::NotCanonical { place }),
            Ok(_) if labels.len() > MOST_STATES => Err(PartFail::WrongLength {
                found: labels.len(),
            }),
            Ok(blocks) => Ok(Partition {
                labels: labels.to_vec(alloc)?,
                blocks,
            }),
        }
    }

    /// The partition with these labels, which are known to be those of one.
    pub fn of_lawful(alloc: Global, labels: &[u16]) -> Result<Partition, AllocError>
        requires { IsPartition (length labels.now) labels.now }
        ensures { IfOk result (λ p. p ≡ labels.now) }
    {
        match Partition::from_labels(alloc, labels) {
            Ok(p) => Ok(p),
            Err(PartFail::NoMemory) => Err(AllocError),
            Err(PartFail::Empty) => unreachable!(),
            Err(PartFail::NotCanonical { .. }) => unreachable!(),
            Err(PartFail::BadText { .. }) => unreachable!(),
            Err(PartFail::WrongLength { .. }) => unreachable!(),
        }
    }

    /// The partition of n states with this text: labels in decimal digits, joined by commas.
    pub fn parse(alloc: Global, text: &[u8], n: usize) -> Result<Partition, PartFail>
        requires { IsStateCount n }
        ensures ok { IfOk result (λ p. text.now ≡ labels_text p) }
        ensures lawful { IfOk result (λ p. IsPartition n p) }
        ensures accepted { (p : List ℕ) → IsPartition n p → text.now ≡ labels_text p
            → MatchResult result (λ q. q ≡ p) (λ fail. fail ≡ PartFail.NoMemory) }
        ensures refused { (fail : PartFail) → result ≡ Err fail
            → (fail ≡ PartFail.NoMemory) ⊎ TextFault n text.now fail }
        ensures caused { (fail : PartFail) → TextFault n text.now fail
            → (result ≡ Err fail) ⊎ (result ≡ Err PartFail.NoMemory) }
    {
        read_labels(alloc, text, n)
    }

    /// Appends the text: the labels in decimal digits, joined by commas.
    pub fn show(&self, alloc: Global, into: &mut Vec<u8>) -> Result<(), AllocError>
        ensures ok { OnOk result (into.new.items ≡ into.old.items ++ labels_text self.now) }
        ensures err { OnErr result (into.new.items ≡ into.old.items) }
    {
        let text = written(alloc, self.labels())?;
        into.extend_from_slice(text.as_slice())
    }
}

/// The partition that `parse` reads from the text that `show` writes: the same partition, unless memory runs
/// out. It is a law, stated of the two calls themselves.
pub fn parse_of_show(alloc: Global, p: &Partition) -> Result<Partition, PartFail>
    ensures { MatchResult result (λ q. q ≡ p.now) (λ fail. fail ≡ PartFail.NoMemory) }
{
    let mut text = Vec::new(alloc);
    p.show(alloc, &mut text)?;
    Partition::parse(alloc, text.as_slice(), p.len())
}

/// The text of labels.
fn written(alloc: Global, labels: &[u16]) -> Result<Vec<u8>, AllocError>
    ensures { IfOk result (λ text. text.items ≡ labels_text labels.now) }
{
    let mut text = Vec::new(alloc);
    let mut digits = Buffer::new();
    for (s, label) in labels.iter().enumerate() {
        if s > 0 {
            text.push(b',')?;
        }
        text.extend_from_slice(digits.format(*label).as_bytes())?;
    }
    Ok(text)
}

/// Reads labels piece by piece, and keeps the first n.
fn read_labels(alloc: Global, text: &[u8], n: usize) -> Result<Partition, PartFail>
    requires { IsStateCount n }
    ensures { MatchResult result
        (λ p. IsPartition n p × (text.now ≡ labels_text p))
        (λ fail. (fail ≡ PartFail.NoMemory) ⊎ TextFault n text.now fail) }
{
    let mut labels = Vec::with_capacity(alloc, n)?;
    let (mut found, mut blocks) = (0, 0);
    for piece in text.split(|byte| *byte == b',') {
        let Some(label) = label_of(piece, blocks) else {
            return Err(PartFail::BadText { place: found });
        };
        blocks = blocks.max(label + 1);
        if found < n {
            labels.push(label as u16)?;
        }
        found += 1;
    }
    if found != n {
        return Err(PartFail::WrongLength { found });
    }
    Ok(Partition { labels, blocks })
}

/// The label that a piece spells, if the label is at most `most`.
fn label_of(piece: &[u8], most: usize) -> Option<usize>
    ensures some { IfSome result (λ label. (label ≤ most) × (piece.now ≡ decimal label)) }
    ensures none { IfNone result ((label : ℕ) → label ≤ most → piece.now ≢ decimal label) }
{
    if !is_plain(piece) {
        return None;
    }
    let Ok(text) = str::from_utf8(piece) else {
        return None;
    };
    match text.parse::<usize>() {
        Ok(label) if label <= most => Some(label),
        _ => None,
    }
}

/// Whether a piece begins as a decimal number without leading zeros does.
fn is_plain(piece: &[u8]) -> bool
    ensures { IsTrue result ↔ IsPlain piece.now }
{
    match piece {
        [b'0'] => true,
        [first, ..] => *first > b'0' && *first <= b'9',
        [] => false,
    }
}

/// The number of blocks of lawful labels, or the place of the first label that is not lawful.
fn blocks_named(labels: &[u16]) -> Result<usize, usize>
    ensures { MatchResult result
        (λ blocks. (blocks ≡ blocks_of labels.now) × AllLawful labels.now)
        (λ place. FirstUnlawful labels.now place) }
{
    let mut blocks = 0;
    for (place, label) in labels.iter().enumerate() {
        let block = *label as usize;
        if block > blocks || block > MOST_LABEL {
            return Err(place);
        }
        if block == blocks {
            blocks += 1;
        }
    }
    Ok(blocks)
}
