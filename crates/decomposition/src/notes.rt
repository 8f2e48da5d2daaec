//! The notes of the latches of a network.

ghost use Rattle.std.specs.Prelude.{◌≡◌, ◌<◌, ◌≤◌, All, IfOk, length};
ghost use Rattle.partition.specs.Partition.{IsStateCount};
ghost use Rattle.decomposition.specs.Notes.{AreNotes, IsNoteOf};

use crate::labels::{agreeing, word_of};
use blif_out::{LatchNote, LatchNotes};
use dependence::ReadSet;
use state_codes::Codes;
use std::alloc::{AllocError, Global};

/// The notes of the latches whose gates read these sets.
pub fn notes_of(alloc: Global, codes: &Codes, sets: &[ReadSet]) -> Result<LatchNotes, AllocError>
    requires count { IsStateCount (length codes.now.words) }
    requires owners { length codes.now.owner ≡ length sets.now }
    requires short { length sets.now ≤ 64 }
    requires within { All (λ set. All (λ c. c < 64) set.latches) sets.now }
    ensures { IfOk result (AreNotes codes.now sets.now) }
{
    let mut notes = LatchNotes::new(alloc);
    for i in 0..sets.len() {
        notes.push(note_of(alloc, codes, i, &sets[i])?)?;
    }
    Ok(notes)
}

/// The note of a latch whose gate reads the set.
fn note_of(alloc: Global, codes: &Codes, i: usize, set: &ReadSet) -> Result<LatchNote, AllocError>
    requires count { IsStateCount (length codes.now.words) }
    requires owner { i < length codes.now.owner }
    requires bit { i < 64 }
    requires within { All (λ c. c < 64) set.now.latches }
    ensures { IfOk result (IsNoteOf codes.now i set.now) }
{
    let words = codes.words.as_slice();
    Ok(LatchNote {
        part: codes.owner.as_slice()[i],
        from: agreeing(alloc, words, word_of(set.latches.as_slice()))?,
        to: agreeing(alloc, words, 1 << i)?,
    })
}
