//! Answers as lines.

ghost use Rattle.std.specs.Prelude.{◌≡◌, ◌≤◌, ◌++◌, IfOk, OnOk, map};
ghost use Rattle.hs_io.specs.Spelling.{ended};
ghost use Rattle.cubes.specs.Symbol.{lowest_bits};
ghost use Rattle.net_sim.specs.BitTexts.{text_of_bits};
ghost use Rattle.net_sim.specs.Run.{answers_text};

use cubes::bit;
use net_sim::append_answer;
use std::alloc::{AllocError, Global};

/// A line for each number, whose bits are `count` outputs.
pub(crate) fn answer_lines(alloc: Global, count: u8, words: &[u64]) -> Result<Vec<u8>, AllocError>
    requires { count ≤ 64 }
    ensures { IfOk result (λ text. text.items ≡ answers_text (map (lowest_bits count) words.now)) }
{
    let mut bits = Vec::new(alloc);
    let mut text = Vec::new(alloc);
    for word in words {
        append_word(&mut text, count, *word, &mut bits)?;
    }
    Ok(text)
}

/// Appends the line of the outputs that are the bits of a number. `bits` is room for them.
fn append_word(
    text: &mut Vec<u8>,
    count: u8,
    word: u64,
    bits: &mut Vec<bool>,
) -> Result<(), AllocError>
    requires { count ≤ 64 }
    ensures { OnOk result (text.new.items ≡ text.old.items ++ ended (text_of_bits (lowest_bits count word))) }
{
    bits.clear();
    for place in 0..usize::from(count) {
        bits.push(bit(word, place))?;
    }
    append_answer(text, bits)
}
