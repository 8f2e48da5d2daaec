//! Reports that are not lists.

ghost use Rattle.std.specs.Prelude.{◌≡◌, ◌∷◌, [], ◌++◌, IfOk, OnOk, codes};
ghost use Rattle.std.specs.Fmt.{decimal};
ghost use Rattle.hs_io.specs.Spelling.{spaced};
ghost use Rattle.hs_texts.specs.Reports.{count_within, counts_text, named_line, spaced_numbers, trial_text};

use crate::err_lines::append_number;
use hs_list::Items;
use std::alloc::{AllocError, Global};

/// The figures of a trial of a machine that was made from a seed.
#[derive(Drop)]
pub struct TrialFigures {
    /// The number that the machine was made from.
    pub seed: u64,
    /// The number of states of its first factor.
    pub a: u16,
    /// The number of states of its second factor.
    pub b: u16,
    /// The number of its inputs.
    pub k: u8,
    /// The number of its states.
    pub states: usize,
    /// The number of its closed partitions, if there are no more than 1,000.
    pub closed: Option<usize>,
    /// The number of blocks of each part of its parallel decomposition.
    pub parts: Items<usize>,
    /// The number of latches of the network of the decomposition.
    pub latches: usize,
    /// The number of bits that are 1 in its answers in the run.
    pub ones: usize,
}

/// The counts of a machine, and the name of its reset state.
pub fn counts(
    alloc: Global,
    states: usize,
    inputs: u8,
    outputs: u8,
    rows: usize,
    reset: &[u8],
) -> Result<Vec<u8>, AllocError>
    ensures { IfOk result (λ text. text.items ≡ counts_text states inputs outputs rows reset.now) }
{
    let mut text = Vec::new(alloc);
    append_count(alloc, &mut text, b"states ", states)?;
    append_count(alloc, &mut text, b"inputs ", usize::from(inputs))?;
    append_count(alloc, &mut text, b"outputs ", usize::from(outputs))?;
    append_count(alloc, &mut text, b"rows ", rows)?;
    append_line(&mut text, b"reset ", reset)?;
    Ok(text)
}

/// The summary of a trial.
pub fn trial(alloc: Global, figures: &TrialFigures) -> Result<Vec<u8>, AllocError>
    ensures { IfOk result (λ text. text.items ≡ trial_text figures.now) }
{
    let mut text = Vec::new(alloc);
    append_seed(alloc, &mut text, figures)?;
    append_count(alloc, &mut text, b"# states ", figures.states)?;
    append_closed(alloc, &mut text, figures.closed)?;
    append_numbers_line(alloc, &mut text, b"# parts", figures.parts.as_slice())?;
    append_count(alloc, &mut text, b"# latches ", figures.latches)?;
    append_count(alloc, &mut text, b"# ones ", figures.ones)?;
    Ok(text)
}

/// Appends a line of what a machine was made from.
fn append_seed(alloc: Global, text: &mut Vec<u8>, figures: &TrialFigures) -> Result<(), AllocError>
    ensures { OnOk result (text.new.items ≡ text.old.items ++ named_line (codes "# trial")
        (spaced_numbers (figures.now.seed ∷ figures.now.a ∷ figures.now.b ∷ figures.now.k ∷ []))) }
{
    let numbers = [
        figures.seed as usize,
        usize::from(figures.a),
        usize::from(figures.b),
        usize::from(figures.k),
    ];
    append_numbers_line(alloc, text, b"# trial", &numbers)
}

/// Appends the line of the closed partitions.
fn append_closed(alloc: Global, text: &mut Vec<u8>, closed: Option<usize>) -> Result<(), AllocError>
    ensures { OnOk result (text.new.items ≡ text.old.items ++ named_line (codes "# closed ") (count_within closed)) }
{
    match closed {
        Some(count) => append_count(alloc, text, b"# closed ", count),
        None => append_line(text, b"# closed ", b"more than 1000"),
    }
}

/// Appends a line of a word and a count.
fn append_count(
    alloc: Global,
    text: &mut Vec<u8>,
    word: &[u8],
    count: usize,
) -> Result<(), AllocError>
    ensures { OnOk result (text.new.items ≡ text.old.items ++ named_line word.now (decimal count)) }
{
    append_line(text, word, count.to_string(alloc)?.as_bytes())
}

/// Appends a line of a word and numbers.
fn append_numbers_line(
    alloc: Global,
    text: &mut Vec<u8>,
    word: &[u8],
    numbers: &[usize],
) -> Result<(), AllocError>
    ensures { OnOk result (text.new.items ≡ text.old.items ++ named_line word.now (spaced_numbers numbers.now)) }
{
    text.extend_from_slice(word)?;
    append_numbers(alloc, text, numbers)?;
    Ok(text.push(b'\n')?)
}

/// Appends numbers, each after a space.
fn append_numbers(alloc: Global, text: &mut Vec<u8>, numbers: &[usize]) -> Result<(), AllocError>
    ensures { OnOk result (text.new.items ≡ text.old.items ++ spaced_numbers numbers.now) }
{
    for number in numbers {
        append_number(alloc, text, b" ", *number as u64)?;
    }
    Ok(())
}

/// Appends a line of a word and what it names.
fn append_line(text: &mut Vec<u8>, word: &[u8], value: &[u8]) -> Result<(), AllocError>
    ensures { OnOk result (text.new.items ≡ text.old.items ++ named_line word.now value.now) }
{
    text.extend_from_slice(word)?;
    text.extend_from_slice(value)?;
    text.push(b'\n')?;
    Ok(())
}
