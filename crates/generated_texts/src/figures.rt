//! The figures of the summary of a trial.

ghost use Rattle.std.specs.Prelude.{◌≡◌, ◌%◌, ◌^◌, ◌≤◌, IfOk, count_by, map};
ghost use Rattle.std.specs.List.{flat_map, range_with_len};
ghost use Rattle.kiss_file.specs.Machine.{answers};
ghost use Rattle.cubes.specs.Symbol.{lowest_bits};
ghost use Rattle.partition.specs.Partition.{blocks_of};
ghost use Rattle.state_codes.specs.Code.{IsLength};
ghost use Rattle.generated_texts.specs.Figures.{AreFigures, IsClosedCount, ones_in, trial_word};

use cubes::bit;
use hs_lattice::Listing;
use hs_list::Items;
use hs_texts::reports::TrialFigures;
use machine_table::Machine;
use state_codes::Part;
use std::alloc::{AllocError, Global};

/// The number of symbols that the machine is run on.
const RUN_LENGTH: u32 = 1000;

/// The greatest number of closed partitions that are counted.
const CLOSED_LIMIT: usize = 1000;

/// A seed and the sizes of a machine.
#[derive(Clone, Copy)]
pub(crate) struct Numbers {
    pub(crate) seed: u64,
    pub(crate) a: u16,
    pub(crate) b: u16,
    pub(crate) k: u8,
}

/// The figures of a machine with two outputs, and of the parts of its split.
pub(crate) fn figures_of(
    alloc: Global,
    numbers: Numbers,
    machine: &Machine,
    parts: &[Part],
    latches: usize,
) -> Result<TrialFigures, AllocError>
    requires inputs { machine.now.inputs ≤ 8 }
    requires outputs { machine.now.outputs ≡ 2 }
    requires latches { IsLength parts.now latches }
    ensures { IfOk result (AreFigures numbers.seed numbers.a numbers.b numbers.k machine.now parts.now) }
{
    Ok(TrialFigures {
        seed: numbers.seed,
        a: numbers.a,
        b: numbers.b,
        k: numbers.k,
        states: machine.states(),
        closed: closed_count(alloc, machine)?,
        parts: block_counts(alloc, parts)?,
        latches,
        ones: ones_of_run(alloc, machine)?,
    })
}

/// The number of closed partitions, or None if there are more than are counted.
fn closed_count(alloc: Global, machine: &Machine) -> Result<Option<usize>, AllocError>
    ensures { IfOk result (IsClosedCount machine.now) }
{
    match closed_lattice::all(alloc, machine, CLOSED_LIMIT)? {
        Listing::Whole(all) => Ok(Some(all.as_slice().len())),
        Listing::More(_) => Ok(None),
    }
}

/// The number of blocks of each part.
fn block_counts(alloc: Global, parts: &[Part]) -> Result<Items<usize>, AllocError>
    ensures { IfOk result (λ counts. counts ≡ map (λ part. blocks_of part.partition) parts.now) }
{
    let mut counts = Items::new(alloc);
    for part in parts {
        counts.push(part.partition.blocks())?;
    }
    Ok(counts)
}

/// The number of outputs that are 1 in the run of a machine with two outputs.
fn ones_of_run(alloc: Global, machine: &Machine) -> Result<usize, AllocError>
    requires inputs { machine.now.inputs ≤ 8 }
    requires outputs { machine.now.outputs ≡ 2 }
    ensures { IfOk result
        (λ ones. ones ≡ ones_in (answers machine.now machine.now.reset (trial_word machine.now.inputs))) }
{
    let word = run_symbols(alloc, machine.inputs())?;
    let outputs = machine.walk(alloc, &word)?;
    let bits = output_bits(alloc, &outputs)?;
    Ok(ones_among(&bits))
}

/// The number of bits that are 1.
fn ones_among(bits: &[bool]) -> usize
    ensures { result ≡ count_by (λ bit. bit) bits.now }
{
    bits.iter().filter(|bit| **bit).count()
}

/// The symbols of the run.
fn run_symbols(alloc: Global, inputs: u8) -> Result<Vec<u32>, AllocError>
    requires { inputs ≤ 8 }
    ensures { IfOk result (λ numbers. numbers.items ≡ map (λ j. j % 2 ^ inputs) (range_with_len 0 1000)) }
{
    let count = symbol_count(inputs);
    let mut numbers = Vec::new(alloc);
    for number in 0..RUN_LENGTH {
        numbers.push(number % count)?;
    }
    Ok(numbers)
}

/// The number of symbols.
fn symbol_count(inputs: u8) -> u32
    requires { inputs ≤ 8 }
    ensures { result ≡ 2 ^ inputs }
{
    1 << inputs
}

/// The outputs, two for each number, which are its bits.
fn output_bits(alloc: Global, words: &[u64]) -> Result<Vec<bool>, AllocError>
    ensures { IfOk result (λ bits. bits.items ≡ flat_map (lowest_bits 2) words.now) }
{
    let mut bits = Vec::new(alloc);
    for word in words {
        bits.push(bit(*word, 0))?;
        bits.push(bit(*word, 1))?;
    }
    Ok(bits)
}
