//! What a part reads.
//!
//! Bits, gates and inputs are gathered as words: number c is in a word where the bit of value 2^c is 1.

ghost use Rattle.std.specs.Prelude.{◌≡◌, ◌<◌, ◌≤◌, ◌↔◌, ◌⊎◌, ℕ, All, Contains, IfOk, length};
ghost use Rattle.dependence.specs.SufficientBits.{InWord};
ghost use Rattle.kiss_file.specs.declared.file.KissFile.{KissFile};
ghost use Rattle.realise.specs.CodeNetwork.{AreEnough};
ghost use Rattle.machine_table.specs.Table.{IsTable};
ghost use Rattle.part_machines.specs.Inner.Gathered.{AreWordsOf, IsSmall, IsWordOfOwner};
ghost use Rattle.part_machines.specs.PartSet.{HasGateThat, IsPartSet};
ghost use Rattle.part_machines.specs.Which.{own_bits};

use dependence::{ReadSet, Reads, has_bit, numbers_of, with_bit};
use state_codes::{Codes, Which};
use std::alloc::{AllocError, Global};

/// Inputs of the file and bits of the code.
#[derive(Clone, Copy)]
pub(crate) struct ReadWords {
    pub inputs: u64,
    pub latches: u64,
}

/// The inputs of the machine of a part: the inputs of the file, and the bits of other parts. A part that reads
/// nothing has input 0.
pub fn inputs_of_part(
    alloc: Global,
    codes: &Codes,
    reads: &Reads,
    which: Which,
) -> Result<ReadSet, AllocError>
    requires owner { length codes.now.owner ≡ codes.now.bits }
    requires short { codes.now.bits ≤ 64 }
    requires enough { (W : KissFile) × IsTable W × AreEnough W codes.now.bits codes.now.words reads.now }
    ensures { IfOk result (IsPartSet codes.now reads.now which) }
{
    let own = own_word(codes, which);
    let read = words_read(codes, reads, which);
    let others = without(read.latches, own);
    let inputs = some_input(read.inputs, others);
    let inputs = numbers_of(alloc, inputs)?;
    let latches = numbers_of(alloc, others)?;
    Ok(ReadSet { inputs, latches })
}

/// What the gates of the part read.
fn words_read(codes: &Codes, reads: &Reads, which: Which) -> ReadWords
    requires owner { length codes.now.owner ≡ codes.now.bits }
    requires short { codes.now.bits ≤ 64 }
    requires latch_count { length reads.now.latches ≡ codes.now.bits }
    requires output_count { length reads.now.outputs ≤ 64 }
    requires latches { All IsSmall reads.now.latches }
    requires outputs { All IsSmall reads.now.outputs }
    ensures inputs { (a : ℕ) → InWord result.inputs a
        ↔ HasGateThat codes.now reads.now which (λ set. Contains set.inputs a) }
    ensures latches { (c : ℕ) → InWord result.latches c
        ↔ HasGateThat codes.now reads.now which (λ set. Contains set.latches c) }
{
    match which {
        Which::Part(_) => words_of_gates(reads.latches.as_slice(), own_word(codes, which)),
        Which::Outputs => words_of_gates(reads.outputs.as_slice(), u64::MAX),
    }
}

/// The word without the bits of the other.
fn without(word: u64, other: u64) -> u64
    ensures { (c : ℕ) → InWord result c ↔ (InWord word c × ¬ InWord other c) }
{
    word & !other
}

/// The inputs, or input 0 if nothing is read.
fn some_input(inputs: u64, others: u64) -> u64
    ensures { (a : ℕ) → InWord result a ↔ (InWord inputs a ⊎ ((inputs ≡ 0) × (others ≡ 0) × (a ≡ 0))) }
{
    if inputs == 0 && others == 0 {
        1
    } else {
        inputs
    }
}

/// The bits of the part.
fn own_word(codes: &Codes, which: Which) -> u64
    requires owner { length codes.now.owner ≡ codes.now.bits }
    requires short { codes.now.bits ≤ 64 }
    ensures { (c : ℕ) → InWord result c ↔ Contains (own_bits codes.now which) c }
{
    match which {
        Which::Part(j) => word_of_owner(codes.owner.as_slice(), j),
        Which::Outputs => 0,
    }
}

/// The bits whose owner is the part with that number.
fn word_of_owner(owners: &[u16], j: usize) -> u64
    requires { length owners.now ≤ 64 }
    ensures { IsWordOfOwner owners.now j (length owners.now) result }
{
    let mut word = 0;
    for (c, owner) in owners.iter().enumerate() {
        if usize::from(*owner) == j {
            word = with_bit(word, c as u32);
        }
    }
    word
}

/// What the gates whose numbers are in the word read.
fn words_of_gates(sets: &[ReadSet], gates: u64) -> ReadWords
    requires count { length sets.now ≤ 64 }
    requires small { All IsSmall sets.now }
    ensures { AreWordsOf sets.now gates (length sets.now) result }
{
    let mut read = ReadWords {
        inputs: 0,
        latches: 0,
    };
    for (i, set) in sets.iter().enumerate() {
        if has_bit(gates, i as u32) {
            read = with_set(read, set);
        }
    }
    read
}

/// The words with what a set has.
fn with_set(read: ReadWords, set: &ReadSet) -> ReadWords
    requires { IsSmall set.now }
    ensures inputs { (a : ℕ) → InWord result.inputs a ↔ (InWord read.inputs a ⊎ Contains set.now.inputs a) }
    ensures latches { (c : ℕ) → InWord result.latches c ↔ (InWord read.latches c ⊎ Contains set.now.latches c) }
{
    ReadWords {
        inputs: with_numbers(read.inputs, set.inputs.as_slice()),
        latches: with_numbers(read.latches, set.latches.as_slice()),
    }
}

/// The word with these numbers.
fn with_numbers(word: u64, numbers: &[u8]) -> u64
    requires { All (λ c. c < 64) numbers.now }
    ensures { (d : ℕ) → InWord result d ↔ (InWord word d ⊎ Contains numbers.now d) }
{
    let mut all = word;
    for number in numbers {
        all = with_bit(all, u32::from(*number));
    }
    all
}
