//! The header that explains a network.

ghost use Rattle.std.specs.Prelude.{◌≡◌, ◌<◌, ◌^◌, All, IfOk, IfSome, length, map, slice_index};
ghost use Rattle.decomposition.specs.Inner.Header.{HasSmallReads, IsHeaderOf, words_by};

use blif_out::{Header, LatchNotes};
use kiss_file::{StateNames, copied_states};
use partition::Partition;
use state_codes::{CodeWords, Codes, Part, Split};
use std::alloc::{AllocError, Global};

/// What a header says of the states of the file: their names, their classes if there are any, and their words.
#[derive(Drop)]
struct PrintedStates {
    states: StateNames,
    classes: Option<Partition>,
    words: CodeWords,
}

/// The header of a split with its codes and the notes of its latches. The states of the file have these names
/// and, if classes are given, belong to these classes.
pub fn header_of(
    alloc: Global,
    states: &StateNames,
    classes: &Option<Partition>,
    split: Split,
    codes: &Codes,
    latches: LatchNotes,
) -> Result<Header, AllocError>
    requires states { length states.now < 65536 }
    requires classes { IfSome classes.now (All (λ class. class < length codes.now.words)) }
    ensures { IfOk result (IsHeaderOf states.now classes.now split codes.now latches) }
{
    reads_fit(split.parts.as_slice());
    let printed = printed_states(alloc, states, classes, &codes.words)?;
    Ok(Header {
        kind: split.kind,
        classes: printed.classes,
        parts: split.parts,
        states: printed.states,
        words: printed.words,
        latches,
    })
}

/// What a header says of states with these names, these classes if there are any, and these words of their own or
/// of their classes.
fn printed_states(
    alloc: Global,
    states: &StateNames,
    classes: &Option<Partition>,
    words: &CodeWords,
) -> Result<PrintedStates, AllocError>
    requires states { length states.now < 65536 }
    requires classes { IfSome classes.now (All (λ class. class < length words.now)) }
    ensures states { IfOk result (λ printed. printed.states ≡ states.now) }
    ensures classes { IfOk result (λ printed. printed.classes ≡ classes.now) }
    ensures words { IfOk result (λ printed. printed.words ≡ words_by classes.now words.now) }
{
    let words = printed_words(alloc, classes, words)?;
    let classes = copied_classes(alloc, classes)?;
    let states = copied_states(alloc, states)?;
    Ok(PrintedStates {
        states,
        classes,
        words,
    })
}

/// A copy of the classes, if there are classes.
fn copied_classes(
    alloc: Global,
    classes: &Option<Partition>,
) -> Result<Option<Partition>, AllocError>
    ensures { IfOk result (λ copy. copy ≡ classes.now) }
{
    match classes {
        None => Ok(None),
        Some(classes) => Ok(Some(classes.copy(alloc)?)),
    }
}

/// The numbers of the parts that each part reads are small. It changes nothing.
fn reads_fit(parts: &[Part])
    ensures { All HasSmallReads parts.now }
{
    for part in parts {
        numbers_fit(part.reads.as_slice());
    }
}

/// Numbers of parts fit into their type. It changes nothing.
fn numbers_fit(numbers: &[u16])
    ensures { All (λ number. number < 2 ^ 16) numbers.now }
{
    let _ = numbers.len();
}

/// The word of each state of the file: the word of its class, or its own.
fn printed_words(
    alloc: Global,
    classes: &Option<Partition>,
    words: &CodeWords,
) -> Result<CodeWords, AllocError>
    requires { IfSome classes.now (All (λ class. class < length words.now)) }
    ensures { IfOk result (λ printed. printed ≡ words_by classes.now words.now) }
{
    match classes {
        None => Ok(CodeWords::from(words.as_slice().to_vec(alloc)?)),
        Some(classes) => words_of_classes(alloc, classes, words.as_slice()),
    }
}

/// The word of the class of each state.
fn words_of_classes(
    alloc: Global,
    classes: &Partition,
    words: &[u64],
) -> Result<CodeWords, AllocError>
    requires { All (λ class. class < length words.now) classes.now }
    ensures { IfOk result (λ printed. printed ≡ map (slice_index words.now) classes.now) }
{
    let mut printed = CodeWords::new(alloc);
    for s in 0..classes.len() {
        printed.push(words[usize::from(classes.label(s))])?;
    }
    Ok(printed)
}
