//! Standard input as a file, over a reader in memory.

use hs_io::{LoadFail, Shelf};
use hsdec_program::InputShelf;
use std::alloc::{AllocError, Global};

/// The input, of nine bytes.
const INPUT: &[u8] = b"one line\n";

/// The lengths of longer inputs: more than 64 KiB, and more than 1 MiB.
const LENGTHS: [u32; 2] = [70_000, 1_100_000];

/// Whether the first load of `-` gives the whole input and the second nothing, and whether a load that is over its
/// limit gives one byte more and leaves nothing for the next.
pub(crate) fn is_read_once(rt: &HostRuntime) -> Result<bool, AllocError> {
    let mut whole = InputShelf::new(rt, INPUT);
    let first = load(rt, &mut whole, b"-", 9)?;
    let second = load(rt, &mut whole, b"-", 1)?;
    let mut longer = InputShelf::new(rt, INPUT);
    let front = load(rt, &mut longer, b"-", 4)?;
    let rest = load(rt, &mut longer, b"-", 4)?;
    Ok(
        first.is_all_of(INPUT)
            && second.is_all_of(b"")
            && front.is_cut_to(b"one l")
            && rest.is_all_of(b""),
    )
}

/// Whether the longer inputs are given whole.
pub(crate) fn is_read_whole(rt: &HostRuntime) -> Result<bool, AllocError> {
    let mut whole = true;
    for length in LENGTHS {
        whole = is_given_whole(rt, length)? && whole;
    }
    Ok(whole)
}

/// Whether a load of another name that begins with `-` fails, and leaves the input for the next.
pub(crate) fn has_one_name(rt: &HostRuntime) -> Result<bool, AllocError> {
    let mut shelf = InputShelf::new(rt, INPUT);
    let other = load(rt, &mut shelf, b"-x", 9)?;
    let input = load(rt, &mut shelf, b"-", 9)?;
    Ok(other.answer == Err(LoadFail::Failed) && input.is_all_of(INPUT))
}

/// What a load answered, and the bytes that it gave.
#[derive(Drop)]
struct Loaded {
    answer: Result<(), LoadFail>,
    bytes: Vec<u8>,
}

impl Loaded {
    fn is_all_of(&self, bytes: &[u8]) -> bool {
        self.answer == Ok(()) && self.bytes.as_slice() == bytes
    }

    fn is_cut_to(&self, bytes: &[u8]) -> bool {
        self.answer == Err(LoadFail::TooLong) && self.bytes.as_slice() == bytes
    }
}

/// Whether an input of so many bytes is given whole.
fn is_given_whole(rt: &HostRuntime, length: u32) -> Result<bool, AllocError> {
    let bytes = numbered_bytes(rt.alloc(), length)?;
    let mut shelf = InputShelf::new(rt, bytes.as_slice());
    let loaded = load(rt, &mut shelf, b"-", length)?;
    Ok(loaded.is_all_of(bytes.as_slice()))
}

/// So many bytes, of which no two neighbours are equal.
fn numbered_bytes(alloc: Global, length: u32) -> Result<Vec<u8>, AllocError> {
    let mut bytes = Vec::new(alloc);
    for number in 0..length {
        bytes.push((number % 251) as u8)?;
    }
    Ok(bytes)
}

/// A load of a name, of at most `limit` bytes.
fn load<'a, 'b>(
    rt: &HostRuntime,
    shelf: &mut InputShelf<&'a HostRuntime, &'b [u8]>,
    name: &[u8],
    limit: u32,
) -> Result<Loaded, AllocError> {
    let mut bytes = Vec::new(rt.alloc());
    let answer = shelf.load(name, limit as usize, &mut bytes);
    Ok(Loaded { answer, bytes })
}
