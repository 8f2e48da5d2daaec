//! Every short list of words, compared with a plain judge that looks at each word on its own.

use crate::plain_words::refused_word;
use job_words::{JobFail, Words, built_forms, judge};
use std::alloc::{AllocError, Global};
use std::io;

/// Words that stand for commands, operands, options, and numbers at each limit and past it.
const ALPHABET: [&[u8]; 18] = [
    b"closed",
    b"sim",
    b"gen",
    b"code",
    b"f",
    b"",
    b"--",
    b"--limit",
    b"--start",
    b"--fill",
    b"--reduce",
    b"hold",
    b"0",
    b"10000",
    b"10001",
    b"000000002",
    b"0000000002",
    b"+2",
];

/// Numbers at each limit of a generator and past it.
const NUMBERS: [&[u8]; 9] = [
    b"0",
    b"1",
    b"2",
    b"8",
    b"9",
    b"32",
    b"128",
    b"129",
    b"--reduce",
];

/// Words after a command that writes a network: options that take a name, and names at each limit and past it.
const NAMES: [&[u8]; 12] = [
    b"f",
    b"",
    b"--clock",
    b"--model",
    b"--reduce",
    b"--names",
    b"NIL",
    b"c#",
    b"m\\",
    b"~\x7f",
    b"abcdefghijklmnopqrstuvwxyzabcdefghijklmnopqrstuvwxyz0123456789!~",
    b"abcdefghijklmnopqrstuvwxyzabcdefghijklmnopqrstuvwxyz0123456789!~_",
];

/// Words after `part`: splits and numbers of parts, and words that are close to one.
const SPLITS: [&[u8]; 12] = [
    b"f",
    b"--reduce",
    b"least",
    b"shift",
    b"0/1",
    b"/1",
    b"007",
    b"0007",
    b"999",
    b"outputs",
    b"Outputs",
    b"+7",
];

/// Whether all lists agree. Prints the number of lists if they do, and else each list that differs.
pub(crate) fn agree(rt: &HostRuntime) -> io::Result<bool> {
    let mut all = true;
    for (count, lists) in [(0, 1), (1, 18), (2, 324), (3, 5832), (4, 104_976)] {
        let agree = agree_on(rt, None, &ALPHABET, count, lists)?;
        all = all && agree;
    }
    let agree = agree_on(rt, Some(b"gen"), &NUMBERS, 4, 6561)?;
    all = all && agree;
    let agree = agree_on(rt, Some(b"code"), &NAMES, 4, 20_736)?;
    all = all && agree;
    let agree = agree_on(rt, Some(b"part"), &SPLITS, 4, 20_736)?;
    Ok(all && agree)
}

/// Whether the lists of `count` words agree.
fn agree_on(
    rt: &HostRuntime,
    first: Option<&'static [u8]>,
    alphabet: &[&'static [u8]],
    count: u32,
    lists: usize,
) -> io::Result<bool> {
    let mut all = true;
    for number in 0..lists {
        if !agrees(rt.alloc(), first, alphabet, count, number)? {
            println!(rt; "lists of {count} words: list {number} differs")?;
            all = false;
        }
    }
    if all {
        println!(rt; "lists of {count} words: {lists} cases")?;
    }
    Ok(all)
}

/// Whether the plain judge refuses the same word of a list, or also accepts it.
fn agrees(
    alloc: Global,
    first: Option<&'static [u8]>,
    alphabet: &[&'static [u8]],
    count: u32,
    number: usize,
) -> Result<bool, AllocError> {
    let mut words = Words::new(alloc);
    if let Some(word) = first {
        words.push(word)?;
    }
    add_words(alphabet, count, number, &mut words)?;
    Ok(refused(alloc, &words)? == refused_word(&words))
}

/// Adds the words of the alphabet that the digits of the number select.
fn add_words(
    alphabet: &[&'static [u8]],
    count: u32,
    number: usize,
    words: &mut Words,
) -> Result<(), AllocError> {
    if alphabet.is_empty() {
        return Ok(());
    }
    let mut left = number;
    for _ in 0..count {
        words.push(alphabet[left % alphabet.len()])?;
        left /= alphabet.len();
    }
    Ok(())
}

/// The number of the refused word, or 0 if the words are a job.
fn refused(alloc: Global, words: &Words) -> Result<usize, AllocError> {
    if words.count() > 1000 {
        return Ok(0);
    }
    match judge(alloc, built_forms(), words) {
        Ok(_) => Ok(0),
        Err(JobFail::Usage { word }) => Ok(word as usize),
        Err(JobFail::NoMemory) => Err(AllocError),
    }
}
