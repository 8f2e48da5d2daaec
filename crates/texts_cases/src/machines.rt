//! The calls of `machine_gen`.

use crate::kiss_texts::put_written;
use crate::words::{cut, number};
use case_lines::Answer;
use kiss_file::KissFile;
use machine_gen::make;
use rand_pcg::Lcg64Xsh32;
use rand_pcg::rand_core::Rng;
use std::alloc::Global;

/// Puts what a call answers.
pub(crate) fn put_answer(alloc: Global, call: &str, words: &[u8], answer: &mut Answer) {
    let (seed, rest) = cut(words, b' ');
    match call {
        "words" => put_words(number(seed), number(rest), answer),
        _ => put_machine(alloc, call, number(seed), rest, answer),
    }
}

/// Puts the first words that the generator draws.
fn put_words(seed: u64, count: u64, answer: &mut Answer) {
    let mut generator = Lcg64Xsh32::new(seed, 54);
    for i in 0..count {
        if i > 0 {
            answer.add(b" ");
        }
        answer.add_displayed(format_args!("{:08x}", generator.next_u32()));
    }
}

/// Puts what is asked of the machine of a seed and three numbers. Of a machine that is too large nothing is put.
fn put_machine(alloc: Global, call: &str, seed: u64, words: &[u8], answer: &mut Answer) {
    let (a, rest) = cut(words, b' ');
    let (b, k) = cut(rest, b' ');
    let a = number(a).clamp(2, 128) as u16;
    let b = number(b).clamp(2, 128) as u16;
    let k = number(k).clamp(1, 8) as u8;
    if a.saturating_mul(b) <= 256 {
        match make(alloc, seed, a, b, k) {
            Ok(file) => put_made(alloc, call, &file, answer),
            Err(_) => answer.fail(),
        }
    }
}

/// Puts what is asked of a machine.
fn put_made(alloc: Global, call: &str, file: &KissFile, answer: &mut Answer) {
    match call {
        "make" => put_written(alloc, file, answer),
        _ => put_sizes(file, answer),
    }
}

/// Puts the numbers of states and of rows of a machine.
fn put_sizes(file: &KissFile, answer: &mut Answer) {
    answer.add_number(file.states.count() as u64);
    answer.add(b" states ");
    answer.add_number(file.rows.as_slice().len() as u64);
    answer.add(b" rows");
}
