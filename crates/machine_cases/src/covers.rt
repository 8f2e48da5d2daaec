//! The calls of `cover_split`.

ghost use Rattle.std.specs.Prelude.{ℕ, length};
ghost use Rattle.cover_split.specs.StateCover.{IsStateCover};

use crate::words::put_part;
use case_lines::Answer;
use cover_split::{Cover, expand, parse, split};
use kiss_file::KissFile;
use machine_table::Machine;
use state_codes::Part;
use std::alloc::Global;

/// Puts what is wrong with a cover of the machine's states, or what is made of it.
pub(crate) fn put_cover(alloc: Global, words: &str, m: &Machine, answer: &mut Answer) {
    m.keeps_its_states();
    match parse(alloc, words.as_bytes(), m.states()) {
        Ok(cover) => put_expanded(alloc, m, &cover, answer),
        Err(fail) => answer.add_displayed(format_args!("{fail:?}")),
    }
}

/// Puts where a cover is not closed, or what the machine of the pairs and its split are.
fn put_expanded(alloc: Global, m: &Machine, cover: &Cover, answer: &mut Answer)
    requires { IsStateCover (length m.now.states) cover.now.blocks }
{
    match expand(alloc, m, cover) {
        Ok(file) => {
            put_counts(&file, answer);
            put_split(alloc, cover, answer);
        }
        Err(fail) => answer.add_displayed(format_args!("{fail:?}")),
    }
}

/// Puts how many states and rows a file has.
fn put_counts(file: &KissFile, answer: &mut Answer) {
    let (states, rows) = (file.states.count(), file.rows.as_slice().len());
    answer.add_displayed(format_args!("{states} states, {rows} rows, parts"));
}

/// Puts the parts of the split.
fn put_split(alloc: Global, cover: &Cover, answer: &mut Answer)
    requires { (n : ℕ) × IsStateCover n cover.now.blocks }
{
    match split(alloc, cover) {
        Ok(split) => put_parts(alloc, split.parts.as_slice(), answer),
        Err(_) => answer.fail(),
    }
}

/// Puts parts, each after a space.
fn put_parts(alloc: Global, parts: &[Part], answer: &mut Answer) {
    for part in parts {
        answer.add(b" ");
        put_part(alloc, &part.partition, answer);
    }
}
