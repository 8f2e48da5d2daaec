//! Runs what its words name. A word can name a file of cases:
//!
//! | File | Holds the calls of |
//! |---|---|
//! | `io.cases` | `hs_list` and `hs_io` |
//! | `files.cases` | `hs_io`, on files of the system |
//! | `cubes.cases` | `cubes` |
//! | `kiss.cases` | `kiss2` |
//! | `jobs.cases` | `job_words` |
//! | `lines.cases` | `hs_texts` |
//! | `machines.cases` | `machine_gen` |
//!
//! The form of a line is that of [`case_lines`]. In the arguments and the answer `\n`, `\r` and `\t` are one byte
//! each, and so is `\x` with two hexadecimal digits. The top of each file says what the arguments and the answers
//! of its calls are. A new case is a line, and needs no proof.
//!
//! A missing argument is empty, a character that is no digit counts as a digit, and a number outside its range
//! is the nearest number in the range. So a case with a fault is not refused. It shows as a difference if the
//! call answers something other than what the case asks for.
//!
//! Three words name no files:
//!
//! - `streams` puts a line to standard output and nothing to standard error;
//! - `small_cubes` compares the gaps of every list of up to three small cubes with a plain count;
//! - `short_lists` compares what is said of every short list of words with a plain judge.
#![tactic(auto)]

mod cubes_and_gaps;
mod io_calls;
mod jobs;
mod kiss_texts;
mod line_texts;
mod machines;
mod plain_gaps;
mod plain_words;
mod printed_lines;
mod shelves;
mod word_lists;
mod words;

use anyhow::{Context, ensure};
use case_lines::{Answer, Calls, agree, unescaped};
use std::env;
use std::rt::Files;

/// The calls that a file asks.
#[derive(Drop)]
enum Asked {
    Io,
    Files,
    Cubes,
    Kiss,
    Jobs,
    Lines,
    Machines,
}

impl Asked {
    /// The calls that the file of a name asks.
    fn of_file(name: &str) -> Option<Asked> {
        match name {
            "io.cases" => Some(Asked::Io),
            "files.cases" => Some(Asked::Files),
            "cubes.cases" => Some(Asked::Cubes),
            "kiss.cases" => Some(Asked::Kiss),
            "jobs.cases" => Some(Asked::Jobs),
            "lines.cases" => Some(Asked::Lines),
            "machines.cases" => Some(Asked::Machines),
            _ => None,
        }
    }

    /// Puts what a call answers.
    fn put_answer<R: Files + AllocGlobal>(
        &self,
        rt: &R,
        call: &str,
        words: &[u8],
        answer: &mut Answer,
    ) {
        let alloc = rt.alloc();
        match self {
            Asked::Io => io_calls::put_answer(alloc, call, words, answer),
            Asked::Files => shelves::load_file(rt, words, answer),
            Asked::Cubes => cubes_and_gaps::put_answer(alloc, call, words, answer),
            Asked::Kiss => kiss_texts::put_answer(alloc, call, words, answer),
            Asked::Jobs => jobs::put_answer(alloc, call, words, answer),
            Asked::Lines => printed_lines::put_answer(alloc, call, words, answer),
            Asked::Machines => machines::put_answer(alloc, call, words, answer),
        }
    }
}

impl Calls for Asked {
    fn answer<R: Files + AllocGlobal>(
        &self,
        rt: &R,
        call: &str,
        words: &str,
    ) -> anyhow::Result<String> {
        let words = unescaped(rt.alloc(), words)?;
        let mut answer = Answer::new(rt.alloc());
        self.put_answer(rt, call, words.as_slice(), &mut answer);
        answer.text()
    }
}

/// Whether all that a word names agrees.
fn agrees(rt: &HostRuntime, word: &str) -> anyhow::Result<bool> {
    match word {
        "streams" => Ok(shelves::put_to_streams(rt)),
        "small_cubes" => Ok(plain_gaps::agree(rt)?),
        "short_lists" => Ok(word_lists::agree(rt)?),
        name => {
            let asked = Asked::of_file(name).context("no file of cases")?;
            agree(rt, &asked, name)
        }
    }
}

/// Whether all that the words name agrees.
fn all_agree(rt: &HostRuntime) -> anyhow::Result<bool> {
    let mut all = true;
    for word in env::args(rt)?.skip(1) {
        all = agrees(rt, word.as_str())? && all;
    }
    Ok(all)
}

fn main(rt: HostRuntime) -> anyhow::Result<()> {
    ensure!(all_agree(&rt)?, "there are differences");
    Ok(())
}
