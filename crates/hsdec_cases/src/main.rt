//! Runs the cases of the files that its words name. The form of a case is that of [`case_scripts`].
//! [`status`](hsdec_program::status) answers each case, or [`run`](hsdec_core::run) if the case is `direct`, over
//! arguments, a shelf and two sinks in memory. So a new case is some lines in a file of `data/`, and needs no proof.
//! The word `-` names no file: it tries the shelf over standard input.
#![tactic(auto)]

mod arguments;
mod input;

use anyhow::ensure;
use arguments::GivenArguments;
use case_scripts::Calls;
use hs_io::{MemShelf, MemSink};
use hsdec_core::run;
use hsdec_program::{SystemArguments, status};
use job_words::Words;
use std::alloc::Global;
use std::env;

fn main(rt: HostRuntime) -> anyhow::Result<()> {
    let mut differ = false;
    for name in env::args(&rt)?.skip(1) {
        if !agrees(&rt, name.as_str())? {
            differ = true;
        }
    }
    ensure!(!differ, "there are differences");
    Ok(())
}

/// Whether all that a word names agrees.
fn agrees(rt: &HostRuntime, word: &str) -> anyhow::Result<bool> {
    if word != "-" {
        return Ok(case_scripts::agree(rt, &Program, word)?.is_full());
    }
    let once = input::is_read_once(rt)?;
    println!(rt; "standard input is read once: {once}")?;
    let whole = input::is_read_whole(rt)?;
    println!(rt; "standard input is read whole: {whole}")?;
    let alone = input::has_one_name(rt)?;
    println!(rt; "standard input has one name: {alone}")?;
    Ok(once && whole && alone)
}

/// The program, run in memory.
struct Program;

impl Calls for Program {
    fn status(
        &self,
        alloc: Global,
        words: &Words,
        shelf: &mut MemShelf,
        out: &mut MemSink,
        err: &mut MemSink,
    ) -> u8 {
        let arguments = SystemArguments {
            environment: GivenArguments { words },
        };
        status(alloc, &arguments, shelf, out, err)
    }

    fn answer(
        &self,
        alloc: Global,
        words: &Words,
        shelf: &mut MemShelf,
        out: &mut MemSink,
        err: &mut MemSink,
    ) -> u8 {
        run(alloc, words, shelf, out, err).code()
    }
}
