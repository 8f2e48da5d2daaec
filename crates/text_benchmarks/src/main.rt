//! Makes large texts and reads or runs them, so that a script can time the work from outside, and prints only counts.
//! Each argument is a case, which is words separated by one space: the subject, the kind, its size, the work, and how
//! many times it is done. `forms` makes the kinds of texts, and describes them. With 0 times the text is made and
//! nothing is done.
//!
//! - `cut` cuts a text into lines by `cut_lines`, which keeps the first fields of a line in the line. `lists`
//!   cuts it with the splits of the library, and keeps each line's fields in a list of its own.
//! - `read` reads a text of KISS2 or BLIF, or gives the line of its first fault.
//! - Networks are read and put in order (`order`). They are then run on as many symbols as the case has times
//!   (`run`), or run on them plainly, each gate by its rows, character by character (`plain`).
#![tactic(auto)]

ghost use Rattle.std.specs.Prelude.{◌<◌, ◌^◌, length};

mod forms;
mod lines;
mod networks;
mod plain_run;
mod readers;

use anyhow::{Error, bail};
use bench_cases::{Case, case_of};
use forms::{form_of, text_of};
use std::alloc::Global;
use std::env;

/// The number of bytes of a text, and the two counts that the work on it gives.
#[derive(Clone, Copy)]
struct Counts {
    bytes: usize,
    pair: (usize, usize),
}

/// What the work on a case gives.
fn answer(alloc: Global, case: Case<'_>) -> Result<Counts, Error> {
    let Some(form) = form_of(case.subject, case.kind) else {
        bail!("no such kind of text");
    };
    let text = text_of(alloc, form, case.size)?;
    answer_of_text(alloc, case, text.as_slice())
}

/// What the work on a case gives, where its text is given.
fn answer_of_text(alloc: Global, case: Case<'_>, text: &[u8]) -> Result<Counts, Error> {
    if text.len() >= 1 << 32 {
        bail!("the text is too long");
    }
    let pair = worked(alloc, case, text)?;
    Ok(Counts {
        bytes: text.len(),
        pair,
    })
}

/// The two counts that the work gives, done as many times as the case says.
fn worked(alloc: Global, case: Case<'_>, text: &[u8]) -> Result<(usize, usize), Error>
    requires { length text.now < 2 ^ 32 }
{
    if case.subject == "networks" {
        return networks::answer(alloc, text, case);
    }
    let mut counts = (0, 0);
    for _ in 0..case.times {
        counts = match case.work {
            "cut" => lines::cut(alloc, text)?,
            "lists" => lines::cut_to_lists(alloc, text)?,
            "read" if case.subject == "kiss2" => readers::read_kiss2(alloc, text)?,
            "read" => readers::read_blif(alloc, text)?,
            _ => bail!("no such work"),
        };
    }
    Ok(counts)
}

/// Prints the counts of the case that a line says.
fn print(rt: &HostRuntime, line: &str, counts: Counts) -> Result<(), Error> {
    let (first, second) = counts.pair;
    println!(rt; "{line}: {} bytes, {first} {second}", counts.bytes)?;
    Ok(())
}

fn main(rt: HostRuntime) -> Result<(), Error> {
    for line in env::args(&rt)?.skip(1) {
        let Some(case) = case_of(line.as_str()) else {
            bail!("a case has a subject, a kind, a size, the work and how often");
        };
        print(&rt, line.as_str(), answer(rt.alloc(), case)?)?;
    }
    Ok(())
}
