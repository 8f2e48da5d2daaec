//! Makes machines and works on them, so that a script can time the work from outside, and prints only counts. Each
//! argument is a case, which is words separated by one space: the subject, which is `machines`, the kind, its size,
//! the work, and how many times it is done. `shapes` makes the kinds, and describes them.
//!
//! - `read` only reads the machine's file, and `build` builds the machine too.
//! - `goes` takes as many pairs of states as the case has times. It asks whether their next states are together
//!   in the partition of the states by the last bit of their numbers. `images` lists their pairs of next
//!   states. `symbols` asks as `goes` does, but at each symbol on its own, through `next`.
//! - `closed` lists the closed partitions, `pairs` the Mm pairs, and `consistent` the closed partitions that
//!   the outputs respect, each up to 1,000. `equal` asks of each two states whether they go to equal states. It
//!   asks this as many times as there are states, since closing each pair on its own may ask about that many
//!   pairs.
//! - `alike` is the partition of alike states, and `marks` marks pairs of states that are not alike, until a
//!   pass through all pairs marks no more.
//! - `reads` finds what the gates of a code read. `search` finds it plainly: for each bit that is judged and
//!   each state, it searches for the first state like that state, and compares the two; and it compares each
//!   two pieces of a state.
#![tactic(auto)]

ghost use Rattle.kiss_file.specs.LawfulFile.{IsLawful};

mod codes;
mod files;
mod lattices;
mod marks;
mod plain_reads;
mod shapes;
mod tables;

use anyhow::{Error, bail};
use bench_cases::{Case, case_of};
use kiss_file::KissFile;
use machine_table::Machine;
use state_reduce::equivalence;
use std::alloc::Global;
use std::env;

/// The number of rows, and the result of the work.
fn answer(alloc: Global, case: Case<'_>) -> Result<(usize, usize), Error> {
    if case.subject != "machines" {
        bail!("no such subject");
    }
    let file = files::file_of(alloc, case)?;
    answer_of_file(alloc, &file, case)
}

/// The number of rows of a file, and the result of the work on it.
fn answer_of_file(alloc: Global, file: &KissFile, case: Case<'_>) -> Result<(usize, usize), Error>
    requires { IsLawful file.now }
{
    let found = if case.work == "read" {
        0
    } else {
        found_in(alloc, file, case)?
    };
    Ok((file.rows.as_slice().len(), found))
}

/// The result of the work on the machine of a file.
fn found_in(alloc: Global, file: &KissFile, case: Case<'_>) -> Result<usize, Error>
    requires { IsLawful file.now }
{
    let machine = files::machine_of(alloc, file)?;
    worked(alloc, &machine, case)
}

/// The result of the work on a machine.
fn worked(alloc: Global, m: &Machine, case: Case<'_>) -> Result<usize, Error> {
    match case.work {
        "build" => Ok(m.states()),
        "goes" | "images" | "symbols" => tables::answer(alloc, m, case),
        "alike" => Ok(equivalence(alloc, m)?.blocks()),
        "marks" => Ok(marks::classes(alloc, m)?),
        "reads" | "search" => codes::answer(alloc, m, case),
        _ => lattices::answer(alloc, m, case),
    }
}

fn main(rt: HostRuntime) -> Result<(), Error> {
    for line in env::args(&rt)?.skip(1) {
        let Some(case) = case_of(line.as_str()) else {
            bail!("a case has a subject, a kind, a size, the work and how often");
        };
        let (rows, found) = answer(rt.alloc(), case)?;
        println!(rt; "{line}: {rows} {found}")?;
    }
    Ok(())
}
