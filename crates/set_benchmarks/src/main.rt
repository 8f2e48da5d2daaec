//! Makes cubes, covers, and partitions as `labels` or as rows of `bits`, and works on them, so that a script can time
//! the work from outside, and prints only counts. Each argument is a case, which is words separated by one space: the
//! subject, the kind, its size, the work, and how many times it is done. The functions that make the kinds describe
//! them: `cubes_of`, `gate_of` and `partitions_of`. With 0 times the case is made and nothing is done.
//!
//! - `gap` asks `first_gap`. `scan` asks each cube, once for each bit of a symbol, whether it holds symbol 0 or
//!   symbol 1, in turn.
//! - `cover` makes the cover that the product writes. `check` tests that the lists may be covered: it compares
//!   each term of on with each term of off.
//! - `meet`, `join` and `before` ask about the first partition and the last one. `plain` asks of each two
//!   states whether they are together in both. `list` lists the joins of all the partitions, up to 10,000.
#![tactic(auto)]

mod covers;
mod cubes_of_kinds;
mod gaps;
mod gates;
mod partitions;
mod trees;
mod worlds;

use anyhow::{Error, bail};
use bench_cases::{Case, case_of};
use std::alloc::Global;
use std::env;

/// The two counts that the work on a case gives.
fn answer(alloc: Global, case: Case<'_>) -> Result<(usize, usize), Error> {
    match case.subject {
        "cubes" => gaps::answer(alloc, case),
        "covers" => covers::answer(alloc, case),
        "labels" => worlds::answer_labels(alloc, case),
        "bits" => worlds::answer_bits(alloc, case),
        _ => bail!("no such subject"),
    }
}

fn main(rt: HostRuntime) -> Result<(), Error> {
    for line in env::args(&rt)?.skip(1) {
        let Some(case) = case_of(line.as_str()) else {
            bail!("a case has a subject, a kind, a size, the work and how often");
        };
        let (first, second) = answer(rt.alloc(), case)?;
        println!(rt; "{line}: {first} {second}")?;
    }
    Ok(())
}
