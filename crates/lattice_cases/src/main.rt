//! Runs the cases of partitions, of listings of joins and of covers of gates. The form of a line is that of
//! [`case_lines`]. The top of each file of `data/` says what the arguments and the answers of its calls are:
//! `labels.cases` has the calls of `Partition`, `rows.cases` those of `BitPart`, `joins.cases` those of
//! `hs_lattice` and of the worlds of partitions, and `covers.cases` those of `cover_logic`. `four_states.cases`
//! and `four_states_rows.cases` have all pairs of the partitions of four states. A case with words left over after
//! the arguments of its call differs. A new case is a line, and needs no proof.
#![tactic(auto)]

mod functions;
mod gates;
mod joins;
mod labels;
mod numbers;
mod rows;
mod terms;
mod words;
mod worlds;

use anyhow::ensure;
use case_lines::{Answer, Calls, agree};
use std::alloc::Global;
use std::rt::Files;

/// The calls that a file asks.
enum Asked {
    Labels,
    Rows,
    Joins,
    Covers,
}

/// The files, each with the calls that it asks.
static FILES: [(Asked, &str); 6] = [
    (Asked::Labels, "labels.cases"),
    (Asked::Rows, "rows.cases"),
    (Asked::Joins, "joins.cases"),
    (Asked::Labels, "four_states.cases"),
    (Asked::Rows, "four_states_rows.cases"),
    (Asked::Covers, "covers.cases"),
];

impl Asked {
    /// Puts what a call answers. The answer fails where the words do not fit the call.
    fn put_answer(&self, alloc: Global, call: &str, words: &str, answer: &mut Answer) {
        match self {
            Asked::Labels => labels::put_answer(alloc, call, words, answer),
            Asked::Rows => rows::put_answer(alloc, call, words, answer),
            Asked::Joins => joins::put_answer(alloc, call, words, answer),
            Asked::Covers => gates::put_answer(alloc, call, words, answer),
        }
    }
}

impl Calls for Asked {
    fn answer<R: Files + AllocGlobal>(
        &self,
        rt: &R,
        call: &str,
        words: &str,
    ) -> anyhow::Result<String> {
        let mut answer = Answer::new(rt.alloc());
        self.put_answer(rt.alloc(), call, words, &mut answer);
        answer.text()
    }
}

fn main(rt: HostRuntime) -> anyhow::Result<()> {
    let mut all = true;
    for (asked, name) in FILES.iter() {
        all = agree(&rt, asked, name)? && all;
    }
    ensure!(all, "there are differences");
    Ok(())
}
