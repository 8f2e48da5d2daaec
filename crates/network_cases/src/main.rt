//! Runs the cases of networks. The form of a line is that of [`case_lines`]. The top of each file of `data/` says
//! what the arguments and the answers of its calls are: `nets.cases` has the calls of `blif_in` and `blif_out`,
//! `networks.cases` those of `net_core`, and `runs.cases` those of `net_sim`.
//!
//! In texts and in answers `\n`, `\r` and `\t` are one byte each, and so is `\x` with two hexadecimal digits. Too few
//! words make a case differ. A character that a call does not know counts as one that it knows. A new case is a line,
//! and needs no proof.
#![tactic(auto)]

mod designs;
mod letters;
mod net_texts;
mod networks;
mod runs;
mod words;

use anyhow::ensure;
use case_lines::{Answer, Calls, agree};
use std::alloc::Global;
use std::rt::Files;

/// The calls of networks.
struct NetworkCalls;

impl Calls for NetworkCalls {
    fn answer<R: Files + AllocGlobal>(
        &self,
        rt: &R,
        call: &str,
        words: &str,
    ) -> anyhow::Result<String> {
        let mut answer = Answer::new(rt.alloc());
        put_answer(rt.alloc(), call, words, &mut answer);
        answer.text()
    }
}

/// Puts what a call answers. The answer fails where the words do not fit the call.
fn put_answer(alloc: Global, call: &str, words: &str, answer: &mut Answer) {
    match call {
        "blif" | "blif_repeated" | "blif_text" => {
            net_texts::put_answer(alloc, call, words, answer);
        }
        "blif_design" | "is_signal" => designs::put_answer(alloc, call, words, answer),
        "digit" | "check" | "counts" => networks::put_answer(alloc, call, words, answer),
        _ => runs::put_answer(alloc, call, words, answer),
    }
}

fn main(rt: HostRuntime) -> anyhow::Result<()> {
    let nets = agree(&rt, &NetworkCalls, "nets.cases")?;
    let networks = agree(&rt, &NetworkCalls, "networks.cases")?;
    let runs = agree(&rt, &NetworkCalls, "runs.cases")?;
    ensure!(nets && networks && runs, "there are differences");
    Ok(())
}
