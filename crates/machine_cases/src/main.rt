//! Runs the cases of machines: `pairs.cases` has the calls of `io_pairs` and of the world of Mm pairs,
//! `registers.cases` those of `shift_real`, `covers.cases` those of `cover_split`, and `codes.cases` those of
//! `least_codes`. `partitions.cases` has calls of `pair_operators`, `output_consistent`, `closed_lattice` and
//! `state_reduce` on given states and partitions. The form of a line is that of [`case_lines`]. Its first argument is
//! the file of a machine; what the others and the answers of a call are is told at the top of each file. A new case is
//! a line, and takes no proof.
#![tactic(auto)]

ghost use Rattle.std.specs.Prelude.{◌≡◌};
ghost use Rattle.kiss_file.specs.LawfulFile.{IsLawful};

mod codes;
mod covers;
mod networks;
mod pairs;
mod partitions;
mod registers;
mod words;
mod worlds;

use anyhow::{Context, ensure};
use case_lines::{Answer, Calls, agree};
use kiss_file::{Fill, KissFile};
use kiss2::read;
use kiss2_laws::read_is_lawful;
use machine_table::{Machine, lawful_is_a_table};
use std::alloc::Global;
use std::fs;
use std::rt::Files;
use words::cut;

/// The files of cases.
static FILES: [&str; 5] = [
    "pairs.cases",
    "registers.cases",
    "covers.cases",
    "codes.cases",
    "partitions.cases",
];

/// The calls of machines.
struct MachineCalls;

impl Calls for MachineCalls {
    fn answer<R: Files + AllocGlobal>(
        &self,
        rt: &R,
        call: &str,
        words: &str,
    ) -> anyhow::Result<String> {
        let (name, words) = cut(words);
        let bytes = fs::read(rt, name).context("reading the machine")?;
        answer_of(rt.alloc(), call, words, bytes.as_slice())
    }
}

/// What a call answers for the machine of a file.
fn answer_of(alloc: Global, call: &str, words: &str, bytes: &[u8]) -> anyhow::Result<String> {
    let mut answer = Answer::new(alloc);
    put_answer_of(alloc, call, words, bytes, &mut answer);
    answer.text()
}

/// Puts what a call answers for the machine of a file. The answer fails where the bytes are no file.
fn put_answer_of(alloc: Global, call: &str, words: &str, bytes: &[u8], answer: &mut Answer) {
    if bytes.len() > 4_194_304 {
        return answer.fail();
    }
    read_is_lawful();
    match read(alloc, bytes) {
        Ok(file) => put_answer_in(alloc, call, words, &file, answer),
        Err(_) => answer.fail(),
    }
}

/// Puts what a call answers for the machine of a file. The answer fails where the file has no machine.
fn put_answer_in(alloc: Global, call: &str, words: &str, file: &KissFile, answer: &mut Answer)
    requires { IsLawful file.now }
{
    lawful_is_a_table();
    match Machine::build(alloc, file, Fill::Refuse) {
        Ok(machine) => put_answer(alloc, call, words, file, &machine, answer),
        Err(_) => answer.fail(),
    }
}

/// Puts what a call answers for a machine. The answer fails where the words do not fit the call.
fn put_answer(
    alloc: Global,
    call: &str,
    words: &str,
    file: &KissFile,
    m: &Machine,
    answer: &mut Answer,
)
    requires lawful { IsLawful file.now }
    requires machine { m.now ≡ file.now }
{
    match call {
        "chain" => registers::put_chain(alloc, m, answer),
        "order" => registers::put_order(alloc, m, answer),
        "start" => registers::put_start(alloc, m, answer),
        "register" => registers::put_register(alloc, file, m, answer),
        "cover" => covers::put_cover(alloc, words, m, answer),
        "latch_reads" | "output_reads" => codes::put_reads(alloc, call, words, m, answer),
        "least_code" => codes::put_least_code(alloc, m, answer),
        "mm_least" | "mm_join" | "mm_before" | "mm_joined" => {
            worlds::put_in_mm_world(alloc, call, words, m, answer);
        }
        "is_pair" | "is_consistent" => partitions::put_decided(alloc, call, words, m, answer),
        "apart" | "below" | "bit_partition" | "principal" | "separating" => {
            partitions::put_found(alloc, call, words, m, answer);
        }
        "atoms" => partitions::put_atoms(alloc, m, answer),
        "quotient" => partitions::put_quotient(alloc, words, file, m, answer),
        _ => pairs::put_answer(alloc, call, words, m, answer),
    }
}

fn main(rt: HostRuntime) -> anyhow::Result<()> {
    let mut all = true;
    for name in FILES.iter() {
        all = agree(&rt, &MachineCalls, name)? && all;
    }
    ensure!(all, "there are differences");
    Ok(())
}
