//! Files of cases that have more lines than one. A case says words, files, and loads and puts that fail, and what has
//! to come of them: a status, a text and a line.
//!
//! A file of cases is read line by line. Empty lines and lines that begin with `#` are skipped. A line is a
//! word and the text after the first space.
//!
//! | Line | Means |
//! |---|---|
//! | `file NAME` | the text below is the file NAME of the cases that follow, instead of an earlier one |
//! | `case WORDS` | a case with these words, cut at each space; `case` alone has none |
//! | `word` | one more word of the case, which is the text below |
//! | `direct` | the words go to [`answer`](Calls::answer), and not to [`status`](Calls::status) as arguments |
//! | `load N` | load N fails, counted from 1 |
//! | `out N K` | put N to out takes K bytes and fails |
//! | `err N K` | the same for err |
//! | `room N` | out has room for N bytes; without this line it is 8,388,608 |
//! | `status N` | the exit status, or for `direct` the number of the answer; without this line it is 0 |
//! | `text` | out is given the text below; without this line nothing |
//! | `front` | out is given a text that begins with the text below |
//! | `lines N START` | N of its lines begin with START |
//! | `ones NAME` | it has N digits 1, where the file NAME has a line `# ones N` |
//! | `line TEXT` | err is given this line; without this line nothing |
//! | `told` | err is given the text below |
//! | `keep NAME` | what out was given is the file NAME of the cases that follow |
//!
//! A text is the lines below, one after another:
//!
//! | Line | Adds |
//! |---|---|
//! | `\| TEXT` | TEXT and the end of a line; `\|` alone an empty line |
//! | `bytes TEXT` | TEXT |
//! | `times N TEXT` | TEXT, N times |
//! | `each N TEXT` | TEXT for each number from 0 below N, with each `@` replaced by the number |
//! | `fill N TEXT` | TEXT, again and again while the text has fewer than N bytes |
//! | `copy NAME` | the file NAME of these cases |
//! | `data NAME` | the file NAME of `data/` |
//! | `cut N` | nothing: it leaves the first N bytes |
//!
//! In `bytes`, `times`, `each` and `fill` the bytes of `\n`, `\r`, `\t` and `\xHH` are written so, HH being two
//! hexadecimal digits.
//!
//! A program of cases says in its [`Calls`] what it calls. For each file, [`agree`] prints how many of its cases agree,
//! and for a case that differs the line and the first difference. This crate is only for programs of cases. It
//! promises that no more cases agree than there are. A case agrees only if the status, the line and a text that is
//! wanted whole are those that it wants.
#![tactic(auto)]

ghost use Rattle.std.specs.Prelude.{◌<◌, ◌≤◌, IfOk, length};

mod cases;
mod differences;
mod files;
mod script;
mod tally;
mod texts;
mod wants;

use anyhow::Context;
use hs_io::{MemShelf, MemSink};
use job_words::Words;
use std::alloc::Global;
use std::fs;
use std::rt::Files;
pub use tally::Tally;

/// The calls that cases make, over a shelf and two sinks in memory.
pub trait Calls {
    /// The exit status, for the words as arguments.
    fn status(
        &self,
        alloc: Global,
        words: &Words,
        shelf: &mut MemShelf,
        out: &mut MemSink,
        err: &mut MemSink,
    ) -> u8;

    /// The number of the answer to the words.
    fn answer(
        &self,
        alloc: Global,
        words: &Words,
        shelf: &mut MemShelf,
        out: &mut MemSink,
        err: &mut MemSink,
    ) -> u8
        requires few { length words.now < 1000 };
}

/// How many cases of a file agree. Prints each case that differs, and how many agree.
pub fn agree<C: Calls, R: Files + AllocGlobal + Print>(
    rt: &R,
    calls: &C,
    name: &str,
) -> anyhow::Result<Tally>
    ensures { IfOk result (λ tally. tally.agreeing ≤ tally.cases) }
{
    let text = fs::read_to_string(rt, name).context(format_args!("reading {name}"))?;
    script::tally_of(rt, calls, name, &text)
}
