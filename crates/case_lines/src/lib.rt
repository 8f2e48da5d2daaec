//! Files of cases. A line is a case: it says a call, its arguments and its answer.
//!
//! Empty lines and lines that begin with `#` are skipped. In every other line the call is the first word, its
//! arguments are the words up to the first ` =`, and the answer is what follows after one space:
//! `meet 0,1,0,2 0,1,2,1 = 0,1,2,3`. Cases of one call follow one another.
//!
//! A program of cases says in its [`Calls`] what a call of its libraries answers, as a text. For each call,
//! [`agree`] prints `CALL: N cases` if all of its cases agree. It prints each case that differs, with the
//! number of bytes before the first difference. Where arguments or answers are bytes, [`unescaped`] reads them and
//! [`escaped`] writes them. The library `case_scripts`, whose cases have more lines, takes numbers and escapes from
//! here. This crate is only for programs of cases, and promises only what an [`Answer`] holds, what [`escaped`] writes
//! and the range of [`limit`].
#![tactic(auto)]

ghost use Rattle.std.specs.Prelude.{◌≤◌, IfOk};

mod answer;
mod escapes;

pub use answer::Answer;
use anyhow::{Context, bail};
pub use escapes::{escaped, unescaped};
use std::fs;
use std::rt::Files;

/// The calls that cases name.
pub trait Calls {
    /// What a call answers, as a text. The words are its arguments.
    fn answer<R: Files + AllocGlobal>(
        &self,
        rt: &R,
        call: &str,
        words: &str,
    ) -> anyhow::Result<String>;
}

/// A case of a file.
#[derive(Clone, Copy)]
struct Case<'a> {
    call: &'a str,
    words: &'a str,
    wanted: &'a str,
}

/// The number of cases of one call, and how many of them differ.
#[derive(Clone, Copy, Default)]
struct Tally {
    cases: u32,
    differ: u32,
}

impl Tally {
    /// Counts a case that agrees or differs.
    fn count(&mut self, agree: bool) {
        self.cases = self.cases.saturating_add(1);
        if !agree {
            self.differ = self.differ.saturating_add(1);
        }
    }
}

/// Whether all cases of a file agree. Prints a line for each call whose cases all agree, and a line for each
/// case that differs.
pub fn agree<C: Calls, R: Files + AllocGlobal + Print>(
    rt: &R,
    calls: &C,
    name: &str,
) -> anyhow::Result<bool> {
    let text = fs::read_to_string(rt, name).context(format_args!("reading {name}"))?;
    all_agree(rt, calls, text.as_str())
}

/// Whether all cases of a text agree. Prints what [`agree`] prints.
fn all_agree<C: Calls, R: Files + AllocGlobal + Print>(
    rt: &R,
    calls: &C,
    text: &str,
) -> anyhow::Result<bool> {
    let mut all = true;
    let mut last = "";
    let mut tally = Tally::default();
    for line in text.split('\n') {
        if line.is_empty() || line.starts_with('#') {
            continue;
        }
        let case = case_of(line);
        all = take(rt, calls, &case, last, &mut tally)? && all;
        last = case.call;
    }
    report(rt, last, &tally)?;
    Ok(all)
}

/// Whether a case agrees. Counts it in the tally of the last call, which is begun anew where the call is another one.
fn take<C: Calls, R: Files + AllocGlobal + Print>(
    rt: &R,
    calls: &C,
    case: &Case<'_>,
    last: &str,
    tally: &mut Tally,
) -> anyhow::Result<bool> {
    if case.call != last {
        report(rt, last, tally)?;
        *tally = Tally::default();
    }
    let agree = agrees(rt, calls, case)?;
    tally.count(agree);
    Ok(agree)
}

/// The case that a line says. Its answer follows a space.
fn case_of(line: &str) -> Case<'_> {
    let (question, wanted) = cut(line, " =");
    let (call, words) = cut(question, " ");
    let wanted = wanted.strip_prefix(' ').unwrap_or(wanted);
    Case {
        call,
        words,
        wanted,
    }
}

/// The text up to the first mark, and the text after it.
fn cut<'a>(text: &'a str, mark: &str) -> (&'a str, &'a str) {
    text.split_once(mark).unwrap_or((text, ""))
}

/// Prints the number of cases of a call, if all of them agree.
fn report<R: Print>(rt: &R, call: &str, tally: &Tally) -> anyhow::Result<()> {
    if tally.cases > 0 && tally.differ == 0 {
        println!(rt; "{call}: {} cases", tally.cases)?;
    }
    Ok(())
}

/// Whether the answer is the wanted one. Prints the case if it is not.
fn agrees<C: Calls, R: Files + AllocGlobal + Print>(
    rt: &R,
    calls: &C,
    case: &Case<'_>,
) -> anyhow::Result<bool> {
    match calls.answer(rt, case.call, case.words) {
        Ok(found) => is_wanted(rt, case, found.as_str()),
        Err(error) => {
            println!(rt; "{} {}: {error:?}", case.call, case.words)?;
            Ok(false)
        }
    }
}

/// Whether what was found is wanted. Prints the case if it is not.
fn is_wanted<R: Print>(rt: &R, case: &Case<'_>, found: &str) -> anyhow::Result<bool> {
    if found == case.wanted {
        return Ok(true);
    }
    let place = first_difference(found.as_bytes(), case.wanted.as_bytes());
    println!(rt;
        "{} {}: found {found}, wanted {}, which differ after {place} bytes",
        case.call, case.words, case.wanted
    )?;
    Ok(false)
}

/// The number of bytes before the first difference.
fn first_difference(found: &[u8], wanted: &[u8]) -> usize {
    let most = found.len().min(wanted.len());
    for i in 0..most {
        if found[i] != wanted[i] {
            return i;
        }
    }
    most
}

/// The number that a word says.
pub fn number(word: &str) -> anyhow::Result<usize> {
    word.parse().ok().context("no number")
}

/// A limit from 1 to 10,000 that the first word says, and the words after it, or `-` if there are none.
pub fn limit(words: &str) -> anyhow::Result<(usize, &str)>
    ensures positive { IfOk result (λ it. 1 ≤ it.0) }
    ensures bounded { IfOk result (λ it. it.0 ≤ 10000) }
{
    let (most, rest) = words.split_once(' ').unwrap_or((words, "-"));
    let most = number(most)?;
    if most == 0 || most > 10000 {
        bail!("no limit");
    }
    Ok((most, rest))
}
