//! Cases.

ghost use Rattle.std.specs.Prelude.{◌≡◌, IfOk, IsTrue};

use crate::Calls;
use crate::differences::first_difference;
use crate::files::CaseFiles;
use crate::wants::Wanted;
use anyhow::{Context, ensure};
use case_lines::number;
use hs_io::{MemShelf, MemSink, Name};
use job_words::Words;
use std::alloc::{AllocError, Global};

/// The room of out if a case does not say it.
const OUT_ROOM: usize = 8_388_608;

/// The room of err.
const ERR_ROOM: usize = 65_536;

/// A put that fails: its number, and how many bytes it takes.
type Failing = Option<(u32, usize)>;

/// A case.
#[derive(Drop)]
pub(crate) struct Case {
    alloc: Global,
    /// The number of the first line of the case.
    number: usize,
    pub(crate) words: Words,
    /// The words go to `answer`, and not to `status`.
    direct: bool,
    load: Option<u32>,
    out: Failing,
    err: Failing,
    room: usize,
    pub(crate) wanted: Wanted,
    kept: Option<Name>,
}

impl Case {
    /// The case with the words of a line, cut at each space.
    pub(crate) fn new(alloc: Global, number: usize, line: &str) -> Result<Case, AllocError> {
        Ok(Case {
            alloc,
            number,
            words: words_of(alloc, line)?,
            direct: false,
            load: None,
            out: None,
            err: None,
            room: OUT_ROOM,
            wanted: Wanted::new(alloc),
            kept: None,
        })
    }

    /// Takes a line of the case.
    pub(crate) fn take(&mut self, word: &str, rest: &str) -> anyhow::Result<()> {
        match word {
            "direct" => self.direct = true,
            "room" => self.room = number(rest)?,
            "keep" => self.kept = Some(Name::new(self.alloc, rest.as_bytes())?),
            "load" | "out" | "err" => return self.take_failing(word, rest),
            _ => return self.wanted.take(word, rest),
        }
        Ok(())
    }

    /// Takes which load or put fails.
    fn take_failing(&mut self, word: &str, rest: &str) -> anyhow::Result<()> {
        match word {
            "load" => self.load = Some(number_of_call(rest)?),
            "out" => self.out = Some(failing(rest)?),
            _ => self.err = Some(failing(rest)?),
        }
        Ok(())
    }

    /// Whether the case agrees. Prints the first difference, and keeps what out was given if the case says so.
    pub(crate) fn agrees<C: Calls, R: Print>(
        &self,
        rt: &R,
        calls: &C,
        name: &str,
        files: &mut CaseFiles,
    ) -> anyhow::Result<bool> {
        let mut shelf = files.shelf()?;
        let mut out = sink(self.alloc, self.room, self.out)?;
        let mut err = sink(self.alloc, ERR_ROOM, self.err)?;
        self.agrees_over(rt, calls, name, files, &mut shelf, &mut out, &mut err)
    }

    /// Whether the case agrees over a shelf and two sinks.
    fn agrees_over<C: Calls, R: Print>(
        &self,
        rt: &R,
        calls: &C,
        name: &str,
        files: &mut CaseFiles,
        shelf: &mut MemShelf,
        out: &mut MemSink,
        err: &mut MemSink,
    ) -> anyhow::Result<bool> {
        let status = self.call(calls, shelf, out, err)?;
        self.keep(files, out.bytes())?;
        self.compare(rt, name, files, status, out.bytes(), err.bytes())
    }

    /// The exit status, or the number of the answer.
    fn call<C: Calls>(
        &self,
        calls: &C,
        shelf: &mut MemShelf,
        out: &mut MemSink,
        err: &mut MemSink,
    ) -> anyhow::Result<u8> {
        if let Some(call) = self.load {
            shelf.fail_at(u64::from(call.max(1)))?;
        }
        if !self.direct {
            return Ok(calls.status(self.alloc, &self.words, shelf, out, err));
        }
        ensure!(self.words.count() < 1000, "too many words");
        Ok(calls.answer(self.alloc, &self.words, shelf, out, err))
    }

    /// Keeps what out was given if the case says so.
    fn keep(&self, files: &mut CaseFiles, given: &[u8]) -> Result<(), AllocError> {
        match &self.kept {
            Some(name) => files.add(name.bytes(), given),
            None => Ok(()),
        }
    }

    /// Whether the case is given what it wants. Prints the first difference.
    fn compare<R: Print>(
        &self,
        rt: &R,
        name: &str,
        files: &CaseFiles,
        status: u8,
        text: &[u8],
        told: &[u8],
    ) -> anyhow::Result<bool>
        ensures status { IfOk result (λ agrees. IsTrue agrees → status ≡ self.now.wanted.status) }
        ensures text { IfOk result
            (λ agrees. IsTrue agrees → IsTrue self.now.wanted.whole → text.now ≡ self.now.wanted.text.items) }
        ensures told { IfOk result (λ agrees. IsTrue agrees → told.now ≡ self.now.wanted.told.items) }
    {
        match first_difference(self.alloc, &self.wanted, files, status, text, told)? {
            None => Ok(true),
            Some(found) => {
                println!(rt; "{name} line {}: {found}", self.number)?;
                Ok(false)
            }
        }
    }
}

/// The words of a line, cut at each space.
fn words_of(alloc: Global, line: &str) -> Result<Words, AllocError> {
    let mut words = Words::new(alloc);
    if !line.is_empty() {
        for word in line.split(' ') {
            words.push(word.as_bytes())?;
        }
    }
    Ok(words)
}

/// A sink with this room, of which a put may fail.
fn sink(alloc: Global, room: usize, failing: Failing) -> Result<MemSink, AllocError> {
    let mut sink = MemSink::new(alloc, room)?;
    if let Some((call, take)) = failing {
        sink.fail_at(u64::from(call.max(1)), take);
    }
    Ok(sink)
}

/// The number of a put that fails, and how many bytes it takes.
fn failing(text: &str) -> anyhow::Result<(u32, usize)> {
    let (call, take) = text.split_once(' ').context("a number is missing")?;
    let call = number_of_call(call)?;
    Ok((call, number(take)?))
}

/// The number of a load or a put.
fn number_of_call(text: &str) -> anyhow::Result<u32> {
    text.parse::<u32>().context("a number is missing")
}
