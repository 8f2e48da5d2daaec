//! The lines of a file of cases.

ghost use Rattle.std.specs.Prelude.{◌≤◌, IfOk};

use crate::cases::Case;
use crate::files::CaseFiles;
use crate::texts::word_and_rest;
use crate::wants::copy;
use crate::{Calls, Tally, texts};
use anyhow::{Context, bail};
use std::alloc::{AllocError, Global};
use std::mem;
use std::rt::Files;

/// How many cases of the text of a file agree. Prints each case that differs, and how many agree.
pub(crate) fn tally_of<C: Calls, R: Files + AllocGlobal + Print>(
    rt: &R,
    calls: &C,
    name: &str,
    text: &str,
) -> anyhow::Result<Tally>
    ensures { IfOk result (λ tally. tally.agreeing ≤ tally.cases) }
{
    let mut script = Script::new(rt.alloc());
    script.run(rt, calls, name, text)
}

/// What a line is.
#[derive(Clone, Copy)]
enum LineKind {
    /// It says nothing.
    Comment,
    /// It adds to the text.
    Text,
    /// It begins a file or a case.
    Begin,
    /// It is a line of the open case.
    OfCase,
}

/// What a text is for.
#[derive(Clone, Copy)]
enum Place {
    Nowhere,
    File,
    Word,
    Wanted,
    Told,
}

/// What was read so far.
#[derive(Drop)]
struct Script {
    alloc: Global,
    /// The number of lines so far.
    lines: usize,
    files: CaseFiles,
    case: Option<Case>,
    place: Place,
    /// The name of the file that the text is for.
    file: Vec<u8>,
    text: Vec<u8>,
    tally: Tally,
}

impl Script {
    fn new(alloc: Global) -> Script {
        Script {
            alloc,
            lines: 0,
            files: CaseFiles::new(alloc),
            case: None,
            place: Place::Nowhere,
            file: Vec::new(alloc),
            text: Vec::new(alloc),
            tally: Tally::new(),
        }
    }

    /// Takes the lines of a file, and prints how many of its cases agree.
    fn run<C: Calls, R: Files + AllocGlobal + Print>(
        &mut self,
        rt: &R,
        calls: &C,
        name: &str,
        text: &str,
    ) -> anyhow::Result<Tally>
        ensures { IfOk result (λ tally. tally.agreeing ≤ tally.cases) }
    {
        let taken = self.take_all(rt, calls, name, text);
        taken.context(format_args!("{name} after {} lines", self.lines))?;
        self.report(rt, name)
    }

    /// Prints how many cases agree.
    fn report<R: Print>(&self, rt: &R, name: &str) -> anyhow::Result<Tally>
        ensures { IfOk result (λ tally. tally.agreeing ≤ tally.cases) }
    {
        let tally = self.tally;
        println!(rt; "{name}: {} of {} agree", tally.agreeing, tally.cases)?;
        Ok(tally)
    }

    /// Takes the lines of a file, and ends the last text and the last case.
    fn take_all<C: Calls, R: Files + AllocGlobal + Print>(
        &mut self,
        rt: &R,
        calls: &C,
        name: &str,
        text: &str,
    ) -> anyhow::Result<()> {
        for line in text.split('\n') {
            self.take(rt, calls, name, line)?;
            self.lines = self.lines.saturating_add(1);
        }
        self.end(rt, calls, name)
    }

    /// Takes a line.
    fn take<C: Calls, R: Files + AllocGlobal + Print>(
        &mut self,
        rt: &R,
        calls: &C,
        name: &str,
        line: &str,
    ) -> anyhow::Result<()> {
        let (word, rest) = word_and_rest(line);
        match kind_of(line, word) {
            LineKind::Comment => Ok(()),
            LineKind::Text => texts::add(rt, &self.files, &mut self.text, word, rest),
            LineKind::Begin => {
                self.end(rt, calls, name)?;
                self.begin(word, rest)
            }
            LineKind::OfCase => self.take_of_case(word, rest),
        }
    }

    /// Puts the text where it belongs, and runs the open case.
    fn end<C: Calls, R: Print>(&mut self, rt: &R, calls: &C, name: &str) -> anyhow::Result<()> {
        self.end_text()?;
        self.end_case(rt, calls, name)
    }

    /// Begins a file, or a case.
    fn begin(&mut self, word: &str, rest: &str) -> anyhow::Result<()> {
        if word == "file" {
            self.place = Place::File;
            copy(&mut self.file, rest.as_bytes())?;
            return Ok(());
        }
        let case = Case::new(self.alloc, self.lines.saturating_add(1), rest)?;
        self.case = Some(case);
        Ok(())
    }

    /// Takes a line of the open case.
    fn take_of_case(&mut self, word: &str, rest: &str) -> anyhow::Result<()> {
        self.end_text()?;
        let Some(case) = &mut self.case else {
            bail!("no case stands here");
        };
        self.place = match word {
            "word" => Place::Word,
            "text" => Place::Wanted,
            "front" => {
                case.wanted.whole = false;
                Place::Wanted
            }
            "told" => Place::Told,
            _ => return case.take(word, rest),
        };
        Ok(())
    }

    /// Puts the text where it belongs.
    fn end_text(&mut self) -> Result<(), AllocError> {
        match self.place {
            Place::Nowhere => {}
            Place::File => self.files.add(self.file.as_slice(), self.text.as_slice())?,
            _ => self.end_text_of_case()?,
        }
        self.place = Place::Nowhere;
        self.text.clear();
        Ok(())
    }

    /// Puts the text where it belongs in the open case, and leaves any other.
    fn end_text_of_case(&mut self) -> Result<(), AllocError> {
        let Some(case) = &mut self.case else {
            return Ok(());
        };
        match self.place {
            Place::Word => case.words.push(self.text.as_slice())?,
            Place::Wanted => mem::swap(&mut case.wanted.text, &mut self.text),
            Place::Told => mem::swap(&mut case.wanted.told, &mut self.text),
            Place::Nowhere | Place::File => {}
        }
        Ok(())
    }

    /// Runs the open case, if there is one, and prints its difference.
    fn end_case<C: Calls, R: Print>(
        &mut self,
        rt: &R,
        calls: &C,
        name: &str,
    ) -> anyhow::Result<()> {
        if let Some(case) = &self.case {
            let agrees = case.agrees(rt, calls, name, &mut self.files)?;
            self.tally.count(agrees);
            self.case = None;
        }
        Ok(())
    }
}

/// What a line with this first word is.
fn kind_of(line: &str, word: &str) -> LineKind {
    if line.is_empty() || line.starts_with('#') {
        return LineKind::Comment;
    }
    match word {
        "|" | "bytes" | "times" | "each" | "fill" | "copy" | "data" | "cut" => LineKind::Text,
        "file" | "case" => LineKind::Begin,
        _ => LineKind::OfCase,
    }
}
