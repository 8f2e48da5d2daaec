//! What a case wants.

use crate::texts::number_and_text;
use anyhow::bail;
use case_lines::number;
use std::alloc::{AllocError, Global};

/// What a case wants.
#[derive(Drop)]
pub(crate) struct Wanted {
    alloc: Global,
    pub(crate) status: usize,
    /// The text, or how it begins.
    pub(crate) text: Vec<u8>,
    pub(crate) whole: bool,
    /// How many lines begin with `start`, if the case says it.
    pub(crate) lines: Option<usize>,
    pub(crate) start: Vec<u8>,
    /// Whether the file named `summary` says how many digits 1 there are.
    pub(crate) ones: bool,
    pub(crate) summary: Vec<u8>,
    /// What err is given.
    pub(crate) told: Vec<u8>,
}

impl Wanted {
    /// The status 0, no text and nothing on err.
    pub(crate) fn new(alloc: Global) -> Wanted {
        Wanted {
            alloc,
            status: 0,
            text: Vec::new(alloc),
            whole: true,
            lines: None,
            start: Vec::new(alloc),
            ones: false,
            summary: Vec::new(alloc),
            told: Vec::new(alloc),
        }
    }

    /// Takes a line that says what the case wants.
    pub(crate) fn take(&mut self, word: &str, rest: &str) -> anyhow::Result<()> {
        match word {
            "status" => self.status = number(rest)?,
            "lines" => self.take_lines(rest)?,
            "ones" => {
                self.ones = true;
                copy(&mut self.summary, rest.as_bytes())?;
            }
            "line" => {
                copy(&mut self.told, rest.as_bytes())?;
                self.told.push(b'\n')?;
            }
            _ => bail!("no such line"),
        }
        Ok(())
    }

    /// Takes how many lines begin with a text.
    fn take_lines(&mut self, rest: &str) -> anyhow::Result<()> {
        let (count, start) = number_and_text(rest)?;
        self.lines = Some(count);
        copy(&mut self.start, start.as_bytes())?;
        Ok(())
    }
}

/// Puts the bytes into a list, instead of what it held.
pub(crate) fn copy(list: &mut Vec<u8>, bytes: &[u8]) -> Result<(), AllocError> {
    list.clear();
    list.extend_from_slice(bytes)?;
    Ok(())
}
