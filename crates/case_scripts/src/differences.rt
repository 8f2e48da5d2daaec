//! What differs from what a case wants.

ghost use Rattle.std.specs.Prelude.{◌≡◌, IfNone, IfOk, IsTrue};

use crate::files::CaseFiles;
use crate::wants::Wanted;
use std::alloc::{AllocError, Global};
use std::{fmt, str};

/// A difference between what a case is given and what it wants.
#[derive(Clone, Copy)]
pub(crate) enum Difference<'a> {
    Status(u8, usize),
    Line(Apart<'a>),
    /// Another number of lines than the wanted one begins with a text.
    Count(usize, &'a [u8], usize),
    /// The summary has no line with this number of ones.
    Ones(usize),
}

/// The first line in which two texts differ: the number of lines before it, and what each text has there.
#[derive(Clone, Copy)]
pub(crate) struct Apart<'a> {
    what: &'static str,
    place: usize,
    given: Place<'a>,
    wanted: Place<'a>,
}

/// A line of a text, or None for its end.
#[derive(Clone, Copy)]
struct Place<'a>(Option<&'a [u8]>);

impl fmt::Display for Difference<'_> {
    fn fmt<W: fmt::Write>(&self, f: &mut fmt::Formatter<W>) -> fmt::Result {
        match self {
            Difference::Status(given, wanted) => write!(f, "status {given}, not {wanted}"),
            Difference::Line(apart) => apart.fmt(f),
            Difference::Count(given, start, wanted) => {
                write!(f, "{given} lines {:?}, not {wanted}", shown(start))
            }
            Difference::Ones(ones) => write!(f, "no line # ones {ones} in the summary"),
        }
    }
}

impl fmt::Display for Apart<'_> {
    fn fmt<W: fmt::Write>(&self, f: &mut fmt::Formatter<W>) -> fmt::Result {
        let what = self.what;
        let wanted = self.wanted;
        if self.given.0.is_none() {
            return write!(f, "{what}: the end, not {wanted}");
        }
        write!(
            f,
            "{what} after {} lines: {}, not {wanted}",
            self.place, self.given
        )
    }
}

impl fmt::Display for Place<'_> {
    fn fmt<W: fmt::Write>(&self, f: &mut fmt::Formatter<W>) -> fmt::Result {
        match self.0 {
            Some(line) => write!(f, "{:?}", shown(line)),
            None => f.write_str("the end"),
        }
    }
}

/// The text of some bytes, or words that say that they are no text.
fn shown(bytes: &[u8]) -> &str {
    str::from_utf8(bytes).unwrap_or("bytes that are no text")
}

/// The first difference, if there is any: in the status, the text, its lines, its ones, or what err was given.
pub(crate) fn first_difference<'a>(
    alloc: Global,
    wanted: &'a Wanted,
    files: &CaseFiles,
    status: u8,
    text: &'a [u8],
    told: &'a [u8],
) -> anyhow::Result<Option<Difference<'a>>>
    ensures status { IfOk result (λ found. IfNone found (status ≡ wanted.now.status)) }
    ensures text { IfOk result (λ found. IfNone found (IsTrue wanted.now.whole → text.now ≡ wanted.now.text.items)) }
    ensures told { IfOk result (λ found. IfNone found (told.now ≡ wanted.now.told.items)) }
{
    match text_apart(wanted, status, text) {
        Some(found) => Ok(Some(found)),
        None => other_apart(alloc, wanted, files, text, told),
    }
}

/// The first difference in the ones of the text, or in what err was given.
fn other_apart<'a>(
    alloc: Global,
    wanted: &'a Wanted,
    files: &CaseFiles,
    text: &'a [u8],
    told: &'a [u8],
) -> anyhow::Result<Option<Difference<'a>>>
    ensures { IfOk result (λ found. IfNone found (told.now ≡ wanted.now.told.items)) }
{
    if wanted.ones {
        let summary = files.bytes(wanted.summary.as_slice())?;
        if let Some(found) = ones_apart(alloc, text, summary)? {
            return Ok(Some(found));
        }
    }
    Ok(first_line_apart("err", told, wanted.told.as_slice()))
}

/// The first difference in the status, the text or its lines.
fn text_apart<'a>(wanted: &'a Wanted, status: u8, text: &'a [u8]) -> Option<Difference<'a>>
    ensures status { IfNone result (status ≡ wanted.now.status) }
    ensures text { IfNone result (IsTrue wanted.now.whole → text.now ≡ wanted.now.text.items) }
{
    if usize::from(status) != wanted.status {
        return Some(Difference::Status(status, wanted.status));
    }
    if let Some(found) = text_line_apart(wanted, text) {
        return Some(found);
    }
    match wanted.lines {
        Some(count) => count_apart(text, count, wanted.start.as_slice()),
        None => None,
    }
}

/// The first line in which a text differs from the wanted one, if there is any. Where only the front is wanted, what
/// follows it is left out.
fn text_line_apart<'a>(wanted: &'a Wanted, text: &'a [u8]) -> Option<Difference<'a>>
    ensures { IfNone result (IsTrue wanted.now.whole → text.now ≡ wanted.now.text.items) }
{
    if wanted.whole {
        return first_line_apart("text", text, wanted.text.as_slice());
    }
    let most = wanted.text.len().min(text.len());
    first_line_apart("text", &text[..most], wanted.text.as_slice())
}

/// The first line in which two texts differ, if there is any.
fn first_line_apart<'a>(
    what: &'static str,
    given: &'a [u8],
    wanted: &'a [u8],
) -> Option<Difference<'a>>
    ensures { IfNone result (given.now ≡ wanted.now) }
{
    if given == wanted {
        return None;
    }
    let mut others = wanted.split(|byte| *byte == b'\n');
    let mut place = 0usize;
    for line in given.split(|byte| *byte == b'\n') {
        let other = others.next();
        if other != Some(line) {
            return Some(line_apart(what, place, Some(line), other));
        }
        place = place.saturating_add(1);
    }
    Some(line_apart(what, place, None, others.next()))
}

/// The difference in a line.
fn line_apart<'a>(
    what: &'static str,
    place: usize,
    given: Option<&'a [u8]>,
    wanted: Option<&'a [u8]>,
) -> Difference<'a> {
    Difference::Line(Apart {
        what,
        place,
        given: Place(given),
        wanted: Place(wanted),
    })
}

/// The difference if another number of lines than the count begins with `start`.
fn count_apart<'a>(text: &[u8], count: usize, start: &'a [u8]) -> Option<Difference<'a>> {
    let text = text.strip_suffix(b"\n").unwrap_or(text);
    let lines = text.split(|byte| *byte == b'\n');
    let found = lines.filter(|line| line.starts_with(start)).count();
    if found == count {
        return None;
    }
    Some(Difference::Count(found, start, count))
}

/// The difference if the summary has no line `# ones N` with the number of ones of the text.
fn ones_apart<'a>(
    alloc: Global,
    text: &[u8],
    summary: &[u8],
) -> Result<Option<Difference<'a>>, AllocError> {
    let ones = text.iter().filter(|byte| **byte == b'1').count();
    let line = format!(in alloc; "# ones {ones}")?;
    if has_line(summary, line.as_bytes()) {
        return Ok(None);
    }
    Ok(Some(Difference::Ones(ones)))
}

/// Whether a text has a line.
fn has_line(text: &[u8], line: &[u8]) -> bool {
    let mut lines = text.split(|byte| *byte == b'\n');
    lines.any(|other| other == line)
}
