//! The lines of a text one after another, each with its fields.

ghost use Rattle.std.specs.Prelude.{◌≡◌, ◌<◌, ◌^◌, [], ◌∷◌, length, IfNone, IfOk, IfSome, OnErr};
ghost use Rattle.hs_io.specs.Lines.{fields_of, line_of, lines_of};

use super::{Fields, Line, content_of, first_field, first_line, is_clean};
use crate::Name;
use std::alloc::{AllocError, Global};
use std::marker::Model;

/// Gives the lines of a text one after another. A contract sees the lines that are still to come.
#[derive(Drop)]
pub struct LineReader<'a> {
    rest: &'a [u8],
    given: u32,
}

impl<'a> Model for LineReader<'a> {
    ghost use Rattle.std.specs.Prelude.{◌+◌, ◌<◌, ◌^◌, List, length};
    ghost use Rattle.hs_io.specs.declared.lines.Line.{Line};
    ghost use Rattle.hs_io.specs.Lines.{lines_from, physical_lines};

    ghost Value = { List Line };

    ghost view = { λ reader. lines_from (reader.given + 1) (physical_lines reader.rest.now) };

    ghost invariant = { λ reader. reader.given + length reader.rest.now < 2 ^ 32 };
}

impl<'a> LineReader<'a> {
    /// Before the first line of the text. It takes no memory.
    pub fn new(text: &'a [u8]) -> LineReader<'a>
        requires { length text.now < 2 ^ 32 }
        ensures { result ≡ lines_of text.now }
    {
        LineReader {
            rest: text,
            given: 0,
        }
    }

    /// The next line, or `None` after the last one. If memory runs out, the reader stays as it was.
    pub fn next_line(&mut self, alloc: Global) -> Result<Option<Line>, AllocError>
        ensures some { IfOk result (λ next. IfSome next (λ line. self.old ≡ line ∷ self.new)) }
        ensures none { IfOk result (λ next. IfNone next (self.old ≡ [])) }
        ensures nothing_left { IfOk result (λ next. IfNone next (self.new ≡ [])) }
        ensures unchanged { OnErr result (self.new ≡ self.old) }
    {
        if self.rest.is_empty() {
            return Ok(None);
        }
        let (text, more) = first_line(self.rest);
        let number = self.given + 1;
        let line = read_line(alloc, number, text)?;
        self.rest = more;
        self.given = number;
        Ok(Some(line))
    }
}

/// A line with its number.
fn read_line(alloc: Global, number: u32, line: &[u8]) -> Result<Line, AllocError>
    ensures { IfOk result (λ read. read ≡ line_of number line.now) }
{
    let text = content_of(line);
    Ok(Line {
        number,
        fields: cut_fields(alloc, text)?,
        bad: !is_clean(text),
    })
}

/// The runs of bytes other than blanks.
fn cut_fields(alloc: Global, text: &[u8]) -> Result<Fields, AllocError>
    ensures { IfOk result (λ fields. fields ≡ fields_of text.now) }
{
    let mut fields = Fields::new(alloc);
    let (mut field, mut rest) = first_field(text);
    while !field.is_empty() {
        fields.push(Name::new(alloc, field)?)?;
        (field, rest) = first_field(rest);
    }
    Ok(fields)
}
