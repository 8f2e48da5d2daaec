//! Texts cut into lines and fields.

ghost use Rattle.std.specs.Prelude.{◌<◌, ◌^◌, length};

use hs_io::{Line, Name, content_of, cut_lines, is_clean};
use std::alloc::{AllocError, Global};

/// Cuts a text by `cut_lines`. Gives the numbers of its lines and of its fields.
pub(crate) fn cut(alloc: Global, text: &[u8]) -> Result<(usize, usize), AllocError>
    requires { length text.now < 2 ^ 32 }
{
    let lines = cut_lines(alloc, text)?;
    Ok((lines.len(), fields_of(&lines)))
}

/// The number of fields of lines.
fn fields_of(lines: &[Line]) -> usize {
    let mut fields = 0usize;
    for line in lines {
        fields = fields.wrapping_add(line.fields.as_slice().len());
    }
    fields
}

/// A line whose fields are in a list.
#[derive(Drop)]
struct PlainLine {
    fields: Vec<Name>,
    clean: bool,
}

/// Cuts a text plainly. Gives the numbers of its lines that are not empty and of the fields of those that are
/// clean.
pub(crate) fn cut_to_lists(alloc: Global, text: &[u8]) -> Result<(usize, usize), AllocError> {
    let mut lines = Vec::new(alloc);
    for line in text.split(|b| *b == b'\n') {
        if !line.is_empty() {
            lines.push(plain_line(alloc, content_of(line))?)?;
        }
    }
    Ok((lines.len(), plain_fields(&lines)))
}

/// The number of fields of the clean lines.
fn plain_fields(lines: &[PlainLine]) -> usize {
    let mut fields = 0usize;
    for line in lines {
        if line.clean {
            fields = fields.wrapping_add(line.fields.len());
        }
    }
    fields
}

/// The fields of a line without its comment, and whether it is clean.
fn plain_line(alloc: Global, line: &[u8]) -> Result<PlainLine, AllocError> {
    let mut fields = Vec::new(alloc);
    for run in line.split(|b| *b == b' ' || *b == b'\t') {
        if !run.is_empty() {
            fields.push(Name::new(alloc, run)?)?;
        }
    }
    Ok(PlainLine {
        fields,
        clean: is_clean(line),
    })
}
