//! Joins lines that end in a backslash with the next ones, and gives the lines that are statements one by one.
ghost use Rattle.std.specs.Prelude.{◌≡◌, ◌++◌, ◌∷◌, ◌-◌, [], IfNone, IfOk, IfSome, OnOk, Some, length, take};
ghost use Rattle.std.specs.List.{list_any};
ghost use Rattle.hs_io.specs.Lines.{fields_in, is_skipped};
ghost use Rattle.net_core.specs.JoinedLines.{
  is_backslash,
  is_continued,
  ends_in_backslash,
  ends_text,
  joined,
  part_of,
  without_backslash,
};
ghost use Rattle.net_core.specs.JoinedLines as joining;
ghost use Rattle.blif_in.specs.Inner.JoinedLines.{behind, lines_behind, merged, statement_lines};

use hs_io::{Fields, Line, LineReader, Name};
use std::alloc::{AllocError, Global};

/// The next joined line that is a statement, or `None` if there is no other before the text ends.
pub(crate) fn next_statement(
    alloc: Global,
    lines: &mut LineReader<'_>,
) -> Result<Option<Line>, AllocError>
    ensures some { IfOk result
        (λ next. IfSome next (λ line. statement_lines (joined lines.old) ≡ line ∷ statement_lines (joined lines.new))) }
    ensures none { IfOk result (λ next. IfNone next (statement_lines (joined lines.old) ≡ [])) }
{
    while let Some(line) = next_joined(alloc, lines)? {
        if ends(&line) {
            return Ok(None);
        }
        if !is_blank(&line) {
            return Ok(Some(line));
        }
    }
    Ok(None)
}

/// The next joined line, or `None` after the last one. The fields of a line that ends in a backslash are copied.
fn next_joined(alloc: Global, lines: &mut LineReader<'_>) -> Result<Option<Line>, AllocError>
    ensures some { IfOk result (λ next. IfSome next (λ line. joined lines.old ≡ line ∷ joined lines.new)) }
    ensures none { IfOk result (λ next. IfNone next (joined lines.old ≡ [])) }
{
    let mut front: Option<Line> = None;
    join_lines(alloc, lines, &mut front)?;
    Ok(front)
}

/// Joins the next lines up to one that does not end in a backslash.
fn join_lines(
    alloc: Global,
    lines: &mut LineReader<'_>,
    front: &mut Option<Line>,
) -> Result<(), AllocError>
    ensures some { OnOk result
        (IfSome front.new (λ line. lines_behind front.old (joined lines.old) ≡ line ∷ joined lines.new)) }
    ensures none { OnOk result (IfNone front.new (lines_behind front.old (joined lines.old) ≡ [])) }
{
    while let Some(line) = lines.next_line(alloc)? {
        let goes_on = is_joined_to_next(line.fields.as_slice());
        add_line(alloc, front, line)?;
        if !goes_on {
            return Ok(());
        }
    }
    Ok(())
}

/// Adds the part that a line gives to the front of a joined line.
fn add_line(alloc: Global, front: &mut Option<Line>, line: Line) -> Result<(), AllocError>
    ensures { OnOk result (front.new ≡ Some (behind front.old (part_of line))) }
{
    let whole = line_behind(alloc, front.take(), line)?;
    *front = Some(whole);
    Ok(())
}

/// Whether the line with these fields ends in a backslash.
fn is_joined_to_next(fields: &[Name]) -> bool
    ensures { result ≡ is_continued fields.now }
{
    match fields {
        [.., field] => ends_backslashed(field.bytes()),
        [] => false,
    }
}

/// Whether the last byte is a backslash.
fn ends_backslashed(field: &[u8]) -> bool
    ensures { result ≡ ends_in_backslash field.now }
{
    field.last() == Some(&b'\\')
}

/// Whether the text ends before the line.
fn ends(line: &Line) -> bool
    ensures { result ≡ ends_text line.now }
{
    if line.bad {
        return false;
    }
    match line.fields.as_slice() {
        [word, ..] => word.bytes() == b".end".as_slice(),
        [] => false,
    }
}

/// Whether the line has no fields and is not bad.
fn is_blank(line: &Line) -> bool
    ensures { result ≡ is_skipped line.now }
{
    !line.bad && line.fields.as_slice().is_empty()
}

/// The part of a joined line that a line gives, after the parts before it.
fn line_behind(alloc: Global, front: Option<Line>, line: Line) -> Result<Line, AllocError>
    ensures { IfOk result (λ whole. whole ≡ behind front (part_of line)) }
{
    let part = own_part(alloc, line)?;
    match front {
        Some(front) => joined_part(alloc, front, &part),
        None => Ok(part),
    }
}

/// The front of a joined line with one more part.
fn joined_part(alloc: Global, front: Line, part: &Line) -> Result<Line, AllocError>
    ensures { IfOk result (λ whole. whole ≡ merged front part.now) }
{
    let Line {
        number,
        mut fields,
        bad,
    } = front;
    add_fields(alloc, &mut fields, part.fields.as_slice())?;
    Ok(Line {
        number,
        fields,
        bad: bad || part.bad,
    })
}

/// Adds copies of names.
fn add_fields(alloc: Global, fields: &mut Fields, names: &[Name]) -> Result<(), AllocError>
    ensures { OnOk result (fields.new ≡ fields.old ++ names.now) }
{
    for name in names {
        fields.push(Name::new(alloc, name.bytes())?)?;
    }
    Ok(())
}

/// The part that a line gives: its fields without the backslash at its end. A backslash elsewhere makes it bad.
fn own_part(alloc: Global, line: Line) -> Result<Line, AllocError>
    ensures { IfOk result (λ part. part ≡ part_of line) }
{
    let Line {
        number,
        fields,
        bad,
    } = line;
    let fields = read_fields(alloc, fields)?;
    let bad = bad || some_backslash(fields.as_slice());
    Ok(Line {
        number,
        fields,
        bad,
    })
}

/// The fields without the backslash at their end, if they have one.
fn read_fields(alloc: Global, fields: Fields) -> Result<Fields, AllocError>
    ensures { IfOk result (λ read. read ≡ joining.read_fields fields) }
{
    if is_joined_to_next(fields.as_slice()) {
        shortened(alloc, fields.as_slice())
    } else {
        Ok(fields)
    }
}

/// The fields without their last byte, a backslash. Where it is a field of its own, that field is dropped.
fn shortened(alloc: Global, fields: &[Name]) -> Result<Fields, AllocError>
    ensures { IfOk result (λ short. short ≡ without_backslash fields.now) }
{
    let mut short = Fields::new(alloc);
    add_without_backslash(alloc, &mut short, fields)?;
    Ok(short)
}

/// Adds fields without their last byte, a backslash.
fn add_without_backslash(
    alloc: Global,
    short: &mut Fields,
    fields: &[Name],
) -> Result<(), AllocError>
    ensures { OnOk result (short.new ≡ short.old ++ without_backslash fields.now) }
{
    let [front @ .., last] = fields else {
        return Ok(());
    };
    add_fields(alloc, short, front)?;
    add_shortened(alloc, short, last.bytes())
}

/// Adds a field without its last byte, if that leaves a byte.
fn add_shortened(alloc: Global, fields: &mut Fields, field: &[u8]) -> Result<(), AllocError>
    ensures { OnOk result (fields.new ≡ fields.old ++ fields_in (take (length field.now - 1) field.now ∷ [])) }
{
    match field {
        [text @ .., _] if !text.is_empty() => fields.push(Name::new(alloc, text)?),
        _ => Ok(()),
    }
}

/// Whether some field holds a backslash.
fn some_backslash(fields: &[Name]) -> bool
    ensures { result ≡ list_any (list_any is_backslash) fields.now }
{
    fields.iter().any(|field| holds_backslash(field.bytes()))
}

/// Whether the field holds a backslash.
fn holds_backslash(field: &[u8]) -> bool
    ensures { result ≡ list_any is_backslash field.now }
{
    field.iter().any(|byte| *byte == b'\\')
}
