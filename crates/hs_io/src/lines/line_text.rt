//! The text of one line after another. Nothing here takes memory.

ghost use Rattle.std.specs.Prelude.{◌≡◌, ◌+◌, ◌<◌, ◌≤◌, [], ◌∷◌, drop, length};
ghost use Rattle.std.specs.List.{list_all, position_or_len};
ghost use Rattle.std.specs.Str.Lines.{strip_carriage_return};
ghost use Rattle.hs_io.specs.Lines.{content, fields_of, is_allowed, physical_lines};
ghost use Rattle.hs_io.specs.Inner.Cut.{cuts};

/// The first line of a text without its line feed, and what is left of the text after it.
pub fn first_line(text: &[u8]) -> (&[u8], &[u8])
    requires { 0 < length text.now }
    ensures lines { physical_lines text.now ≡ result.0.now ∷ physical_lines result.1.now }
    ensures shorter { length result.1.now < length text.now }
{
    let end = first_cut(Cut::Line, text);
    (&text[..end], after(text, end))
}

/// The line without a carriage return at its end and without its comment.
pub fn content_of(line: &[u8]) -> &[u8]
    ensures { result.now ≡ content line.now }
{
    let text = without_return(line);
    let end = first_cut(Cut::Comment, text);
    &text[..end]
}

/// Whether each byte may be in a line outside its comment.
pub fn is_clean(text: &[u8]) -> bool
    ensures { result ≡ list_all is_allowed text.now }
{
    text.iter()
        .all(|b| *b == b'\t' || (*b >= b' ' && *b <= b'~'))
}

/// The first field of a line without its comment, and what is left after it. The field is empty if there is
/// none.
pub fn first_field(text: &[u8]) -> (&[u8], &[u8])
    ensures none { length result.0.now ≡ 0 → fields_of text.now ≡ [] }
    ensures some { 0 < length result.0.now → fields_of text.now ≡ result.0.now ∷ fields_of result.1.now }
    ensures within { length result.0.now + length result.1.now ≤ length text.now }
{
    let mut rest = text;
    while !rest.is_empty() {
        let end = first_cut(Cut::Field, rest);
        if end > 0 {
            return (&rest[..end], after(rest, end));
        }
        rest = after(rest, end);
    }
    (rest, rest)
}

/// What a text is cut at.
#[derive(Clone, Copy)]
enum Cut {
    /// A line feed.
    Line,
    /// The mark of a comment.
    Comment,
    /// A blank.
    Field,
}

/// Whether the text is cut at this byte.
fn is_cut(cut: Cut, byte: u8) -> bool
    ensures { result ≡ cuts cut byte }
{
    match cut {
        Cut::Line => byte == b'\n',
        Cut::Comment => byte == b'#',
        Cut::Field => byte == b' ' || byte == b'\t',
    }
}

/// The place of the first cut of the text, or its end.
fn first_cut(cut: Cut, text: &[u8]) -> usize
    ensures place { result ≡ position_or_len (cuts cut) text.now }
    ensures within { result ≤ length text.now }
{
    for (place, byte) in text.iter().enumerate() {
        if is_cut(cut, *byte) {
            return place;
        }
    }
    text.len()
}

/// What is left after a place, if the place is not the end.
fn after(text: &[u8], place: usize) -> &[u8]
    requires { place ≤ length text.now }
    ensures { result.now ≡ drop (place + 1) text.now }
{
    if place < text.len() {
        &text[place + 1..]
    } else {
        &[]
    }
}

/// The line without the carriage return at its end, if it has one.
fn without_return(line: &[u8]) -> &[u8]
    ensures { result.now ≡ strip_carriage_return line.now }
{
    match line {
        [text @ .., b'\r'] => text,
        _ => line,
    }
}
