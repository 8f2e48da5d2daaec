ghost use Rattle.std.specs.Prelude.{◌≡◌};
ghost use Rattle.kiss2.specs.Words.{is_ending, is_of_kind, line_kind_of, kind_of_field};
ghost use Rattle.kiss2.specs.declared.line_kind.LineKind.TheVariants.{Row};
ghost use Rattle.kiss2.specs.Inner.Kinds.{kind_of_later_word};

use crate::words::is_word;
use hs_io::Line;

/// What a line of a KISS2 text is, by its first field.
#[derive(Clone, Copy, PartialEq, Eq)]
pub enum LineKind {
    /// It has no fields.
    Blank,
    /// `.e` or `.end`: the text ends before it.
    End,
    /// `.i`: the number of inputs.
    InputCount,
    /// `.o`: the number of outputs.
    OutputCount,
    /// `.p`: a number of rows, which is not compared with the rows.
    RowCount,
    /// `.s`: a number of states, which is not compared with the states.
    StateCount,
    /// `.r`: the name of the reset state.
    Reset,
    /// `.ilb`: the names of the inputs.
    InputNames,
    /// `.ob`: the names of the outputs.
    OutputNames,
    /// Another field that begins with a dot.
    Unknown,
    /// A row: the first field does not begin with a dot.
    Row,
}

/// What the line is.
pub(crate) fn line_kind(line: &Line) -> LineKind
    ensures { result ≡ line_kind_of line.now }
{
    match line.fields.as_slice() {
        [] => LineKind::Blank,
        [first, ..] => first_field_kind(first.bytes()),
    }
}

/// Whether the line is a row.
pub(crate) fn is_row(line: &Line) -> bool
    ensures { result ≡ is_of_kind Row line.now }
{
    line_kind(line) == LineKind::Row
}

/// Whether the text ends before the line.
pub(crate) fn ends(line: &Line) -> bool
    ensures { result ≡ is_ending line.now }
{
    !line.bad && line_kind(line) == LineKind::End
}

/// What a line with this first field is.
#[tactic(auto, unfolding(crate::specs::Words::kind_of_field))]
fn first_field_kind(field: &[u8]) -> LineKind
    ensures { result ≡ kind_of_field field.now }
{
    if is_word(field, b".e") || is_word(field, b".end") {
        LineKind::End
    } else if is_word(field, b".i") {
        LineKind::InputCount
    } else if is_word(field, b".o") {
        LineKind::OutputCount
    } else if is_word(field, b".p") {
        LineKind::RowCount
    } else if is_word(field, b".s") {
        LineKind::StateCount
    } else {
        later_word_kind(field)
    }
}

/// What a line with this first field is, if the field is neither an ending word nor the word of a number.
fn later_word_kind(field: &[u8]) -> LineKind
    ensures { result ≡ kind_of_later_word field.now }
{
    if is_word(field, b".r") {
        LineKind::Reset
    } else if is_word(field, b".ilb") {
        LineKind::InputNames
    } else if is_word(field, b".ob") {
        LineKind::OutputNames
    } else if field.first() == Some(&b'.') {
        LineKind::Unknown
    } else {
        LineKind::Row
    }
}
