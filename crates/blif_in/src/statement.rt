//! What a line says.
ghost use Rattle.std.specs.Prelude.{◌≡◌, ◌∷◌, None, Some};
ghost use Rattle.std.specs.Option.{option_map, option_copied, option_to_list};
ghost use Rattle.net_core.specs.Statements as said;
ghost use Rattle.blif_in.specs.Inner.ShortFields.{AreMeasurable};
ghost use Rattle.blif_in.specs.Inner.LineStatements.{fields_said, parts_said, said_by};

use hs_io::{Line, Name};
use net_core::Start;

/// What a line says, by its first field, with the fields after it.
#[derive(Clone, Copy)]
pub(crate) enum Statement<'a> {
    Model(&'a [Name]),
    Inputs(&'a [Name]),
    Outputs(&'a [Name]),
    Clock(&'a [Name]),
    Latch(&'a [Name]),
    Names(&'a [Name]),
    /// All fields of a row.
    Row(&'a [Name]),
    /// Another word that begins with a dot.
    Other,
}

/// What a line says.
pub(crate) fn statement_of(line: &Line) -> Statement<'_>
    ensures says { said_by result ≡ said.statement_of line.now.fields }
    ensures measurable { AreMeasurable line.now.fields → AreMeasurable (fields_said result) }
{
    let fields = line.fields.as_slice();
    match fields {
        [] => Statement::Row(fields),
        [word, operands @ ..] => statement_by(word.bytes(), operands, fields),
    }
}

/// What a line of these fields says.
fn statement_by<'a>(word: &[u8], operands: &'a [Name], fields: &'a [Name]) -> Statement<'a>
    requires { fields.now ≡ word.now ∷ operands.now }
    ensures says { said_by result ≡ said.statement_of (word.now ∷ operands.now) }
    ensures measurable { AreMeasurable (word.now ∷ operands.now) → AreMeasurable (fields_said result) }
{
    if word == b".model".as_slice() {
        Statement::Model(operands)
    } else if word == b".inputs".as_slice() {
        Statement::Inputs(operands)
    } else if word == b".outputs".as_slice() {
        Statement::Outputs(operands)
    } else if word == b".clock".as_slice() {
        Statement::Clock(operands)
    } else if word == b".latch".as_slice() {
        Statement::Latch(operands)
    } else if word == b".names".as_slice() {
        Statement::Names(operands)
    } else if is_word(word) {
        Statement::Other
    } else {
        Statement::Row(fields)
    }
}

/// Whether the field begins with a dot.
fn is_word(field: &[u8]) -> bool
    ensures { result ≡ said.is_word field.now }
{
    field.first() == Some(&b'.')
}

/// The operands of a latch.
#[derive(Clone, Copy)]
pub(crate) struct LatchParts<'a> {
    pub input: &'a Name,
    pub output: &'a Name,
    pub kind: Option<&'a Name>,
    pub control: Option<&'a Name>,
    pub start: Option<&'a Name>,
}

impl<'a> LatchParts<'a> {
    /// A latch's input and output alone.
    fn of(input: &'a Name, output: &'a Name) -> LatchParts<'a>
        ensures { parts_said result
            ≡ record { input = input.now; output = output.now; kind = None; control = None; start = None } }
    {
        LatchParts {
            input,
            output,
            kind: None,
            control: None,
            start: None,
        }
    }

    /// A latch's input and output with its other operands.
    fn with(self, others: &'a [Name]) -> Option<LatchParts<'a>>
        requires { parts_said self
            ≡ record { input = self.input.now; output = self.output.now; kind = None; control = None; start = None } }
        ensures { option_map parts_said result ≡ said.latch_parts
            (self.entry.input.now ∷ self.entry.output.now ∷ others.now) }
    {
        match others {
            [] => Some(self),
            [start] => Some(LatchParts {
                start: Some(start),
                ..self
            }),
            [kind, control] => Some(LatchParts {
                kind: Some(kind),
                control: Some(control),
                ..self
            }),
            [kind, control, start] => Some(LatchParts {
                kind: Some(kind),
                control: Some(control),
                start: Some(start),
                ..self
            }),
            _ => None,
        }
    }
}

/// The two to five operands of a latch.
pub(crate) fn latch_parts(operands: &[Name]) -> Option<LatchParts<'_>>
    ensures { option_map parts_said result ≡ said.latch_parts operands.now }
{
    match operands {
        [input, output, others @ ..] => LatchParts::of(input, output).with(others),
        _ => None,
    }
}

/// The start that a field says; a missing field says that it is unknown.
pub(crate) fn start_said(field: Option<&Name>) -> Option<Start>
    ensures { result ≡ said.start_said (option_copied field.entry) }
{
    let Some(field) = field else {
        return Some(Start::Unknown);
    };
    match field.bytes() {
        b"0" => Some(Start::Zero),
        b"1" => Some(Start::One),
        b"2" => Some(Start::Free),
        b"3" => Some(Start::Unknown),
        _ => None,
    }
}

/// The clock that a control names, unless it is the word for no control.
pub(crate) fn clock_named(control: Option<&Name>) -> Option<&Name>
    ensures { said.clock_named (option_copied control.entry) ≡ option_to_list (option_copied result) }
{
    match control {
        Some(name) if name.bytes() != b"NIL".as_slice() => Some(name),
        _ => None,
    }
}
