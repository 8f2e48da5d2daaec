//! Judges a statement by what those before it have set.
ghost use Rattle.std.specs.Prelude.{
  ◌≡◌,
  ℕ,
  ◌^◌,
  ◌<◌,
  ◌≤◌,
  ◌==◌,
  ◌&&◌,
  [],
  ◌∷◌,
  ◌++◌,
  All,
  IfOk,
  List,
  MatchOption,
  MatchResult,
  None,
  Some,
  false,
  true,
  length,
  nat_le,
};
ghost use Rattle.std.specs.List.{list_all};
ghost use Rattle.std.specs.Option.{ForSome, option_copied, option_to_list};
ghost use Rattle.net_core.specs.Faults.{has_other_kind, is_row_for, names_another};
ghost use Rattle.net_core.specs.Blif.{latch_names};
ghost use Rattle.net_core.specs.Statements as said;
ghost use Rattle.blif_in.specs.Faults.{fault_in, fault_where, long_name};
ghost use Rattle.blif_in.specs.Inner.Standing.{IsClock, IsJudged, IsSmall, Judges, Stands};
ghost use Rattle.blif_in.specs.Inner.ShortFields.{AreMeasurable};
ghost use Rattle.blif_in.specs.Inner.LineStatements.{fields_said, parts_said, said_by, says};

use crate::fault::{BlifKind, NetLimit};
use crate::statement::{LatchParts, Statement, clock_named, latch_parts, start_said, statement_of};
use hs_io::{Line, Name};

/// What the next row of a gate has to match.
#[derive(Clone, Copy)]
pub(crate) struct OpenGate {
    /// The number of its inputs.
    pub inputs: usize,
    /// The output bit of its first row.
    pub bit: Option<bool>,
}

/// What the statements so far have set, besides the clock.
#[derive(Clone, Copy)]
pub(crate) struct Summary {
    /// Whether there was a statement.
    pub begun: bool,
    /// Whether there was a model.
    pub model: bool,
    /// Whether there was a `.clock`.
    pub clock_word: bool,
    /// The gate to which a row belongs that comes next.
    pub gate: Option<OpenGate>,
    pub inputs: usize,
    pub outputs: usize,
    pub latches: usize,
    pub gates: usize,
}

impl Summary {
    /// Before the first statement.
    pub fn new() -> Summary
        ensures stands { Stands result None [] }
        ensures small { IsSmall result }
        ensures begun { result.begun ≡ false }
    {
        Summary {
            begun: false,
            model: false,
            clock_word: false,
            gate: None,
            inputs: 0,
            outputs: 0,
            latches: 0,
            gates: 0,
        }
    }
}

/// What the statements so far have set.
#[derive(Clone, Copy)]
pub(crate) struct Standing<'a> {
    pub summary: Summary,
    /// The name of the clock.
    pub clock: Option<&'a Name>,
}

impl<'a> Standing<'a> {
    /// The same after the statement of a line, or the fault of that statement.
    pub fn after_line(&self, line: &'a Line) -> Result<Standing<'a>, BlifKind>
        requires measurable { AreMeasurable line.now.fields }
        requires small { IsSmall self.now.summary }
        ensures judged { (earlier : List said.Statement)
            → Stands self.now.summary (option_copied self.now.clock) earlier
            → Judges result (fault_in earlier (said.numbered_of line.now))
            (λ next. Stands next.summary (option_copied next.clock) (says line.now ∷ earlier)) }
        ensures small { IfOk result (λ next. IsSmall next.summary) }
    {
        if line.bad {
            return Err(BlifKind::BadByte);
        }
        let statement = statement_of(line);
        if !self.summary.begun && !is_model(statement) {
            return Err(BlifKind::NoModel);
        }
        self.after(statement)
    }

    /// The same after a statement, or the fault of that statement.
    fn after(&self, statement: Statement<'a>) -> Result<Standing<'a>, BlifKind>
        requires measurable { AreMeasurable (fields_said statement) }
        requires small { IsSmall self.now.summary }
        ensures judged { IsJudged self.now (said_by statement.entry) result }
        ensures small { IfOk result (λ next. IsSmall next.summary) }
    {
        match statement {
            Statement::Model(names) => self.after_model(names),
            Statement::Inputs(names) => self.after_inputs(names),
            Statement::Outputs(names) => self.after_outputs(names),
            Statement::Clock(names) => self.after_clock(names),
            Statement::Latch(operands) => self.after_latch(operands),
            Statement::Names(names) => self.after_names(names),
            Statement::Row(fields) => self.after_row(fields),
            Statement::Other => Err(BlifKind::Unsupported),
        }
    }

    /// `.model`
    fn after_model(&self, names: &[Name]) -> Result<Standing<'a>, BlifKind>
        requires { IsSmall self.now.summary }
        ensures judged { IsJudged self.now (said.Model names.now) result }
        ensures small { IfOk result (λ next. IsSmall next.summary) }
    {
        if self.summary.model {
            return Err(BlifKind::Unsupported);
        }
        if names.len() > 1 {
            return Err(BlifKind::BadFields);
        }
        Ok(Standing {
            summary: Summary {
                begun: true,
                model: true,
                gate: None,
                ..self.summary
            },
            ..*self
        })
    }

    /// `.inputs`
    fn after_inputs(&self, names: &[Name]) -> Result<Standing<'a>, BlifKind>
        requires measurable { AreMeasurable names.now }
        requires small { IsSmall self.now.summary }
        ensures judged { IsJudged self.now (said.Inputs names.now) result }
        ensures small { IfOk result (λ next. IsSmall next.summary) }
    {
        judge_lengths(names)?;
        if names.len() > 256 - self.summary.inputs {
            return Err(over(NetLimit::Inputs, 257));
        }
        Ok(Standing {
            summary: Summary {
                begun: true,
                gate: None,
                inputs: self.summary.inputs + names.len(),
                ..self.summary
            },
            ..*self
        })
    }

    /// `.outputs`
    fn after_outputs(&self, names: &[Name]) -> Result<Standing<'a>, BlifKind>
        requires measurable { AreMeasurable names.now }
        requires small { IsSmall self.now.summary }
        ensures judged { IsJudged self.now (said.Outputs names.now) result }
        ensures small { IfOk result (λ next. IsSmall next.summary) }
    {
        judge_lengths(names)?;
        if names.len() > 256 - self.summary.outputs {
            return Err(over(NetLimit::Outputs, 257));
        }
        Ok(Standing {
            summary: Summary {
                begun: true,
                gate: None,
                outputs: self.summary.outputs + names.len(),
                ..self.summary
            },
            ..*self
        })
    }

    /// `.clock`
    fn after_clock(&self, names: &'a [Name]) -> Result<Standing<'a>, BlifKind>
        requires measurable { AreMeasurable names.now }
        requires small { IsSmall self.now.summary }
        ensures judged { IsJudged self.now (said.Clock names.now) result }
        ensures small { IfOk result (λ next. IsSmall next.summary) }
    {
        match names {
            [name] => self.after_clock_named(name),
            _ => Err(BlifKind::BadFields),
        }
    }

    /// `.clock` with one name.
    fn after_clock_named(&self, name: &'a Name) -> Result<Standing<'a>, BlifKind>
        requires measurable { length name.now < 2 ^ 32 }
        requires small { IsSmall self.now.summary }
        ensures judged { IsJudged self.now (said.Clock (name.now ∷ [])) result }
        ensures small { IfOk result (λ next. IsSmall next.summary) }
    {
        judge_length(name)?;
        if differs_from(self.clock, name) || self.summary.clock_word {
            return Err(BlifKind::Clocks);
        }
        Ok(Standing {
            summary: Summary {
                begun: true,
                clock_word: true,
                gate: None,
                ..self.summary
            },
            clock: Some(name),
        })
    }

    /// `.latch`
    fn after_latch(&self, operands: &'a [Name]) -> Result<Standing<'a>, BlifKind>
        requires measurable { AreMeasurable operands.now }
        requires small { IsSmall self.now.summary }
        ensures judged { IsJudged self.now (said.LatchLine operands.now) result }
        ensures small { IfOk result (λ next. IsSmall next.summary) }
    {
        let Some(parts) = latch_parts(operands) else {
            return Err(BlifKind::BadFields);
        };
        if start_said(parts.start).is_none() {
            return Err(BlifKind::BadFields);
        }
        if is_other_kind(parts.kind) {
            return Err(BlifKind::LatchKind);
        }
        judge_latch_names(&parts)?;
        let clock = self.clock_with(clock_named(parts.control))?;
        if self.summary.latches >= 256 {
            return Err(over(NetLimit::Latches, 257));
        }
        Ok(Standing {
            summary: Summary {
                begun: true,
                gate: None,
                latches: self.summary.latches + 1,
                ..self.summary
            },
            clock,
        })
    }

    /// `.names`
    fn after_names(&self, names: &[Name]) -> Result<Standing<'a>, BlifKind>
        requires measurable { AreMeasurable names.now }
        requires small { IsSmall self.now.summary }
        ensures judged { IsJudged self.now (said.Names names.now) result }
        ensures small { IfOk result (λ next. IsSmall next.summary) }
    {
        if names.is_empty() {
            return Err(BlifKind::BadFields);
        }
        judge_lengths(names)?;
        let inputs = names.len() - 1;
        if inputs > 256 {
            return Err(over(NetLimit::GateInputs, 257));
        }
        if self.summary.gates >= 65536 {
            return Err(over(NetLimit::Gates, 65537));
        }
        Ok(Standing {
            summary: Summary {
                begun: true,
                gate: Some(OpenGate { inputs, bit: None }),
                gates: self.summary.gates + 1,
                ..self.summary
            },
            ..*self
        })
    }

    /// A row.
    fn after_row(&self, fields: &[Name]) -> Result<Standing<'a>, BlifKind>
        requires { IsSmall self.now.summary }
        ensures judged { IsJudged self.now (said.Row fields.now) result }
        ensures small { IfOk result (λ next. IsSmall next.summary) }
    {
        let Some(gate) = self.summary.gate else {
            return Err(BlifKind::BadFields);
        };
        let Some(bit) = row_bit(gate.inputs, fields) else {
            return Err(BlifKind::BadRow);
        };
        let first = gate.bit.unwrap_or(bit);
        if first != bit {
            return Err(BlifKind::MixedCover);
        }
        Ok(Standing {
            summary: Summary {
                begun: true,
                gate: Some(OpenGate {
                    inputs: gate.inputs,
                    bit: Some(first),
                }),
                ..self.summary
            },
            ..*self
        })
    }

    /// The clock after a latch with this control, if it does not differ from the clock so far.
    fn clock_with(&self, name: Option<&'a Name>) -> Result<Option<&'a Name>, BlifKind>
        ensures { (names : List (List ℕ)) → IsClock (option_copied self.now.clock) names
            → Judges result
            (fault_where (names_another names (option_to_list (option_copied name.entry))) BlifKind.Clocks)
            (λ clock. IsClock (option_copied clock) (option_to_list (option_copied name.entry) ++ names)) }
    {
        match name {
            None => Ok(self.clock),
            Some(name) if differs_from(self.clock, name) => Err(BlifKind::Clocks),
            Some(name) => Ok(Some(name)),
        }
    }
}

/// The fault that a limit is passed.
fn over(what: NetLimit, found: u32) -> BlifKind
    ensures { result ≡ BlifKind.OverLimit what found }
{
    BlifKind::OverLimit { what, found }
}

/// Whether the statement is `.model`.
fn is_model(statement: Statement<'_>) -> bool
    ensures { result ≡ said.is_model (said_by statement.entry) }
{
    match statement {
        Statement::Model(_) => true,
        _ => false,
    }
}

/// Refuses the first name that is too long.
fn judge_lengths(names: &[Name]) -> Result<(), BlifKind>
    requires { AreMeasurable names.now }
    ensures { MatchResult result (λ _. long_name names.now ≡ None) (λ kind. long_name names.now ≡ Some kind) }
{
    for name in names {
        judge_length(name)?;
    }
    Ok(())
}

/// Refuses a name that is too long.
fn judge_length(name: &Name) -> Result<(), BlifKind>
    requires { length name.now < 2 ^ 32 }
    ensures { MatchResult result (λ _. long_name (name.now ∷ []) ≡ None)
        (λ kind. long_name (name.now ∷ []) ≡ Some kind) }
{
    let found = name.bytes().len();
    if found > 64 {
        return Err(over(NetLimit::NameBytes, found as u32));
    }
    Ok(())
}

/// Refuses the first name of a latch that is too long.
fn judge_latch_names(parts: &LatchParts<'_>) -> Result<(), BlifKind>
    requires input { length parts.now.input.now < 2 ^ 32 }
    requires output { length parts.now.output.now < 2 ^ 32 }
    requires control { ForSome (option_copied parts.now.control) (λ control. length control < 2 ^ 32) }
    ensures { MatchResult result (λ _. long_name (latch_names (Some (parts_said parts.now))) ≡ None)
        (λ kind. long_name (latch_names (Some (parts_said parts.now))) ≡ Some kind) }
{
    judge_length(parts.input)?;
    judge_length(parts.output)?;
    match parts.control {
        Some(control) => judge_length(control),
        None => Ok(()),
    }
}

/// Whether there is a clock of another name.
fn differs_from(clock: Option<&Name>, name: &Name) -> bool
    ensures { (names : List (List ℕ)) → IsClock (option_copied clock.entry) names
        → names_another names (name.now ∷ []) ≡ result }
{
    match clock {
        Some(clock) => name.bytes() != clock.bytes(),
        None => false,
    }
}

/// Whether a latch has a type that is not supported.
fn is_other_kind(kind: Option<&Name>) -> bool
    ensures { result ≡ said.is_other_kind (option_copied kind.entry) }
{
    match kind {
        Some(kind) => kind.bytes() != b"re".as_slice(),
        None => false,
    }
}

/// The output bit of a row of a gate with this number of inputs, if the row has the right form.
fn row_bit(inputs: usize, fields: &[Name]) -> Option<bool>
    ensures { MatchOption result (is_row_for inputs fields.now ≡ false)
        (λ bit. (is_row_for inputs fields.now ≡ true) × (bit ≡ said.bit_of fields.now)) }
{
    match fields {
        [bit] if inputs == 0 => bit_said(bit.bytes()),
        [plane, bit] if is_plane(inputs, plane.bytes()) => bit_said(bit.bytes()),
        _ => None,
    }
}

/// Whether the field is a plane for this number of inputs, which is not 0.
fn is_plane(inputs: usize, field: &[u8]) -> bool
    ensures { result ≡ (nat_le 1 inputs && length field.now == inputs && list_all said.is_plane_character field.now) }
{
    inputs >= 1 && field.len() == inputs && has_plane_characters(field)
}

/// Whether each character is one of a plane.
fn has_plane_characters(field: &[u8]) -> bool
    ensures { result ≡ list_all said.is_plane_character field.now }
{
    field.iter().all(|c| is_plane_character(*c))
}

/// Whether the character is one of a plane.
fn is_plane_character(c: u8) -> bool
    ensures { result ≡ said.is_plane_character c }
{
    c == b'0' || c == b'1' || c == b'-'
}

/// The output bit of a field, if it is one.
pub(crate) fn bit_said(field: &[u8]) -> Option<bool>
    ensures { MatchOption result (said.is_bit field.now ≡ false)
        (λ bit. (said.is_bit field.now ≡ true) × (bit ≡ said.is_one field.now)) }
{
    match field {
        b"0" => Some(false),
        b"1" => Some(true),
        _ => None,
    }
}
