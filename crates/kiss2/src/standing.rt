//! What the lines so far have said, and one line more.
ghost use Rattle.std.specs.Prelude.{
  ℕ,
  ◌≡◌,
  ◌+◌,
  ◌<◌,
  ◌≤◌,
  ◌^◌,
  All,
  Err,
  List,
  [],
  ◌∷◌,
  ◌++◌,
  false,
  true,
  not,
  filter,
  nat_lt,
  IfErr,
  IfOk,
  MatchResult,
  OnOk,
  Ok,
  Some,
  length,
  unwrap_or,
};
ghost use Rattle.std.specs.Option.{is_some};
ghost use Rattle.hs_io.specs.declared.lines.Line.{Line};
ghost use Rattle.kiss2.specs.declared.line_kind.LineKind.TheVariants.{Reset, Row};
ghost use Rattle.kiss2.specs.Faults.{
  count_fault,
  fault_in,
  first_of,
  fault_where,
  names_fault,
  number_fault,
  operand_of,
  row_fault,
};
ghost use Rattle.kiss2.specs.Words.{
  current_field,
  decimal_value,
  is_character_field,
  is_name,
  line_kind_of,
  output_field,
};
ghost use Rattle.kiss2.specs.Inner.ReaderState.{IsSmall, Judges, Stands, once_after};

use crate::fault::{KissKind, KissLimit};
use crate::line_kind::{LineKind, line_kind};
use crate::line_operands::{
    LineFail, count_said, given, judge_lengths, judge_number, names_said, reset_said,
};
use crate::words::{field_of, has_characters, is_open_field, operands_of};
use hs_io::{Line, Name, Names};
use kiss_file::StateNames;
use std::alloc::{AllocError, Global};

/// The line of `.r`.
#[derive(Drop)]
pub(crate) struct ResetLine {
    pub number: u32,
    pub name: Name,
}

/// What the lines so far have said.
#[derive(Drop)]
pub(crate) struct Said {
    pub inputs: Option<u8>,
    pub outputs: Option<u8>,
    /// Whether there was a `.p`.
    pub row_word: bool,
    /// Whether there was a `.s`.
    pub state_word: bool,
    pub reset: Option<ResetLine>,
    pub input_names: Option<Names>,
    pub output_names: Option<Names>,
    /// The number of rows.
    pub rows: u32,
    /// The names of the states, in the order in which they came.
    pub states: StateNames,
}

impl Said {
    /// Judges a line after those before it, and takes it if it has no fault.
    pub fn take_line(&mut self, alloc: Global, line: &Line) -> Result<(), LineFail>
        requires short { All (λ field. length field < 2 ^ 32) line.now.fields }
        requires small { IsSmall self.old }
        ensures judged { (before : List Line) → Stands self.old before
            → Judges result (fault_in before line.now) (λ _. Stands self.new (before ++ line.now ∷ [])) }
        ensures small { OnOk result (IsSmall self.new) }
    {
        if line.bad {
            return Err(LineFail::Fault(KissKind::BadByte));
        }
        match line_kind(line) {
            LineKind::Blank | LineKind::End => Ok(()),
            LineKind::InputCount => {
                take_count(&mut self.inputs, operands_of(line), KissLimit::Inputs, 32)
            }
            LineKind::OutputCount => {
                take_count(&mut self.outputs, operands_of(line), KissLimit::Outputs, 64)
            }
            LineKind::RowCount => take_word(&mut self.row_word, operands_of(line)),
            LineKind::StateCount => take_word(&mut self.state_word, operands_of(line)),
            LineKind::Reset => self.take_reset(alloc, line),
            LineKind::InputNames => take_names(
                alloc,
                &mut self.input_names,
                self.inputs,
                &self.output_names,
                operands_of(line),
            ),
            LineKind::OutputNames => take_names(
                alloc,
                &mut self.output_names,
                self.outputs,
                &self.input_names,
                operands_of(line),
            ),
            LineKind::Unknown => Err(LineFail::Fault(KissKind::UnknownWord)),
            LineKind::Row => self.take_row(line),
        }
    }

    /// `.r`
    fn take_reset(&mut self, alloc: Global, line: &Line) -> Result<(), LineFail>
        requires clean { line.now.bad ≡ false }
        requires kind { line_kind_of line.now ≡ Reset }
        requires short { All (λ field. length field < 2 ^ 32) line.now.fields }
        requires small { IsSmall self.old }
        ensures judged { (before : List Line) → Stands self.old before
            → Judges result (fault_in before line.now) (λ _. Stands self.new (before ++ line.now ∷ [])) }
        ensures small { OnOk result (IsSmall self.new) }
    {
        if self.reset.is_some() {
            return Err(LineFail::Fault(KissKind::Repeated));
        }
        let name = reset_said(operands_of(line))?;
        self.reset = Some(ResetLine {
            number: line.number,
            name: Name::new(alloc, name)?,
        });
        Ok(())
    }

    /// A row.
    fn take_row(&mut self, line: &Line) -> Result<(), LineFail>
        requires clean { line.now.bad ≡ false }
        requires kind { line_kind_of line.now ≡ Row }
        requires short { All (λ field. length field < 2 ^ 32) line.now.fields }
        requires small { IsSmall self.old }
        ensures judged { (before : List Line) → Stands self.old before
            → Judges result (fault_in before line.now) (λ _. Stands self.new (before ++ line.now ∷ [])) }
        ensures small { OnOk result (IsSmall self.new) }
    {
        let outputs = judge_front(self.inputs, self.outputs, self.rows, line)?;
        add_name(&mut self.states, field_of(line, 1))?;
        add_name(&mut self.states, field_of(line, 2))?;
        if self.states.count() > 256 {
            return Err(LineFail::Fault(KissKind::OverLimit {
                what: KissLimit::States,
                found: 257,
            }));
        }
        if !has_characters(field_of(line, 3), outputs) {
            return Err(LineFail::Fault(KissKind::BadOutput));
        }
        self.rows += 1;
        Ok(())
    }
}

/// Judges a row up to its names, and returns the number of outputs.
fn judge_front(
    inputs: Option<u8>,
    outputs: Option<u8>,
    rows: u32,
    line: &Line,
) -> Result<u8, KissKind>
    requires { All (λ field. length field < 2 ^ 32) line.now.fields }
    ensures outputs { IfOk result (λ count. outputs ≡ Some count) }
    ensures fields { OnOk result (length line.now.fields ≡ 4) }
    ensures rows { OnOk result (rows < 65536) }
    ensures current { OnOk result (is_name (current_field line.now) ≡ true) }
    ensures good { IfOk result
        (λ count. (states : List (List ℕ))
        → row_fault inputs outputs rows states line.now ≡ first_of
        (fault_where (nat_lt 256 (length states)) (KissKind.OverLimit KissLimit.States 257) ∷ fault_where
        (not (is_character_field count (output_field line.now))) KissKind.BadOutput ∷ [])) }
    ensures bad { IfErr result
        (λ kind. (states : List (List ℕ)) → row_fault inputs outputs rows states line.now ≡ Some kind) }
{
    let (Some(inputs), Some(outputs)) = (inputs, outputs) else {
        return Err(KissKind::MissingCounts);
    };
    if line.fields.as_slice().len() != 4 {
        return Err(KissKind::BadFields);
    }
    if rows >= 65536 {
        return Err(KissKind::OverLimit {
            what: KissLimit::Rows,
            found: 65537,
        });
    }
    if !has_characters(field_of(line, 0), inputs) {
        return Err(KissKind::BadCube);
    }
    if is_open_field(field_of(line, 1)) {
        return Err(KissKind::AnyState);
    }
    judge_length(field_of(line, 1))?;
    if !is_open_field(field_of(line, 2)) {
        judge_length(field_of(line, 2))?;
    }
    Ok(outputs)
}

/// `.i` or `.o`, given the number that was said before.
fn take_count(
    count: &mut Option<u8>,
    fields: &[Name],
    what: KissLimit,
    limit: u8,
) -> Result<(), LineFail>
    ensures { Judges result
        (first_of (fault_where (is_some count.old) KissKind.Repeated ∷ count_fault what limit fields.now ∷ []))
        (λ _. count.new ≡ Some (decimal_value (operand_of fields.now))) }
{
    if count.is_some() {
        return Err(LineFail::Fault(KissKind::Repeated));
    }
    *count = Some(count_said(fields, what, limit)?);
    Ok(())
}

/// `.p` or `.s`, given whether it came before.
fn take_word(stands: &mut bool, fields: &[Name]) -> Result<(), LineFail>
    ensures { Judges result (first_of (fault_where stands.old KissKind.Repeated ∷ number_fault fields.now ∷ []))
        (λ _. stands.new ≡ true) }
{
    if *stands {
        return Err(LineFail::Fault(KissKind::Repeated));
    }
    judge_number(fields)?;
    *stands = true;
    Ok(())
}

/// `.ilb` or `.ob`, given the names that were said before, the number of inputs or outputs and the names of the other
/// word.
fn take_names(
    alloc: Global,
    names: &mut Option<Names>,
    count: Option<u8>,
    others: &Option<Names>,
    fields: &[Name],
) -> Result<(), LineFail>
    requires short { All (λ name. length name < 2 ^ 32) fields.now }
    requires others { length (unwrap_or others.now []) < 256 }
    ensures judged { Judges result
        (first_of
        (fault_where (is_some names.old) KissKind.Repeated ∷ names_fault count (unwrap_or others.now []) fields.now
        ∷ [])) (λ _. names.new ≡ Some fields.now) }
    ensures few { OnOk result (length (unwrap_or names.new []) < 256) }
{
    if names.is_some() {
        return Err(LineFail::Fault(KissKind::Repeated));
    }
    *names = Some(names_said(alloc, count, given(others), fields)?);
    Ok(())
}

/// Whether a name is short enough.
fn judge_length(name: &[u8]) -> Result<(), KissKind>
    requires { length name.now < 2 ^ 32 }
    ensures { MatchResult result (λ _. nat_lt 64 (length name.now) ≡ false)
        (λ kind. (nat_lt 64 (length name.now) ≡ true)
        × (kind ≡ KissKind.OverLimit KissLimit.NameBytes (length name.now))) }
{
    if name.len() > 64 {
        return Err(KissKind::OverLimit {
            what: KissLimit::NameBytes,
            found: name.len() as u32,
        });
    }
    Ok(())
}

/// Adds the name of a state, if the field is one.
pub(crate) fn add_name(names: &mut StateNames, field: &[u8]) -> Result<(), AllocError>
    requires { length names.old ≤ 257 }
    ensures { OnOk result (names.new ≡ once_after names.old (filter is_name (field.now ∷ []))) }
{
    if !is_open_field(field) {
        names.add(field)?;
    }
    Ok(())
}
