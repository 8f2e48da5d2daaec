//! Judges the operands of a line.
ghost use Rattle.std.specs.Prelude.{
  ◌≡◌,
  ◌+◌,
  ◌<◌,
  ◌^◌,
  All,
  [],
  ◌++◌,
  false,
  true,
  not,
  IfOk,
  MatchResult,
  None,
  Some,
  length,
  unwrap_or,
};
ghost use Rattle.std.specs.List.{list_any};
ghost use Rattle.kiss2.specs.Faults.{
  count_fault,
  has_twice,
  long_name,
  names_fault,
  number_fault,
  operand_of,
  reset_fault,
};
ghost use Rattle.kiss2.specs.Words.{has_backslash, decimal_value};
ghost use Rattle.kiss_file.specs.Names.{AreDistinct};
ghost use Rattle.kiss2.specs.Inner.ReaderState.{Judges};

use crate::fault::{KissKind, KissLimit};
use crate::words::{holds_backslash, number_in};
use hs_io::{Name, Names, copied_names};
use kiss_file::StateNames;
use std::alloc::{AllocError, Global};

/// Why a line was not taken.
#[derive(Clone, Copy)]
pub(crate) enum LineFail {
    /// It has this fault.
    Fault(KissKind),
    /// Memory ran out.
    NoMemory,
}

impl From<AllocError> for LineFail {
    ghost use Rattle.std.specs.Prelude.{◌≡◌};
    ghost use Rattle.kiss2.specs.declared.line_operands.LineFail.TheVariants.{NoMemory};

    ghost from_gives = { λ _ e. e ≡ NoMemory };

    fn from(_: AllocError) -> Self {
        LineFail::NoMemory
    }
}

impl From<KissKind> for LineFail {
    ghost use Rattle.std.specs.Prelude.{◌≡◌};
    ghost use Rattle.kiss2.specs.declared.line_operands.LineFail.TheVariants.{Fault};

    ghost from_gives = { λ kind e. e ≡ Fault kind };

    fn from(kind: KissKind) -> Self {
        LineFail::Fault(kind)
    }
}

/// The number of `.i` or `.o`.
pub(crate) fn count_said(fields: &[Name], what: KissLimit, limit: u8) -> Result<u8, KissKind>
    ensures { MatchResult result
        (λ count. (count_fault what limit fields.now ≡ None) × (count ≡ decimal_value (operand_of fields.now)))
        (λ kind. count_fault what limit fields.now ≡ Some kind) }
{
    let [field] = fields else {
        return Err(KissKind::BadFields);
    };
    let Some(number) = number_in(field.bytes()) else {
        return Err(KissKind::BadNumber);
    };
    if number == 0 {
        return Err(KissKind::BadNumber);
    }
    if number > u32::from(limit) {
        return Err(KissKind::OverLimit {
            what,
            found: number,
        });
    }
    Ok(number as u8)
}

/// Judges the number of `.p` or `.s`. Its value is not compared with anything.
pub(crate) fn judge_number(fields: &[Name]) -> Result<(), KissKind>
    ensures { MatchResult result (λ _. number_fault fields.now ≡ None) (λ kind. number_fault fields.now ≡ Some kind) }
{
    let [field] = fields else {
        return Err(KissKind::BadFields);
    };
    match number_in(field.bytes()) {
        Some(_) => Ok(()),
        None => Err(KissKind::BadNumber),
    }
}

/// Whether each name is short enough.
pub(crate) fn judge_lengths(names: &[Name]) -> Result<(), KissKind>
    requires { All (λ name. length name < 2 ^ 32) names.now }
    ensures { MatchResult result (λ _. long_name names.now ≡ None) (λ kind. long_name names.now ≡ Some kind) }
{
    for name in names {
        let found = name.bytes().len();
        if found > 64 {
            return Err(KissKind::OverLimit {
                what: KissLimit::NameBytes,
                found: found as u32,
            });
        }
    }
    Ok(())
}

/// The name of `.r`.
pub(crate) fn reset_said(fields: &[Name]) -> Result<&[u8], KissKind>
    requires { All (λ name. length name < 2 ^ 32) fields.now }
    ensures { MatchResult result (λ name. (reset_fault fields.now ≡ None) × (name.now ≡ operand_of fields.now))
        (λ kind. reset_fault fields.now ≡ Some kind) }
{
    let [name] = fields else {
        return Err(KissKind::BadFields);
    };
    judge_lengths(fields)?;
    Ok(name.bytes())
}

/// Whether some name has a backslash.
fn some_backslash(names: &[Name]) -> bool
    ensures { result ≡ list_any has_backslash names.now }
{
    for name in names {
        if holds_backslash(name.bytes()) {
            return true;
        }
    }
    false
}

/// Adds names to others, and says whether each was new. If one was not, some are left out.
fn add_new(seen: &mut StateNames, names: &[Name]) -> Result<bool, AllocError>
    requires few { length seen.old + length names.now < 65535 }
    requires distinct { AreDistinct seen.old }
    ensures twice { IfOk result (λ new. has_twice (seen.old ++ names.now) ≡ not new) }
    ensures all { IfOk result (λ new. new ≡ true → seen.new ≡ seen.old ++ names.now) }
    ensures distinct { AreDistinct seen.new }
{
    for name in names {
        let name = name.bytes();
        if seen.number(name).is_some() {
            return Ok(false);
        }
        seen.add(name)?;
    }
    Ok(true)
}

/// Adds two lists of names to none, and says whether some name came twice. If one did, some are left out.
fn add_both(seen: &mut StateNames, first: &[Name], second: &[Name]) -> Result<bool, AllocError>
    requires few { length first.now + length second.now < 65535 }
    requires empty { seen.old ≡ [] }
    ensures { IfOk result (λ twice. twice ≡ has_twice (first.now ++ second.now)) }
{
    if !add_new(seen, first)? {
        return Ok(true);
    }
    Ok(!add_new(seen, second)?)
}

/// Whether some name occurs twice in two lists together.
fn stands_twice(alloc: Global, first: &[Name], second: &[Name]) -> Result<bool, AllocError>
    requires { length first.now + length second.now < 65535 }
    ensures { IfOk result (λ twice. twice ≡ has_twice (first.now ++ second.now)) }
{
    let mut seen = StateNames::new(alloc);
    add_both(&mut seen, first, second)
}

/// The names of `.ilb` or `.ob`, given the number of inputs or outputs and the names of the other word.
pub(crate) fn names_said(
    alloc: Global,
    count: Option<u8>,
    others: &[Name],
    fields: &[Name],
) -> Result<Names, LineFail>
    requires short { All (λ name. length name < 2 ^ 32) fields.now }
    requires others { length others.now < 2 ^ 8 }
    ensures judged { Judges result (names_fault count others.now fields.now) (λ names. names ≡ fields.now) }
    ensures few { IfOk result (λ names. length names < 256) }
{
    let Some(count) = count else {
        return Err(LineFail::Fault(KissKind::MissingCounts));
    };
    if fields.len() != usize::from(count) || some_backslash(fields) {
        return Err(LineFail::Fault(KissKind::BadFields));
    }
    judge_lengths(fields)?;
    if stands_twice(alloc, others, fields)? {
        return Err(LineFail::Fault(KissKind::Repeated));
    }
    Ok(copied_names(alloc, fields)?)
}

/// The names, or none where none are given.
pub(crate) fn given(names: &Option<Names>) -> &[Name]
    ensures { result.now ≡ unwrap_or names.now [] }
{
    match names {
        Some(names) => names.as_slice(),
        None => &[],
    }
}
