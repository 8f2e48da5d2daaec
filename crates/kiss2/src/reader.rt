//! Reads a KISS2 text.
ghost use Rattle.std.specs.Prelude.{
  ℕ,
  ◌≡◌,
  ◌+◌,
  ◌<◌,
  ◌^◌,
  ◌⊎◌,
  Err,
  List,
  [],
  false,
  true,
  IfOk,
  MatchResult,
  OnOk,
  Some,
  length,
};
ghost use Rattle.hs_io.specs.declared.lines.Line.{Line};
ghost use Rattle.hs_io.specs.Lines.{lines_of};
ghost use Rattle.kiss2.specs.declared.fault.KissFault.{KissFault};
ghost use Rattle.kiss_file.specs.declared.file.KissFile.{KissFile};
ghost use Rattle.kiss2.specs.declared.fault.KissFail.TheVariants.{NoMemory, Refused};
ghost use Rattle.kiss2.specs.Kiss.{IsKissFault, IsLineFault, Kiss, closing_fault, lines_read};
ghost use Rattle.kiss2.specs.Inner.ReaderState.{IsSmall, Keeps, Stands, fail_at};
ghost use Rattle.kiss2.specs.Inner.ReaderPlace.{HasCome};

use crate::fault::{KissFail, KissFault, KissKind};
use crate::kept_lines::Kept;
use crate::line_kind::ends;
use crate::line_operands::LineFail;
use crate::record::record_of;
use crate::standing::Said;
use hs_io::LineReader;
use kiss_file::KissFile;
use std::alloc::Global;

/// The machine that a KISS2 text says, or its first fault.
pub fn read(alloc: Global, bytes: &[u8]) -> Result<KissFile, KissFail>
    requires { length bytes.now < 2 ^ 32 }
    ensures read { IfOk result (λ file. Kiss bytes.now file) }
    ensures refused { (fault : KissFault) → result ≡ Err (KissFail.Refused fault)
        → IsKissFault bytes.now fault.line fault.kind }
    ensures never_refused { (file : KissFile) → Kiss bytes.now file
        → MatchResult result (λ read. read ≡ file) (λ fail. fail ≡ KissFail.NoMemory) }
    ensures never_read { (fault : KissFault) → IsKissFault bytes.now fault.line fault.kind
        → MatchResult result (λ _. ⊥) (λ fail. (fail ≡ KissFail.Refused fault) ⊎ (fail ≡ KissFail.NoMemory)) }
{
    let mut kept = Kept::new(alloc);
    read_text(alloc, bytes, &mut kept)
}

/// The machine, or the first fault. The lines are kept in what was empty before.
fn read_text(alloc: Global, bytes: &[u8], kept: &mut Kept) -> Result<KissFile, KissFail>
    requires short { length bytes.now < 2 ^ 32 }
    requires empty { Keeps kept.old.said kept.old.rows.items [] }
    ensures read { IfOk result (λ file. Kiss bytes.now file) }
    ensures refused { (fault : KissFault) → result ≡ Err (KissFail.Refused fault)
        → IsKissFault bytes.now fault.line fault.kind }
{
    judge_lines(alloc, bytes, kept)?;
    if let Some(fault) = closing(&kept.said) {
        return Err(KissFail::Refused(fault));
    }
    Ok(record_of(alloc, kept)?)
}

/// Judges the lines before the ending word, and keeps what they say.
fn judge_lines(alloc: Global, bytes: &[u8], kept: &mut Kept) -> Result<(), KissFail>
    requires short { length bytes.now < 2 ^ 32 }
    requires empty { Keeps kept.old.said kept.old.rows.items [] }
    ensures kept { OnOk result (Keeps kept.new.said kept.new.rows.items (lines_read bytes.now)) }
    ensures refused { (fault : KissFault) → result ≡ Err (KissFail.Refused fault)
        → IsLineFault (lines_read bytes.now) fault.line fault.kind }
{
    let mut reader = LineReader::new(bytes);
    while judge_next(alloc, &mut reader, kept)? {}
    Ok(())
}

/// Judges the next line and keeps what it says. False where the text has ended.
fn judge_next(alloc: Global, reader: &mut LineReader<'_>, kept: &mut Kept) -> Result<bool, KissFail>
    requires { (bytes : List ℕ) × (count : ℕ) × (length bytes < 2 ^ 32)
        × HasCome (lines_of bytes) kept.old.said kept.old.rows.items reader.old count }
    ensures shorter { IfOk result (λ more. more ≡ true → length reader.new < length reader.old) }
    ensures goes_on { IfOk result
        (λ more. more ≡ true → (bytes : List ℕ) (count : ℕ)
        → HasCome (lines_of bytes) kept.old.said kept.old.rows.items reader.old count
        → HasCome (lines_of bytes) kept.new.said kept.new.rows.items reader.new (count + 1)) }
    ensures done { IfOk result
        (λ more. more ≡ false → (bytes : List ℕ) (count : ℕ)
        → HasCome (lines_of bytes) kept.old.said kept.old.rows.items reader.old count
        → Keeps kept.new.said kept.new.rows.items (lines_read bytes)) }
    ensures refused { (fault : KissFault) → result ≡ Err (KissFail.Refused fault) → (bytes : List ℕ) (count : ℕ)
        → HasCome (lines_of bytes) kept.old.said kept.old.rows.items reader.old count
        → IsLineFault (lines_read bytes) fault.line fault.kind }
{
    let Some(line) = reader.next_line(alloc)? else {
        return Ok(false);
    };
    if ends(&line) {
        return Ok(false);
    }
    let number = line.number;
    match kept.take_line(alloc, line) {
        Ok(()) => Ok(true),
        Err(fail) => Err(fail_of(number, fail)),
    }
}

/// The failure at the line of that number.
fn fail_of(line: u32, fail: LineFail) -> KissFail
    ensures { result ≡ fail_at line fail }
{
    match fail {
        LineFail::Fault(kind) => KissFail::Refused(KissFault { line, kind }),
        LineFail::NoMemory => KissFail::NoMemory,
    }
}

/// The fault of the lines as a whole.
fn closing(said: &Said) -> Option<KissFault>
    requires { IsSmall said.now }
    ensures { (lines : List Line) → Stands said.now lines → result ≡ closing_fault lines }
{
    if said.rows == 0 {
        return Some(KissFault {
            line: 0,
            kind: KissKind::NoRows,
        });
    }
    let Some(reset) = &said.reset else {
        return None;
    };
    if said.states.number(reset.name.bytes()).is_some() {
        return None;
    }
    Some(KissFault {
        line: reset.number,
        kind: KissKind::ResetUnknown,
    })
}
