//! The fields of a job from its words.

ghost use Rattle.std.specs.Prelude.{◌≡◌, ◌≢◌, true, false, OnOk};
ghost use Rattle.job_words.specs.Inner.Operands.{IsPut};
ghost use Rattle.job_words.specs.Job.{fits_kind, fits_option, with_operand, with_option};

use crate::draft::Refusal;
use crate::names::{is_clock_name, is_model_name};
use crate::numbers::{number, number_within};
use crate::splits::{has_few_slashes, is_split, names_outputs};
use crate::{CommandOption, Job, OperandKind};
use hs_io::Name;
use std::alloc::Global;

/// Puts a word into a job as an operand.
pub fn put_operand(
    alloc: Global,
    operand: OperandKind,
    word: &[u8],
    job: &mut Job,
) -> Result<(), Refusal>
    ensures ok { OnOk result (job.new ≡ with_operand operand word.now job.old) }
    ensures fits { OnOk result (fits_kind operand job.old word.now ≡ true) }
    ensures refused { result ≡ Err Refusal.Word → fits_kind operand job.old word.now ≡ false }
    ensures never { result ≢ Err Refusal.Taken }
{
    match operand {
        OperandKind::File | OperandKind::Net => job.file = Name::new(alloc, word)?,
        OperandKind::Part | OperandKind::Symbols | OperandKind::Cover => job.second = Name::new(
            alloc, word,
        )?,
        OperandKind::Parts if !has_few_slashes(word) => return Err(Refusal::Word),
        OperandKind::Split if !is_split(word) => return Err(Refusal::Word),
        OperandKind::Parts | OperandKind::Split => job.second = Name::new(alloc, word)?,
        OperandKind::J => return put_j(word, job),
        OperandKind::Seed => return put_seed(word, job),
        OperandKind::A => return put_a(word, job),
        OperandKind::B => return put_b(word, job),
        OperandKind::K => return put_k(word, job),
    }
    Ok(())
}

/// Puts the operand J into a job.
fn put_j(word: &[u8], job: &mut Job) -> Result<(), Refusal>
    ensures { IsPut OperandKind.J word.now job.old job.new result }
{
    if names_outputs(word) {
        job.part = None;
        return Ok(());
    }
    match number(word) {
        Some(part) if word.len() <= 3 => job.part = Some(part),
        _ => return Err(Refusal::Word),
    }
    Ok(())
}

/// Puts the operand SEED into a job.
fn put_seed(word: &[u8], job: &mut Job) -> Result<(), Refusal>
    ensures { IsPut OperandKind.Seed word.now job.old job.new result }
{
    let Some(seed) = number(word) else {
        return Err(Refusal::Word);
    };
    job.seed = u64::from(seed);
    Ok(())
}

/// Puts the operand A into a job.
fn put_a(word: &[u8], job: &mut Job) -> Result<(), Refusal>
    ensures { IsPut OperandKind.A word.now job.old job.new result }
{
    let Some(a) = number_within(word, 2, 128) else {
        return Err(Refusal::Word);
    };
    job.a = a as u16;
    Ok(())
}

/// Puts the operand B into a job that has its operand A.
fn put_b(word: &[u8], job: &mut Job) -> Result<(), Refusal>
    ensures { IsPut OperandKind.B word.now job.old job.new result }
{
    let Some(b) = number_within(word, 2, 128) else {
        return Err(Refusal::Word);
    };
    if u32::from(job.a) * b > 256 {
        return Err(Refusal::Word);
    }
    job.b = b as u16;
    Ok(())
}

/// Puts the operand K into a job.
fn put_k(word: &[u8], job: &mut Job) -> Result<(), Refusal>
    ensures { IsPut OperandKind.K word.now job.old job.new result }
{
    let Some(k) = number_within(word, 1, 8) else {
        return Err(Refusal::Word);
    };
    job.k = k as u8;
    Ok(())
}

/// Puts an option and the word that it took into a job.
pub fn put_option(
    alloc: Global,
    option: CommandOption,
    word: &[u8],
    job: &mut Job,
) -> Result<(), Refusal>
    ensures ok { OnOk result (job.new ≡ with_option option word.now job.old) }
    ensures fits { OnOk result (fits_option option word.now ≡ true) }
    ensures refused { result ≡ Err Refusal.Taken → fits_option option word.now ≡ false }
    ensures never { result ≢ Err Refusal.Word }
{
    match option {
        CommandOption::Limit => {
            job.limit = number_within(word, 1, 10_000).ok_or(Refusal::Taken)? as usize;
        }
        CommandOption::Reduce => job.reduce = true,
        CommandOption::Start => job.start = Some(Name::new(alloc, word)?),
        CommandOption::Fill if word != b"hold".as_slice() => return Err(Refusal::Taken),
        CommandOption::Fill => job.hold = true,
        CommandOption::Names => job.names = true,
        CommandOption::Clock if !is_clock_name(word) => return Err(Refusal::Taken),
        CommandOption::Clock => job.clock = Some(Name::new(alloc, word)?),
        CommandOption::Model if !is_model_name(word) => return Err(Refusal::Taken),
        CommandOption::Model => job.model = Some(Name::new(alloc, word)?),
    }
    Ok(())
}
