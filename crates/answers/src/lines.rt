//! The answer of a refusal, and its line.

ghost use Rattle.std.specs.Prelude.{◌≡◌, IfOk};
ghost use Rattle.answers.specs.Refusal.{answer_of, flaw_line, inputs_line_of, line_of, missing_text, name_line_of, part_line};

use crate::kiss_texts::text_of_kind;
use crate::net_texts::line_of_fault;
use crate::numbers::Answer;
use crate::refusals::{CoverFlaw, PartFlaw, Refusal};
use blif_out::word_of_kind;
use hs_texts::err_lines::{self, CANNOT_WRITE, NO_MEMORY};
use kiss2::KissFault;
use machine_table::Missing;
use state_codes::Which;
use std::alloc::{AllocError, Global};

impl Refusal {
    /// The answer of a refusal.
    pub fn answer(&self) -> Answer
        ensures { result ≡ answer_of self.now }
    {
        match self {
            Refusal::Usage { .. } => Answer::Usage,
            Refusal::Unreadable { .. } => Answer::ReadFault,
            Refusal::TooLong { .. } => Answer::TooLong,
            Refusal::NoMachine(_) => Answer::KissRefused,
            Refusal::Conflict { .. } => Answer::Conflict,
            Refusal::Unspecified { .. } => Answer::Unspecified,
            Refusal::More { .. } => Answer::More,
            Refusal::PartLabel { .. } | Refusal::PartLength { .. } | Refusal::NotApart { .. } => {
                Answer::PartRefused
            }
            Refusal::NoSplit { .. } => Answer::NoSplit,
            Refusal::CodeTooLong { .. } => Answer::CodeTooLong,
            Refusal::NoNetwork(_) => Answer::NetRefused,
            Refusal::BadStart | Refusal::UnknownStart { .. } | Refusal::BadSymbol { .. } => {
                Answer::SymbolRefused
            }
            Refusal::StateCount { .. } => Answer::StateCount,
            Refusal::BadCover(_) => Answer::CoverRefused,
            Refusal::NotDefinite { .. } => Answer::NotDefinite,
            Refusal::NotReached { .. } => Answer::NotReached,
            Refusal::TooManyInputs { .. } => Answer::TooManyInputs,
            Refusal::TooManyOutputs => Answer::TooManyOutputs,
            Refusal::NoPart(_) => Answer::NoPart,
            Refusal::ClockIsSignal { .. } => Answer::ClockIsSignal,
            Refusal::Unwritable => Answer::WriteFault,
            Refusal::NoMemory => Answer::NoMemory,
        }
    }

    /// The line for err. The lines of a failed put and of a lack of memory are also constants of `hs_texts`.
    pub fn line(&self, alloc: Global) -> Result<Vec<u8>, AllocError>
        ensures { IfOk result (λ line. line.items ≡ line_of self.now) }
    {
        match self {
            Refusal::Usage { word } => err_lines::usage(alloc, *word),
            Refusal::Unreadable { name } => err_lines::cannot_read(alloc, name.bytes()),
            Refusal::TooLong { name } => err_lines::too_long(alloc, name.bytes()),
            Refusal::NoMachine(fault) => line_of_text(alloc, *fault),
            Refusal::Conflict { row, other } => err_lines::conflict(alloc, *row, *other),
            Refusal::Unspecified {
                state,
                symbol,
                part,
            } => line_of_entry(alloc, state.bytes(), symbol.as_slice(), *part),
            Refusal::More { limit } => err_lines::more(alloc, *limit),
            Refusal::PartLabel { part, place } => err_lines::part_place(alloc, *part, *place),
            Refusal::PartLength {
                part,
                found,
                states,
            } => err_lines::part_length(alloc, *part, *found, *states),
            Refusal::NotApart { state, other } => {
                err_lines::not_apart(alloc, state.bytes(), other.bytes())
            }
            Refusal::NoSplit { kind } => err_lines::no_split(alloc, word_of_kind(*kind)),
            Refusal::CodeTooLong { bits } => err_lines::code_bits(alloc, *bits),
            Refusal::NoNetwork(fault) => line_of_fault(alloc, fault),
            Refusal::BadStart => err_lines::bad_start(alloc),
            Refusal::UnknownStart { latch } => err_lines::start_unknown(alloc, latch.bytes()),
            Refusal::BadSymbol { line } => err_lines::symbols(alloc, *line),
            Refusal::StateCount { states } => err_lines::state_count(alloc, *states),
            Refusal::BadCover(flaw) => line_of_flaw(alloc, flaw),
            Refusal::NotDefinite { state, other } => {
                err_lines::not_definite(alloc, state.bytes(), other.bytes())
            }
            Refusal::NotReached { reset } => err_lines::not_reached(alloc, reset.bytes()),
            Refusal::TooManyInputs { inputs } => err_lines::inputs(alloc, *inputs),
            Refusal::TooManyOutputs => err_lines::outputs(alloc),
            Refusal::NoPart(flaw) => line_of_part(alloc, *flaw),
            Refusal::ClockIsSignal { clock } => err_lines::clock(alloc, clock.bytes()),
            Refusal::Unwritable => Vec::from_slice(alloc, CANNOT_WRITE),
            Refusal::NoMemory => Vec::from_slice(alloc, NO_MEMORY),
        }
    }
}

/// The line of a text that is not a machine.
fn line_of_text(alloc: Global, fault: KissFault) -> Result<Vec<u8>, AllocError>
    ensures { IfOk result (λ line. line.items ≡ line_of (Refusal.NoMachine fault)) }
{
    let text = text_of_kind(alloc, fault.kind)?;
    err_lines::kiss(alloc, fault.line, text.as_slice())
}

/// The line of an open entry.
fn line_of_entry(
    alloc: Global,
    state: &[u8],
    symbol: &[u8],
    part: Missing,
) -> Result<Vec<u8>, AllocError>
    ensures { IfOk result (λ line. line.items ≡ line_of (Refusal.Unspecified state.now symbol.now part)) }
{
    let missing = text_of_missing(alloc, part)?;
    err_lines::unspecified(alloc, state, symbol, missing.as_slice())
}

/// The text of what is missing.
fn text_of_missing(alloc: Global, part: Missing) -> Result<Vec<u8>, AllocError>
    ensures { IfOk result (λ text. text.items ≡ missing_text part) }
{
    match part {
        Missing::Next => Vec::from_slice(alloc, b"next"),
        Missing::Output(b) => {
            let number = b.to_string(alloc)?;
            let mut text = Vec::from_slice(alloc, b"output ")?;
            text.extend_from_slice(number.as_bytes())?;
            Ok(text)
        }
    }
}

/// The line of a cover that is refused.
fn line_of_flaw(alloc: Global, flaw: &CoverFlaw) -> Result<Vec<u8>, AllocError>
    ensures { IfOk result (λ line. line.items ≡ flaw_line flaw.now) }
{
    match flaw {
        CoverFlaw::Place { block, place } => err_lines::cover_place(alloc, *block, *place),
        CoverFlaw::Within { block, other } => err_lines::cover_within(alloc, *block, *other),
        CoverFlaw::Lacks { state } => err_lines::cover_lacks(alloc, state.bytes()),
        CoverFlaw::Places { found } => err_lines::cover_places(alloc, *found),
        CoverFlaw::Trivial => err_lines::cover_trivial(alloc),
        CoverFlaw::Leaves { block, symbol } => {
            err_lines::cover_leaves(alloc, *block, symbol.as_slice())
        }
    }
}

/// The line of a part, or of outputs, without a machine.
fn line_of_part(alloc: Global, flaw: PartFlaw) -> Result<Vec<u8>, AllocError>
    ensures { IfOk result (λ line. line.items ≡ part_line flaw) }
{
    match flaw {
        PartFlaw::Missing { part } => err_lines::no_part(alloc, part),
        PartFlaw::NoBits { part } => err_lines::part_bits(alloc, part),
        PartFlaw::ManyInputs { which, inputs } => line_of_inputs(alloc, which, inputs),
        PartFlaw::LongName { which, bytes } => line_of_name(alloc, which, bytes),
    }
}

/// The line of a machine with too many inputs.
fn line_of_inputs(alloc: Global, which: Which, inputs: usize) -> Result<Vec<u8>, AllocError>
    ensures { IfOk result (λ line. line.items ≡ inputs_line_of which inputs) }
{
    match which {
        Which::Part(part) => err_lines::part_inputs(alloc, part, inputs),
        Which::Outputs => err_lines::outputs_inputs(alloc, inputs),
    }
}

/// The line of a machine with a name that is too long.
fn line_of_name(alloc: Global, which: Which, bytes: usize) -> Result<Vec<u8>, AllocError>
    ensures { IfOk result (λ line. line.items ≡ name_line_of which bytes) }
{
    match which {
        Which::Part(part) => err_lines::part_name(alloc, part, bytes),
        Which::Outputs => err_lines::outputs_name(alloc, bytes),
    }
}
