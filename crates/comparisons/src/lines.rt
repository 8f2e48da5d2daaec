//! The line of a kind of decomposition, and the line of the register.

ghost use Rattle.std.specs.Prelude.{◌≡◌, ◌≢◌, ◌⊎◌, Bool, IfOk, IsSome, Some, length};
ghost use Rattle.answers.specs.declared.refusals.Refusal.TheVariants.{NoMemory};
ghost use Rattle.comparisons.specs.Comparison.{IsKindLine, IsRegisterLine};
ghost use Rattle.comparisons.specs.Inner.KindLines.{IsMadeLine, IsMadeRegisterLine};
ghost use Rattle.comparisons.specs.Lines.{reason_of, short_line};
ghost use Rattle.kiss_file.specs.LawfulFile.{IsLawful};
ghost use Rattle.kiss_file.specs.Machine.{Conflicting};
ghost use Rattle.state_codes.specs.declared.split.Kind.TheVariants as kinds;
ghost use Rattle.state_reduce.specs.Work.{IsWork};

use crate::network_counts::{count_across, counts_of};
use answers::Refusal;
use blif_out::{HeadedNetwork, word_of_kind};
use hs_texts::comparisons::{Reason, counted, short};
use shift_texts::{OrderedRegister, register_of_work};
use split_texts::decompose_work;
use state_codes::Kind;
use state_reduce::WorkMachine;
use std::alloc::{AllocError, Global};

/// The word of the line of the register.
const REGISTER: &[u8] = b"shift";

/// The line of a kind without an operand: the counts of its network, or why there is none.
pub(crate) fn kind_line(
    alloc: Global,
    kind: Kind,
    work: &WorkMachine,
) -> Result<Vec<u8>, AllocError>
    requires operand { kind ≢ kinds.Assign }
    requires lawful { IsLawful work.now.file.now }
    requires no_conflict { Conflicting work.now.file.now → ⊥ }
    requires work { (reduce : Bool) × IsWork reduce work.now.file.now work.now }
    ensures { (reduce : Bool) → IsWork reduce work.now.file.now work.now
        → IfOk result (λ line. IsKindLine reduce work.now.file.now kind line.items) }
{
    match decompose_work(alloc, kind, b"", work) {
        Ok(made) => parts_line(alloc, kind, &made),
        Err(refusal) => reason_line(alloc, word_of_kind(kind), &refusal),
    }
}

/// The line of the register: the counts of its network, or why there is none.
pub(crate) fn register_line(alloc: Global, work: &WorkMachine) -> Result<Vec<u8>, AllocError>
    requires lawful { IsLawful work.now.file.now }
    requires no_conflict { Conflicting work.now.file.now → ⊥ }
    requires work { (reduce : Bool) × IsWork reduce work.now.file.now work.now }
    ensures { (reduce : Bool) → IsWork reduce work.now.file.now work.now
        → IfOk result (λ line. IsRegisterLine reduce work.now.file.now line.items) }
{
    match register_of_work(alloc, work) {
        Ok(made) => order_line(alloc, &made),
        Err(refusal) => reason_line(alloc, REGISTER, &refusal),
    }
}

/// The line of the counts of a decomposition.
fn parts_line(alloc: Global, kind: Kind, made: &HeadedNetwork) -> Result<Vec<u8>, AllocError>
    requires { length made.now.network.latches ≡ length made.now.header.latches }
    ensures { IfOk result (λ line. IsMadeLine kind made.now line.items) }
{
    let across = count_across(alloc, &made.network, made.header.latches.as_slice())?;
    let counts = counts_of(alloc, &made.network, across)?;
    let parts = made.header.parts.as_slice().len();
    counted(alloc, word_of_kind(kind), b"parts", parts, &counts)
}

/// The line of the counts of a register. A register has no parts, so no latch of it is read across.
fn order_line(alloc: Global, made: &OrderedRegister) -> Result<Vec<u8>, AllocError>
    ensures { IfOk result (λ line. IsMadeRegisterLine made.now line.items) }
{
    let counts = counts_of(alloc, &made.network, 0)?;
    counted(alloc, REGISTER, b"order", made.order, &counts)
}

/// The line of a refusal that has a reason.
fn reason_line(alloc: Global, word: &[u8], refusal: &Refusal) -> Result<Vec<u8>, AllocError>
    requires { (refusal.now ≡ NoMemory) ⊎ IsSome (short_line word.now refusal.now) }
    ensures { IfOk result (λ line. short_line word.now refusal.now ≡ Some line.items) }
{
    match reason(refusal) {
        Some(reason) => short(alloc, word, reason),
        None => Err(want_of_memory(refusal)),
    }
}

/// The reason of a refusal, if it has one.
fn reason(refusal: &Refusal) -> Option<Reason>
    ensures { result ≡ reason_of refusal.now }
{
    match refusal {
        Refusal::NoSplit { .. } | Refusal::NotDefinite { .. } => Some(Reason::Lacking),
        Refusal::CodeTooLong { bits } => Some(Reason::Bits { bits: *bits }),
        Refusal::StateCount { states } => Some(Reason::States { states: *states }),
        Refusal::NotReached { .. } => Some(Reason::Unreached),
        _ => None,
    }
}

/// The failure of a refusal that is want of memory.
fn want_of_memory(refusal: &Refusal) -> AllocError
    requires { refusal.now ≡ NoMemory }
{
    match refusal {
        Refusal::NoMemory => AllocError,
        _ => unreachable!(),
    }
}
