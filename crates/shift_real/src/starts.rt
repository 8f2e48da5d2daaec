//! What the register of a definite machine starts at.

ghost use Rattle.std.specs.Prelude.{◌≡◌, ℕ, IfErr, IfOk};
ghost use Rattle.shift_real.specs.DefiniteMachine.{IsOrder};
ghost use Rattle.shift_real.specs.Register.{HasShortOrder};
ghost use Rattle.shift_real.specs.Start.{IsRegisterCause, WritesStart};
ghost use Rattle.shift_real.specs.Inner.RegisterContents.{AreRegisterContents};

use crate::contents::{Content, contents, first_reaching};
use machine_table::Machine;
use std::alloc::{AllocError, Global};

/// Why there is no register of a definite machine.
#[derive(Debug, Drop, PartialEq)]
pub enum RegisterFail {
    /// No word of as many symbols as the order leads to the reset state.
    NotReached,
    /// Memory ran out.
    NoMemory,
}

impl From<AllocError> for RegisterFail {
    ghost use Rattle.std.specs.Prelude.{◌≡◌};
    ghost use Rattle.shift_real.specs.declared.starts.RegisterFail.TheVariants.{NoMemory};

    ghost from_gives = { λ _ fail. fail ≡ NoMemory };

    fn from(_: AllocError) -> Self {
        RegisterFail::NoMemory
    }
}

/// The contents of as many symbols as the order of a machine.
#[derive(Drop)]
pub(crate) struct RegisterContents {
    pub(crate) order: usize,
    pub(crate) contents: Vec<Content>,
}

/// What the register of a machine of this order can hold.
pub(crate) fn register_contents(
    alloc: Global,
    m: &Machine,
    order: usize,
) -> Result<RegisterContents, AllocError>
    requires { HasShortOrder m.now order }
    ensures { IfOk result (AreRegisterContents m.now) }
{
    let contents = contents(alloc, m, order)?;
    Ok(RegisterContents { order, contents })
}

/// What the latches start at, among what the register can hold.
pub(crate) fn start_among(m: &Machine, held: &RegisterContents) -> Result<u64, RegisterFail>
    requires { AreRegisterContents m.now held.now }
    ensures start { IfOk result (λ number. (k : ℕ) → IsOrder m.now k → WritesStart m.now k number) }
    ensures refused { IfErr result (IsRegisterCause m.now) }
{
    match first_reaching(&held.contents, m.reset()) {
        Some(first) => Ok(held.contents[first].latches),
        None => Err(RegisterFail::NotReached),
    }
}

/// The values of the latches before the first symbol, latch i at 2^i. The latch with the number j times the
/// inputs plus i holds bit i of the symbol that came j + 1 steps ago. Contents are read as binary numbers, the
/// oldest symbol first: this is the least content after which the machine is in its reset state.
///
/// The machine has this order, and its register at most 12 latches.
pub fn start(alloc: Global, m: &Machine, order: usize) -> Result<u64, RegisterFail>
    requires { HasShortOrder m.now order }
    ensures start { IfOk result (λ number. (k : ℕ) → IsOrder m.now k → WritesStart m.now k number) }
    ensures refused { IfErr result (IsRegisterCause m.now) }
{
    let held = register_contents(alloc, m, order)?;
    start_among(m, &held)
}
