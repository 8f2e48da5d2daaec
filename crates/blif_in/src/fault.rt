//! Why a text is refused.

use net_core::NetFail;
use std::alloc::AllocError;

/// The limits of a text.
#[derive(Clone, Copy, Debug, PartialEq, Eq)]
pub enum NetLimit {
    /// More than 256 inputs.
    Inputs,
    /// More than 256 outputs.
    Outputs,
    /// More than 256 latches.
    Latches,
    /// More than 65,536 gates.
    Gates,
    /// More than 256 inputs of a gate.
    GateInputs,
    /// A name of more than 64 bytes.
    NameBytes,
}

/// The kinds of fault.
#[derive(Debug, Drop)]
pub enum BlifKind {
    /// Outside its comments the line has a byte that is neither a tab nor printable ASCII, or a backslash that is
    /// not at its end.
    BadByte,
    /// A second model, or a word that is not supported.
    Unsupported,
    /// The number of fields is wrong, the start of a latch is not `0` to `3`, or a row does not come after a
    /// gate.
    BadFields,
    /// A row does not have the form of its gate's rows.
    BadRow,
    /// The output bit of a row differs from that of its gate's first row.
    MixedCover,
    /// The type of a latch is not `re`.
    LatchKind,
    /// There is a second clock, or a latch or a gate drives the clock.
    Clocks,
    /// The text does not begin with a model.
    NoModel,
    /// The network is not sound.
    Structure(NetFail),
    /// A limit is passed: `found` is the first number above it, or the length of the name.
    OverLimit { what: NetLimit, found: u32 },
}

/// The first fault of a text, with the number of its line, counted from 1, or 0 if the fault is in no line.
#[derive(Debug, Drop)]
pub struct BlifFault {
    pub line: u32,
    pub kind: BlifKind,
}

/// Why a text was not read.
#[derive(Debug, Drop)]
pub enum BlifFail {
    /// Its first fault.
    Refused(BlifFault),
    /// There is not enough memory.
    NoMemory,
}

impl From<AllocError> for BlifFail {
    ghost use Rattle.std.specs.Prelude.{◌≡◌};
    ghost use Rattle.blif_in.specs.declared.fault.BlifFail.TheVariants.{NoMemory};

    ghost from_gives = { λ _ fail. fail ≡ NoMemory };

    fn from(_: AllocError) -> Self {
        BlifFail::NoMemory
    }
}
