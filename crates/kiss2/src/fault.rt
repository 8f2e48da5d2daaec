//! Why a text is refused.

use std::alloc::AllocError;

/// The limits of a text.
#[derive(Clone, Copy, Debug, PartialEq, Eq)]
pub enum KissLimit {
    /// More than 65,536 rows.
    Rows,
    /// More than 256 states.
    States,
    /// More than 32 inputs.
    Inputs,
    /// More than 64 outputs.
    Outputs,
    /// A name of more than 64 bytes.
    NameBytes,
}

/// The kinds of fault.
#[derive(Clone, Copy, Debug, PartialEq, Eq)]
pub enum KissKind {
    /// The line has a byte outside its comment that is neither a tab nor printable ASCII.
    BadByte,
    /// The first field begins with a dot and is none of the words.
    UnknownWord,
    /// The operand is not a number, or it is 0 as a count of inputs or outputs.
    BadNumber,
    /// A word occurs a second time, or a name occurs twice among those of inputs and outputs.
    Repeated,
    /// The line needs `.i` or `.o` before it, and that is missing.
    MissingCounts,
    /// The line has the wrong number of fields, or a name in it has a backslash.
    BadFields,
    /// The input field is not made of one `0`, `1` or `-` for each input.
    BadCube,
    /// The output field is not made of one `0`, `1` or `-` for each output.
    BadOutput,
    /// The current state of the row is `*` or `-`.
    AnyState,
    /// The name after `.r` is not the name of a state.
    ResetUnknown,
    /// There is no row.
    NoRows,
    /// A limit is exceeded. `found` is the number that exceeds it, or the length of the name.
    OverLimit { what: KissLimit, found: u32 },
}

/// The first fault of a text: the number of its line, counted from 1, or 0 if it belongs to no line.
#[derive(Clone, Copy, Debug, PartialEq, Eq)]
pub struct KissFault {
    pub line: u32,
    pub kind: KissKind,
}

/// Why a text was not read.
#[derive(Clone, Copy, Debug, PartialEq, Eq)]
pub enum KissFail {
    /// It has this fault.
    Refused(KissFault),
    /// Memory ran out.
    NoMemory,
}

impl From<AllocError> for KissFail {
    ghost use Rattle.std.specs.Prelude.{◌≡◌};
    ghost use Rattle.kiss2.specs.declared.fault.KissFail.TheVariants.{NoMemory};

    ghost from_gives = { λ _ e. e ≡ NoMemory };

    fn from(_: AllocError) -> Self {
        KissFail::NoMemory
    }
}
