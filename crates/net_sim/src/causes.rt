use hs_io::Name;
use std::alloc::AllocError;

/// Why a network was not run. Where several causes hold, the answer is the first in this order.
#[derive(Debug, Drop)]
pub enum SimFail {
    /// A start is given, and it is not the text of one bit for each latch.
    BadStart,
    /// No start is given, and the start of some latch is free or not given: the output of the first such latch.
    UnknownStart { latch: Name },
    /// The number of the first refused line of the symbols.
    BadSymbol { line: u32 },
    /// Memory ran out.
    NoMemory,
}

impl From<AllocError> for SimFail {
    ghost use Rattle.std.specs.Prelude.{◌≡◌};
    ghost use Rattle.net_sim.specs.declared.causes.SimFail.TheVariants.{NoMemory};

    ghost from_gives = { λ _ fail. fail ≡ NoMemory };

    fn from(_: AllocError) -> Self {
        SimFail::NoMemory
    }
}
