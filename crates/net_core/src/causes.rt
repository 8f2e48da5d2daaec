use hs_io::{Name, Names};
use std::alloc::AllocError;

/// Why a network is not sound. Where several causes hold, the answer is the first in this order.
#[derive(Debug, Drop)]
pub enum NetFail {
    /// The first name that is driven a second time. The inputs come first, then the latch outputs, then
    /// the gate outputs.
    TwoDrivers { name: Name },
    /// The first name that is used and not driven. The outputs come first, then the latch inputs, then the
    /// inputs of the gates.
    Undriven { name: Name },
    /// Distinct outputs of gates that form a cycle. The gate of each name has the next name among its
    /// inputs, and the gate of the last name has the first. Of these gates, that of the first name comes
    /// first in the network. Where there are several cycles, it may be any of them.
    Cycle { names: Names },
    /// There is not enough memory.
    NoMemory,
}

impl From<AllocError> for NetFail {
    ghost use Rattle.std.specs.Prelude.{◌≡◌};
    ghost use Rattle.net_core.specs.declared.causes.NetFail.TheVariants.{NoMemory};

    ghost from_gives = { λ _ fail. fail ≡ NoMemory };

    fn from(_: AllocError) -> Self {
        NetFail::NoMemory
    }
}
