//! Laws of texts and their faults, each the contract of a function that does nothing.

ghost use Rattle.blif_in.specs.Text.{FaultlessDenotes, NeverBoth, OneFault};

/// No text both is a BLIF text of a network and has a fault, and a text has at most one first fault. Where there
/// are several cycles, the fault may name any of them.
pub fn one_fault()
    ensures never_both { NeverBoth }
    ensures once { OneFault }
{}

/// A text denotes a network within the limits exactly where it has no fault, unless it is that the network is
/// not sound.
pub fn faultless_denotes()
    ensures { FaultlessDenotes }
{}
