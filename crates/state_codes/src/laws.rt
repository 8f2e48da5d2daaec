//! What agreement on bits says about states: laws of all codes that a split gives.

ghost use Rattle.state_codes.specs.Code.{NeedIsLeast, CodesAreOne};
ghost use Rattle.state_codes.specs.Agreement.{PartBitsTell, CarrierBitsTell, BitsHalve};

/// The number of bits that a label takes is the least that distinguishes its blocks.
pub fn need_is_least()
    ensures { NeedIsLeast }
{}

/// The parts determine the codes.
pub fn codes_are_one()
    ensures { CodesAreOne }
{}

/// Two states agree on all bits of a part exactly where they are together in its partition.
pub fn part_bits_tell()
    ensures { PartBitsTell }
{}

/// Two states agree on the carrier bits of a part exactly where they are together in its carrier.
pub fn carrier_bits_tell()
    ensures { CarrierBitsTell }
{}

/// The partition of a bit has at most two blocks.
pub fn bits_halve()
    ensures { BitsHalve }
{}
