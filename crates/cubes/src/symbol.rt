//! Bits of numbers, and their characters.
ghost use Rattle.std.specs.Prelude.{◌≡◌, ◌<◌};
ghost use Rattle.cubes.specs.Symbol as symbols;
ghost use Rattle.cubes.specs.Symbol.{digit};

/// Whether the number has a 1 at the place of value 2^`place`.
pub fn bit(number: u64, place: usize) -> bool
    requires { place < 64 }
    ensures { result ≡ symbols.bit number place }
{
    number >> place & 1 == 1
}

/// The character of a bit.
pub fn digit_of(bit: bool) -> u8
    ensures { result ≡ digit bit }
{
    if bit { b'1' } else { b'0' }
}
