//! Words of bits as sets.

ghost use Rattle.std.specs.Prelude.{◌≡◌, ◌↔◌, ◌<◌, ◌≤◌, ◌⊎◌, ℕ, IfOk, IsTrue};
ghost use Rattle.dependence.specs.BitLists.{AreListed};
ghost use Rattle.dependence.specs.SufficientBits.{InWord};
ghost use Rattle.dependence.specs.ReadRule.{Without};

use crate::Numbers;
use std::alloc::{AllocError, Global};

/// The numbers of the bits of a word, ascending.
pub fn numbers_of(alloc: Global, set: u64) -> Result<Numbers, AllocError>
    ensures { IfOk result (λ numbers. AreListed numbers set 64) }
{
    let mut numbers = Numbers::new(alloc);
    for c in 0..64u8 {
        if has_bit(set, u32::from(c)) {
            numbers.push(c)?;
        }
    }
    Ok(numbers)
}

/// Whether bit c is in the set.
pub fn has_bit(set: u64, c: u32) -> bool
    requires { c < 64 }
    ensures { IsTrue result ↔ InWord set c }
{
    (set >> c) & 1 == 1
}

/// The set with bit c.
pub fn with_bit(set: u64, c: u32) -> u64
    requires { c < 64 }
    ensures { (d : ℕ) → InWord result d ↔ (InWord set d ⊎ (d ≡ c)) }
{
    set | (1 << c)
}

/// The set without bit c.
pub(crate) fn without(set: u64, c: u32) -> u64
    requires { c < 64 }
    ensures { (d : ℕ) → InWord result d ↔ Without (InWord set) c d }
{
    set & !(1 << c)
}

/// The set of the first bits.
pub fn bits_below(bits: usize) -> u64
    requires { bits ≤ 64 }
    ensures { (c : ℕ) → InWord result c ↔ (c < bits) }
{
    if bits == 0 {
        0
    } else {
        u64::MAX >> (64 - bits)
    }
}
