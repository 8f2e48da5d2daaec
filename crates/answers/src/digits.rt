//! The digits of symbols.

ghost use Rattle.std.specs.Prelude.{◌≡◌, ◌≤◌, IfOk, map};
ghost use Rattle.cubes.specs.Symbol.{digit, symbol_of};

use crate::reports::Bytes;
use cubes::{bit, digit_of};
use std::alloc::{AllocError, Global};

/// The digits of the symbol of this number, the most significant bit first.
pub fn symbol_text(alloc: Global, inputs: u8, symbol: u32) -> Result<Bytes, AllocError>
    requires { inputs ≤ 32 }
    ensures { IfOk result (λ text. text ≡ map digit (symbol_of inputs symbol)) }
{
    let mut text = Vec::new(alloc);
    for place in 0..inputs {
        text.push(digit_of(bit(u64::from(symbol), usize::from(inputs - 1 - place))))?;
    }
    Ok(Bytes::from(text))
}
