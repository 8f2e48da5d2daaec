//! Lines of the outputs that occur.

ghost use Rattle.std.specs.Prelude.{◌≡◌, ◌++◌, ◌<◌, ◌≤◌, IfOk, OnOk};
ghost use Rattle.std.specs.List.{enumerate_from, flat_map};
ghost use Rattle.cubes.specs.Symbol as symbols;
ghost use Rattle.cubes.specs.Symbol.{digit};
ghost use Rattle.machine_reports.specs.OutputTexts.{output_digits, output_line};

use cubes::{bit, digit_of};
use std::alloc::{AllocError, Global};

/// The lines of outputs of this number of bits, numbered from 0.
pub fn output_lines(alloc: Global, bits: u8, outs: &[u64]) -> Result<Vec<u8>, AllocError>
    requires { bits ≤ 64 }
    ensures { IfOk result (λ text. text.items ≡ flat_map (output_line bits) (enumerate_from 0 outs.now)) }
{
    let mut text = Vec::new(alloc);
    for (number, word) in outs.iter().enumerate() {
        append_line(alloc, bits, number, *word, &mut text)?;
    }
    Ok(text)
}

/// Appends the line of an output.
fn append_line(
    alloc: Global,
    bits: u8,
    number: usize,
    word: u64,
    text: &mut Vec<u8>,
) -> Result<(), AllocError>
    requires { bits ≤ 64 }
    ensures { OnOk result (text.new.items ≡ text.old.items ++ output_line bits (number, word)) }
{
    let numeral = number.to_string(alloc)?;
    text.extend_from_slice(b"output ")?;
    text.extend_from_slice(numeral.as_bytes())?;
    text.push(b' ')?;
    append_digits(bits, word, text)?;
    text.push(b'\n')?;
    Ok(())
}

/// Appends the digits of an output, output 0 first.
fn append_digits(bits: u8, word: u64, text: &mut Vec<u8>) -> Result<(), AllocError>
    requires { bits ≤ 64 }
    ensures { OnOk result (text.new.items ≡ text.old.items ++ output_digits bits word) }
{
    for place in 0..usize::from(bits) {
        text.push(digit_at(word, place))?;
    }
    Ok(())
}

/// The digit of a bit.
fn digit_at(word: u64, place: usize) -> u8
    requires { place < 64 }
    ensures { result ≡ digit (symbols.bit word place) }
{
    digit_of(bit(word, place))
}
