//! Fields, one after another.

ghost use Rattle.std.specs.Prelude.{◌≡◌, ◌+◌, ◌<◌, ◌≤◌, ◌∷◌, ◌++◌, OnOk};
ghost use Rattle.std.specs.Fmt.{decimal};
ghost use Rattle.std.specs.Int.{bit_at};
ghost use Rattle.std.specs.List.{flat_map};
ghost use Rattle.hs_io.specs.Spelling.{spaced};
ghost use Rattle.partition.specs.Text.{labels_text};
ghost use Rattle.blif_out.specs.Head.{numbers_text, bits_of, bit_text};
ghost use Rattle.blif_out.specs.Inner.Pieces.{comma_number};

use hs_io::Name;
use itoa::Buffer;
use partition::Partition;
use std::alloc::{AllocError, Global};

/// Appends a field after a space.
pub fn append_field(text: &mut Vec<u8>, field: &[u8]) -> Result<(), AllocError>
    ensures { OnOk result (text.new.items ≡ text.old.items ++ spaced field.now) }
{
    text.push(b' ')?;
    text.extend_from_slice(field)
}

/// Appends names, each after a space.
pub fn append_names(text: &mut Vec<u8>, names: &[Name]) -> Result<(), AllocError>
    ensures { OnOk result (text.new.items ≡ text.old.items ++ flat_map spaced names.now) }
{
    for name in names {
        append_field(text, name.bytes())?;
    }
    Ok(())
}

/// Appends a number in decimal digits.
pub fn append_number(text: &mut Vec<u8>, number: usize) -> Result<(), AllocError>
    ensures { OnOk result (text.new.items ≡ text.old.items ++ decimal number) }
{
    text.extend_from_slice(Buffer::new().format(number).as_bytes())
}

/// Appends a number after a space.
pub fn append_number_field(text: &mut Vec<u8>, number: usize) -> Result<(), AllocError>
    ensures { OnOk result (text.new.items ≡ text.old.items ++ spaced (decimal number)) }
{
    text.push(b' ')?;
    append_number(text, number)
}

/// Appends a partition after a space.
pub fn append_partition_field(
    alloc: Global,
    text: &mut Vec<u8>,
    partition: &Partition,
) -> Result<(), AllocError>
    ensures { OnOk result (text.new.items ≡ text.old.items ++ spaced (labels_text partition.now)) }
{
    text.push(b' ')?;
    partition.show(alloc, text)
}

/// Appends numbers after a space, joined by commas, or a dash for none.
pub fn append_numbers_field(text: &mut Vec<u8>, numbers: &[u16]) -> Result<(), AllocError>
    ensures { OnOk result (text.new.items ≡ text.old.items ++ spaced (numbers_text numbers.now)) }
{
    text.push(b' ')?;
    append_numbers(text, numbers)
}

/// Appends numbers joined by commas, or a dash for none.
fn append_numbers(text: &mut Vec<u8>, numbers: &[u16]) -> Result<(), AllocError>
    ensures { OnOk result (text.new.items ≡ text.old.items ++ numbers_text numbers.now) }
{
    let Some((first, others)) = numbers.split_first() else {
        return Ok(text.push(b'-')?);
    };
    append_joined(text, *first, others)
}

/// Appends numbers joined by commas.
fn append_joined(text: &mut Vec<u8>, first: u16, others: &[u16]) -> Result<(), AllocError>
    ensures { OnOk result (text.new.items ≡ text.old.items ++ labels_text (first ∷ others.now)) }
{
    append_number(text, usize::from(first))?;
    append_others(text, others)?;
    Ok(())
}

/// Appends numbers, each after a comma.
fn append_others(text: &mut Vec<u8>, numbers: &[u16]) -> Result<(), AllocError>
    ensures { OnOk result (text.new.items ≡ text.old.items ++ flat_map comma_number numbers.now) }
{
    for number in numbers {
        append_other(text, usize::from(*number))?;
    }
    Ok(())
}

/// Appends a number after a comma.
fn append_other(text: &mut Vec<u8>, number: usize) -> Result<(), AllocError>
    ensures { OnOk result (text.new.items ≡ text.old.items ++ comma_number number) }
{
    text.push(b',')?;
    append_number(text, number)
}

/// Appends the bits of a code after a space, bit 0 first, or a dash for none.
pub fn append_code_field(text: &mut Vec<u8>, bits: usize, word: u64) -> Result<(), AllocError>
    requires { bits ≤ 64 }
    ensures { OnOk result (text.new.items ≡ text.old.items ++ spaced (bit_text (bits_of bits word))) }
{
    text.push(b' ')?;
    append_code(text, bits, word)
}

/// Appends the bits of a code, bit 0 first, or a dash for none.
fn append_code(text: &mut Vec<u8>, bits: usize, word: u64) -> Result<(), AllocError>
    requires { bits ≤ 64 }
    ensures { OnOk result (text.new.items ≡ text.old.items ++ bit_text (bits_of bits word)) }
{
    if bits == 0 {
        return Ok(text.push(b'-')?);
    }
    append_bits(text, bits, word)
}

/// Appends the bits of a code, bit 0 first.
fn append_bits(text: &mut Vec<u8>, bits: usize, word: u64) -> Result<(), AllocError>
    requires { bits ≤ 64 }
    ensures { OnOk result (text.new.items ≡ text.old.items ++ bits_of bits word) }
{
    for i in 0..bits {
        text.push(digit(word, i))?;
    }
    Ok(())
}

/// The digit of a bit of a code.
fn digit(word: u64, i: usize) -> u8
    requires { i < 64 }
    ensures { result ≡ 48 + bit_at word i }
{
    b'0' + (word >> i & 1) as u8
}
