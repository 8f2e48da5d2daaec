//! Fields of a line, one at a time.
ghost use Rattle.std.specs.Prelude.{◌≡◌, ◌<◌, ◌≤◌, ◌^◌, false, true, IfNone, IfSome, length};
ghost use Rattle.std.specs.Char.{is_ascii_digit};
ghost use Rattle.std.specs.List.{list_all};
ghost use Rattle.std.specs.Str.{bytes_eq};
ghost use Rattle.kiss2.specs.Words.{
  care_in,
  field_at,
  has_backslash,
  is_character,
  is_character_field,
  is_decimal,
  is_open,
  decimal_value,
  operands,
  value_in,
};

use hs_io::{Line, Name};

/// The fields after the first.
pub(crate) fn operands_of(line: &Line) -> &[Name]
    ensures { result.now ≡ operands line.now }
{
    match line.fields.as_slice() {
        [] => &[],
        [_, fields @ ..] => fields,
    }
}

/// The field at a place.
pub(crate) fn field_of(line: &Line, place: usize) -> &[u8]
    requires { place < length line.now.fields }
    ensures { result.now ≡ field_at place line.now }
{
    line.fields.as_slice()[place].bytes()
}

/// The value of the field, if it is a number: one to nine digits.
pub(crate) fn number_in(field: &[u8]) -> Option<u32>
    ensures some { IfSome result (λ number. (is_decimal field.now ≡ true) × (number ≡ decimal_value field.now)) }
    ensures none { IfNone result (is_decimal field.now ≡ false) }
{
    if field.is_empty() || field.len() > 9 {
        return None;
    }
    value_of_digits(field)
}

/// The number with these digits, if each byte is a decimal digit.
fn value_of_digits(field: &[u8]) -> Option<u32>
    requires { length field.now ≤ 9 }
    ensures some { IfSome result
        (λ number. (list_all is_ascii_digit field.now ≡ true) × (number ≡ decimal_value field.now)) }
    ensures none { IfNone result (list_all is_ascii_digit field.now ≡ false) }
{
    let mut number = 0u32;
    for byte in field {
        if !byte.is_ascii_digit() {
            return None;
        }
        number = 10 * number + u32::from(*byte - b'0');
    }
    Some(number)
}

/// Whether the field is a `*` or a `-`, which is no name of a state.
pub(crate) fn is_open_field(field: &[u8]) -> bool
    ensures { result ≡ is_open field.now }
{
    is_word(field, b"*") || is_word(field, b"-")
}

/// Whether the field is the word.
pub(crate) fn is_word(field: &[u8], word: &[u8]) -> bool
    ensures { result ≡ bytes_eq field.now word.now }
{
    field == word
}

/// Whether the name has a backslash.
pub(crate) fn holds_backslash(name: &[u8]) -> bool
    ensures { result ≡ has_backslash name.now }
{
    name.contains(&b'\\')
}

/// Whether the byte is a character of an input or output field.
fn is_field_character(byte: u8) -> bool
    ensures { result ≡ is_character byte }
{
    byte == b'0' || byte == b'1' || byte == b'-'
}

/// Whether each byte is a character of such a field.
fn are_characters(field: &[u8]) -> bool
    ensures { result ≡ list_all is_character field.now }
{
    for byte in field {
        if !is_field_character(*byte) {
            return false;
        }
    }
    true
}

/// Whether the field is made of `count` characters.
pub(crate) fn has_characters(field: &[u8], count: u8) -> bool
    ensures { result ≡ is_character_field count field.now }
{
    field.len() == usize::from(count) && are_characters(field)
}

/// The outputs that an output field specifies, and those of them that are 1. Output b is the bit 2^b.
pub(crate) fn outputs_in_field(field: &[u8]) -> (u64, u64)
    requires { length field.now ≤ 64 }
    ensures care { result.0 ≡ care_in field.now }
    ensures value { result.1 ≡ value_in field.now }
{
    let mut care = 0u64;
    let mut value = 0u64;
    for (output, byte) in field.iter().enumerate() {
        if *byte != b'-' {
            care += 1 << output;
        }
        if *byte == b'1' {
            value += 1 << output;
        }
    }
    (care, value)
}
