//! Bytes in the texts of cases.

ghost use Rattle.std.specs.Prelude.{◌≡◌, ◌<◌, ◌++◌, flat_map, IfOk, IfSome, OnOk};
ghost use Rattle.case_lines.specs.Escapes.{digit_of, escape_of};

use anyhow::Context;
use std::alloc::{AllocError, Global};

/// The bytes of a text: `\n`, `\r` and `\t` are one byte each, and so is `\x` with two hexadecimal digits.
pub fn unescaped(alloc: Global, text: &str) -> anyhow::Result<Vec<u8>> {
    let mut bytes = Vec::new(alloc);
    let mut pieces = text.split('\\');
    let front = pieces.next().unwrap_or("");
    bytes.extend_from_slice(front.as_bytes())?;
    for piece in pieces {
        append_escape(&mut bytes, piece.as_bytes())?;
    }
    Ok(bytes)
}

/// Appends what a backslash and the piece after it mean.
fn append_escape(bytes: &mut Vec<u8>, piece: &[u8]) -> anyhow::Result<()> {
    let (byte, rest) = escape(piece).context("no such escape")?;
    bytes.push(byte)?;
    bytes.extend_from_slice(rest)?;
    Ok(())
}

/// The byte that a backslash and the front of a piece mean, and the rest of the piece.
fn escape(piece: &[u8]) -> Option<(u8, &[u8])> {
    match piece {
        [b'n', rest @ ..] => Some((b'\n', rest)),
        [b'r', rest @ ..] => Some((b'\r', rest)),
        [b't', rest @ ..] => Some((b'\t', rest)),
        [b'x', high, low, rest @ ..] => Some((digit(*high)? * 16 + digit(*low)?, rest)),
        _ => None,
    }
}

/// The number of a hexadecimal digit.
fn digit(byte: u8) -> Option<u8>
    ensures { IfSome result (λ digit. digit < 16) }
{
    match byte {
        b'0'..=b'9' => Some(byte - b'0'),
        b'a'..=b'f' => Some(byte - b'a' + 10),
        _ => None,
    }
}

/// The text of bytes as an answer says them. A byte that is no printable character has an escape, and so has the
/// backslash, as `\x5c`.
pub fn escaped(alloc: Global, bytes: &[u8]) -> Result<Vec<u8>, AllocError>
    ensures { IfOk result (λ text. text.items ≡ flat_map escape_of bytes.now) }
{
    let mut text = Vec::new(alloc);
    for byte in bytes {
        add_escaped(*byte, &mut text)?;
    }
    Ok(text)
}

/// Adds a byte as it is written.
fn add_escaped(byte: u8, text: &mut Vec<u8>) -> Result<(), AllocError>
    ensures { OnOk result (text.new.items ≡ text.old.items ++ escape_of byte) }
{
    if byte == b'\n' {
        text.extend_from_slice(b"\\n")
    } else if byte == b'\r' {
        text.extend_from_slice(b"\\r")
    } else if byte == b'\t' {
        text.extend_from_slice(b"\\t")
    } else if byte >= b' ' && byte <= b'~' && byte != b'\\' {
        text.extend_from_slice(&[byte])
    } else {
        text.extend_from_slice(&[b'\\', b'x', character(byte / 16), character(byte % 16)])
    }
}

/// The character of a hexadecimal digit.
fn character(digit: u8) -> u8
    requires { digit < 16 }
    ensures { result ≡ digit_of digit }
{
    if digit < 10 {
        b'0' + digit
    } else {
        b'a' + (digit - 10)
    }
}
