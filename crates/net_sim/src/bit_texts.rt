//! Reads and writes bits as texts.

ghost use Rattle.std.specs.Prelude.{
  ◌≡◌,
  ◌≢◌,
  ℕ,
  ◌==◌,
  Bool,
  List,
  [],
  ◌∷◌,
  ◌++◌,
  true,
  false,
  IfNone,
  IfSome,
  OnOk,
  length,
  map,
  codes,
};
ghost use Rattle.hs_io.specs.Spelling.{ended};
ghost use Rattle.net_sim.specs.BitTexts.{text_of_bits, character_of};

use std::alloc::AllocError;

/// Whether the text is that of as many bits as the slice has places. If so, it then holds these bits.
pub(crate) fn read_bits(text: &[u8], bits: &mut [bool]) -> bool
    ensures read { result ≡ true → text.now ≡ text_of_bits bits.new }
    ensures refused { result ≡ false → (others : List Bool) → length others ≡ length bits.old
        → text.now ≢ text_of_bits others }
{
    if bits.is_empty() {
        text == b"-".as_slice()
    } else if text.len() == bits.len() {
        read_characters(text, bits)
    } else {
        false
    }
}

/// Whether each character is that of a bit.
fn read_characters(text: &[u8], bits: &mut [bool]) -> bool
    requires { length text.now ≡ length bits.old }
    ensures read { result ≡ true → text.now ≡ map character_of bits.new }
    ensures refused { result ≡ false → (others : List Bool) → text.now ≢ map character_of others }
{
    for (place, character) in text.iter().enumerate() {
        match bit_of(*character) {
            Some(bit) => bits[place] = bit,
            None => return false,
        }
    }
    true
}

/// The bit of a character.
fn bit_of(character: u8) -> Option<bool>
    ensures some { IfSome result (λ bit. character ≡ character_of bit) }
    ensures none { IfNone result ((bit : Bool) → character ≢ character_of bit) }
{
    match character {
        b'0' => Some(false),
        b'1' => Some(true),
        _ => None,
    }
}

/// Appends an answer to a text: its bits as a line.
pub fn append_answer(text: &mut Vec<u8>, bits: &[bool]) -> Result<(), AllocError>
    ensures { OnOk result (text.new.items ≡ text.old.items ++ ended (text_of_bits bits.now)) }
{
    if bits.is_empty() {
        text.push(b'-')?;
    } else {
        push_characters(text, bits)?;
    }
    text.push(b'\n')?;
    Ok(())
}

/// Appends a character for each bit.
fn push_characters(text: &mut Vec<u8>, bits: &[bool]) -> Result<(), AllocError>
    ensures { OnOk result (text.new.items ≡ text.old.items ++ map character_of bits.now) }
{
    for bit in bits {
        text.push(if *bit { b'1' } else { b'0' })?;
    }
    Ok(())
}
