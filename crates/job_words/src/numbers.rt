//! Numbers in a command line.

ghost use Rattle.std.specs.Prelude.{◌≡◌, ◌<◌, ◌≤◌, ◌^◌, Some, None, if◌then◌else◌};
ghost use Rattle.job_words.specs.Number.{is_number, is_within, value_of};

/// The value of one to nine decimal digits; no other word is a number.
pub fn number(word: &[u8]) -> Option<u32>
    ensures { result ≡ (if is_number word.now then Some (value_of word.now) else None) }
{
    if word.is_empty() || word.len() > 9 {
        return None;
    }
    let mut value = 0;
    for byte in word {
        if !byte.is_ascii_digit() {
            return None;
        }
        value = value * 10 + u32::from(byte - b'0');
    }
    Some(value)
}

/// A number in a range, both ends included.
pub fn number_within(word: &[u8], low: u32, high: u32) -> Option<u32>
    ensures { result ≡ (if is_within low high word.now then Some (value_of word.now) else None) }
{
    match number(word) {
        Some(value) if low <= value && value <= high => Some(value),
        _ => None,
    }
}
