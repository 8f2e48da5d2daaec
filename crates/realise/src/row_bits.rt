//! What a row says of a bit.

ghost use Rattle.std.specs.Prelude.{◌≡◌, ◌<◌, IfSome, length};
ghost use Rattle.kiss_file.specs.Machine.{given_bit};
ghost use Rattle.dependence.specs.RowBits as said;
ghost use Rattle.dependence.specs.Effects.{HasPlace};
ghost use Rattle.dependence.specs.RowBits.{row_value};

use cubes::bit;
use dependence::Bit;
use kiss_file::KissRow;

/// What the gate of a bit gives at the symbols of a row, if the row says it. The words are the codes of the
/// states.
pub fn said_bit(row: &KissRow, words: &[u64], bit: Bit) -> Option<bool>
    requires place { HasPlace bit }
    requires states { IfSome row.now.to (λ t. t < length words.now) }
    ensures { result ≡ row_value words.now bit row.now }
{
    match bit {
        Bit::Latch(i) => next_bit(row, words, i),
        Bit::Output(b) => given_output(row, usize::from(b)),
    }
}

/// The bit of the code of the next state, if the row names one.
fn next_bit(row: &KissRow, words: &[u64], i: usize) -> Option<bool>
    requires place { i < 64 }
    requires states { IfSome row.now.to (λ t. t < length words.now) }
    ensures { result ≡ said.next_bit words.now i row.now }
{
    match row.to {
        Some(t) => Some(bit(words[usize::from(t)], i)),
        None => None,
    }
}

/// The bit that the row gives at an output, if it gives one.
fn given_output(row: &KissRow, b: usize) -> Option<bool>
    requires { b < 64 }
    ensures { result ≡ given_bit b row.now }
{
    if bit(row.care, b) {
        Some(bit(row.value, b))
    } else {
        None
    }
}
