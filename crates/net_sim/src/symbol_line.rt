//! What a line of a file of symbols says.

ghost use Rattle.std.specs.Prelude.{ℕ, length};
ghost use Rattle.hs_io.specs.Lines.{line_of};
ghost use Rattle.net_sim.specs.Inner.SymbolLine.{SaysAs};

use crate::bit_texts::read_bits;
use hs_io::{content_of, first_field, is_clean};

/// What a line says.
#[derive(Clone, Copy)]
pub(crate) enum Said {
    Nothing,
    /// A symbol of the width that is asked for.
    Symbol,
    /// Something else.
    Other,
}

/// Reads a line; a symbol goes into `symbol`.
pub(crate) fn read_line(line: &[u8], symbol: &mut [bool]) -> Said
    ensures { (number : ℕ) → SaysAs (length symbol.old) (line_of number line.now) symbol.new result }
{
    let text = content_of(line);
    if !is_clean(text) {
        return Said::Other;
    }
    let (field, rest) = first_field(text);
    if field.is_empty() {
        Said::Nothing
    } else if first_field(rest).0.is_empty() && read_bits(field, symbol) {
        Said::Symbol
    } else {
        Said::Other
    }
}
