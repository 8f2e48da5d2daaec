//! All lines of a text.

ghost use Rattle.std.specs.Prelude.{◌≡◌, ◌<◌, ◌^◌, length, IfOk};
ghost use Rattle.hs_io.specs.Lines.{lines_of};

use super::{Line, LineReader};
use std::alloc::{AllocError, Global};

/// The lines of a text, cut at each line feed. What follows the last line feed is a line if it is not empty. A
/// line without fields is a line too.
pub fn cut_lines(alloc: Global, bytes: &[u8]) -> Result<Vec<Line>, AllocError>
    requires { length bytes.now < 2 ^ 32 }
    ensures { IfOk result (λ lines. lines.items ≡ lines_of bytes.now) }
{
    let mut reader = LineReader::new(bytes);
    let mut lines = Vec::new(alloc);
    while let Some(line) = reader.next_line(alloc)? {
        lines.push(line)?;
    }
    Ok(lines)
}
