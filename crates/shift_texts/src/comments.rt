//! The comments before the network.

ghost use Rattle.std.specs.Prelude.{◌≡◌, IfOk};
ghost use Rattle.shift_texts.specs.ShiftText.{shift_comments};

use answers::Bytes;
use std::alloc::{AllocError, Global};

/// The comments that name the register and its order.
pub(crate) fn comments_of(alloc: Global, order: usize) -> Result<Bytes, AllocError>
    ensures { IfOk result (λ comments. comments ≡ shift_comments order) }
{
    let numeral = order.to_string(alloc)?;
    let mut text = Vec::new(alloc);
    text.extend_from_slice(b"# hsdec shift\n# order ")?;
    text.extend_from_slice(numeral.as_bytes())?;
    text.push(b'\n')?;
    Ok(Bytes::from(text))
}
