//! The text of a limit that is exceeded.

ghost use Rattle.std.specs.Prelude.{◌≡◌, IfOk};
ghost use Rattle.answers.specs.LimitTexts.{over_limit_text};

use std::alloc::{AllocError, Global};

/// The text of a limit: of what there is too much, and how much was found.
pub(crate) fn over_limit(alloc: Global, what: &[u8], found: u32) -> Result<Vec<u8>, AllocError>
    ensures { IfOk result (λ text. text.items ≡ over_limit_text what.now found) }
{
    let number = found.to_string(alloc)?;
    let mut text = Vec::from_slice(alloc, b"over limit ")?;
    text.extend_from_slice(what)?;
    text.push(b' ')?;
    text.extend_from_slice(number.as_bytes())?;
    Ok(text)
}
