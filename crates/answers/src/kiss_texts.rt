//! The text of each kind of fault in a KISS2 text.

ghost use Rattle.std.specs.Prelude.{◌≡◌, IfOk};
ghost use Rattle.answers.specs.KissTexts.{kind_text, limit_text};

use crate::limit_texts::over_limit;
use kiss2::{KissKind, KissLimit};
use std::alloc::{AllocError, Global};

/// The text of a kind.
pub fn text_of_kind(alloc: Global, kind: KissKind) -> Result<Vec<u8>, AllocError>
    ensures { IfOk result (λ text. text.items ≡ kind_text kind) }
{
    let words: &[u8] = match kind {
        KissKind::BadByte => b"bad byte",
        KissKind::UnknownWord => b"unknown word",
        KissKind::BadNumber => b"bad number",
        KissKind::Repeated => b"repeated",
        KissKind::MissingCounts => b"counts missing",
        KissKind::BadFields => b"bad fields",
        KissKind::BadCube => b"bad input field",
        KissKind::BadOutput => b"bad output field",
        KissKind::AnyState => b"any-state row",
        KissKind::ResetUnknown => b"reset unknown",
        KissKind::NoRows => b"no rows",
        KissKind::OverLimit { what, found } => {
            return over_limit(alloc, word_of_limit(what), found);
        }
    };
    Vec::from_slice(alloc, words)
}

/// What there is too much of.
fn word_of_limit(what: KissLimit) -> &'static [u8]
    ensures { result.now ≡ limit_text what }
{
    match what {
        KissLimit::Rows => b"rows",
        KissLimit::States => b"states",
        KissLimit::Inputs => b"inputs",
        KissLimit::Outputs => b"outputs",
        KissLimit::NameBytes => b"name",
    }
}
