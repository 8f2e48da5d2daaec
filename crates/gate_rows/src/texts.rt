//! The rows of a gate as texts.

ghost use Rattle.std.specs.Prelude.{◌≡◌, ◌<◌, ◌≤◌, All, IfOk, length, map};
ghost use Rattle.std.specs.Cmp.Lexicographic.{slice_cmp};
ghost use Rattle.std.specs.List.Sorted.{IsPermutation, IsSorted};
ghost use Rattle.std.specs.Ordering.{nat_cmp};
ghost use Rattle.cover_logic.specs.TermCover.{CanCover};
ghost use Rattle.gate_rows.specs.GateCovers.{HoldValues, IsGoodCover};
ghost use Rattle.gate_rows.specs.Inner.Texts.{byte_at, row_text};

use cover_logic::{Term, cover};
use hs_io::{Name, Names};
use std::alloc::{AllocError, Global};

/// The rows of a gate with `width` columns that gives 1 at the values of on and 0 at those of off, in ascending
/// order of their bytes. A row has a character for each column, column 0 first.
pub fn rows(alloc: Global, on: &[Term], off: &[Term], width: u8) -> Result<Names, AllocError>
    requires { CanCover width on.now off.now }
    ensures cover { IfOk result (IsGoodCover (HoldValues width on.now) (HoldValues width off.now)) }
    ensures widths { IfOk result (All (λ row. length row ≡ width)) }
    ensures in_order { IfOk result (IsSorted (slice_cmp nat_cmp)) }
{
    let terms = cover(alloc, on, off, width)?;
    row_texts(alloc, &terms, usize::from(width))
}

/// The texts of the terms, in ascending order of their bytes.
fn row_texts(alloc: Global, terms: &[Term], width: usize) -> Result<Names, AllocError>
    requires { width ≤ 128 }
    ensures texts { IfOk result (IsPermutation (map (row_text width) terms.now)) }
    ensures in_order { IfOk result (IsSorted (slice_cmp nat_cmp)) }
{
    let mut texts = Vec::new(alloc);
    for term in terms {
        texts.push(text_of(alloc, *term, width)?)?;
    }
    texts.sort()?;
    names_from(alloc, texts.as_slice())
}

/// The text of a term.
fn text_of(alloc: Global, term: Term, width: usize) -> Result<Vec<u8>, AllocError>
    requires { width ≤ 128 }
    ensures { IfOk result (λ text. text.items ≡ row_text width term) }
{
    let mut text = Vec::new(alloc);
    for column in 0..width {
        text.push(byte_of(term, column))?;
    }
    Ok(text)
}

/// The character of a term at a column: a dash where it has no literal there.
fn byte_of(term: Term, column: usize) -> u8
    requires { column < 128 }
    ensures { result ≡ byte_at term column }
{
    if term.care >> column & 1 == 0 {
        b'-'
    } else if term.value >> column & 1 == 1 {
        b'1'
    } else {
        b'0'
    }
}

/// The texts as names.
fn names_from(alloc: Global, texts: &[Vec<u8>]) -> Result<Names, AllocError>
    ensures { IfOk result (λ names. names ≡ map (λ text. text.items) texts.now) }
{
    let mut names = Names::new(alloc);
    for text in texts {
        names.push(Name::new(alloc, text.as_slice())?)?;
    }
    Ok(names)
}
