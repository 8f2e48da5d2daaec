//! Reading covers, and the refusals of their texts.

ghost use Rattle.std.specs.Prelude.{◌≡◌, ◌<◌, ℕ, IfOk, MatchResult, length};
ghost use Rattle.answers.specs.Outcome.{IsStop};
ghost use Rattle.cover_split.specs.declared.state_cover.CoverFail.TheVariants as fails;
ghost use Rattle.cover_texts.specs.Flaws.{BadCoverRow};
ghost use Rattle.cover_texts.specs.Inner.Steps.{IsRead, IsFailRefusal};

use answers::{CoverFlaw, Refusal};
use cover_split::{Cover, CoverFail, parse};
use hs_io::Name;
use kiss_file::KissFile;
use machine_table::Machine;
use std::alloc::{AllocError, Global};

/// The cover that the text gives.
pub(crate) fn read(
    alloc: Global,
    file: &KissFile,
    machine: &Machine,
    text: &[u8],
) -> Result<Cover, Refusal>
    requires { machine.now ≡ file.now }
    ensures { MatchResult result (λ cover. IsRead (length file.now.states) text.now cover.blocks)
        (IsStop (BadCoverRow file.now text.now)) }
{
    match parse(alloc, text, machine.states()) {
        Ok(cover) => Ok(cover),
        Err(fail) => Err(refusal_of(alloc, file, fail)?),
    }
}

/// The refusal that says why a text is not a cover.
fn refusal_of(alloc: Global, file: &KissFile, fail: CoverFail) -> Result<Refusal, AllocError>
    requires { (state : ℕ) → fail ≡ fails.Missing state → state < length file.now.states }
    ensures { IfOk result (IsFailRefusal file.now fail) }
{
    let flaw = match fail {
        CoverFail::BadText { block, place } => CoverFlaw::Place { block, place },
        CoverFail::Contained { a, b } => CoverFlaw::Within { block: a, other: b },
        CoverFail::Missing { state } => CoverFlaw::Lacks {
            state: Name::new(alloc, file.states.name(usize::from(state)))?,
        },
        CoverFail::TooMany { found } => CoverFlaw::Places { found },
        CoverFail::Trivial => CoverFlaw::Trivial,
        CoverFail::NoMemory => return Ok(Refusal::NoMemory),
    };
    Ok(Refusal::BadCover(flaw))
}
