//! The rows of a gate, from what is asked of it.

ghost use Rattle.std.specs.Prelude.{◌≡◌, ◌+◌, ◌<◌, ◌≤◌, All, IfOk, length, true, false};
ghost use Rattle.std.specs.Cmp.Lexicographic.{slice_cmp};
ghost use Rattle.std.specs.List.Sorted.{IsSorted};
ghost use Rattle.std.specs.Ordering.{nat_cmp};
ghost use Rattle.gate_rows.specs.Columns.{column_count};
ghost use Rattle.gate_rows.specs.GateCovers.{IsGoodCover};
ghost use Rattle.gate_rows.specs.Demands.{NeverContradict, CanBeRead, IsAsked};
ghost use Rattle.gate_rows.specs.Inner.Terms.{HoldWhatIsRead};

use crate::columns::term_of;
use crate::texts::rows;
use cover_logic::Term;
use cubes::Cube;
use hs_io::Names;
use std::alloc::{AllocError, Global};

/// What is asked of a gate at the symbols of a cube and a word: the bit that it gives there.
#[derive(Clone, Copy)]
pub struct Demand {
    pub cube: Cube,
    pub word: u64,
    pub given: bool,
}

/// The rows of a gate that reads these inputs of a symbol, and then the bits of a word at these places. A row
/// has a character for each of them.
pub fn demanded_rows(
    alloc: Global,
    demands: &[Demand],
    inputs: &[u8],
    places: &[u8],
) -> Result<Names, AllocError>
    requires read { CanBeRead inputs.now places.now demands.now }
    requires apart { NeverContradict inputs.now places.now demands.now }
    ensures cover { IfOk result
        (IsGoodCover (IsAsked inputs.now places.now true demands.now)
        (IsAsked inputs.now places.now false demands.now)) }
    ensures widths { IfOk result (All (λ row. length row ≡ column_count inputs.now places.now)) }
    ensures in_order { IfOk result (IsSorted (slice_cmp nat_cmp)) }
{
    let on = terms(alloc, demands, inputs, places, true)?;
    let off = terms(alloc, demands, inputs, places, false)?;
    let width = inputs.len() + places.len();
    rows(alloc, &on, &off, width as u8)
}

/// The terms that hold what is read at the demands for this bit.
fn terms(
    alloc: Global,
    demands: &[Demand],
    inputs: &[u8],
    places: &[u8],
    given: bool,
) -> Result<Vec<Term>, AllocError>
    requires { CanBeRead inputs.now places.now demands.now }
    ensures { IfOk result (λ terms. HoldWhatIsRead inputs.now places.now given demands.now terms.items) }
{
    let mut terms = Vec::new(alloc);
    for demand in demands {
        if demand.given == given {
            terms.push(term_of(&demand.cube, inputs, demand.word, places))?;
        }
    }
    Ok(terms)
}
