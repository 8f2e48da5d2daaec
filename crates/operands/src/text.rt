//! Loading the text of an operand.

ghost use Rattle.std.specs.Prelude.{◌≡◌, ◌≤◌, ◌↔◌, ℕ, List};
ghost use Rattle.hs_io.specs.Counts.{Rose};
ghost use Rattle.operands.specs.Inner.LoadRefusal.{IsLoadRefusal};
ghost use Rattle.operands.specs.Load.{IsLoaded};

use answers::{Bytes, Refusal};
use hs_io::{LoadFail, Name, Shelf};
use std::alloc::Global;

/// The greatest number of bytes that a text may have.
const TEXT_LIMIT: usize = 4_194_304;

/// Loads the text of an operand.
pub fn load_operand<F: Shelf>(alloc: Global, name: &[u8], shelf: &mut F) -> Result<Bytes, Refusal>
    requires { F.grants shelf.old name.now }
    ensures loaded { IsLoaded
        (F.holds shelf.old name.now) (Rose (F.faults shelf.old) (F.faults shelf.new)) name.now result }
    ensures holds_the_same { (other : List ℕ) → F.holds shelf.new other ≡ F.holds shelf.old other }
    ensures grants_the_same { (other : List ℕ) → F.grants shelf.new other ↔ F.grants shelf.old other }
    ensures never_falls { F.faults shelf.old ≤ F.faults shelf.new }
{
    let mut bytes = Vec::new(alloc);
    match shelf.load(name, TEXT_LIMIT, &mut bytes) {
        Ok(()) => Ok(Bytes::from(bytes)),
        Err(fail) => Err(refusal_of(alloc, name, fail)),
    }
}

/// The refusal of an operand that was not loaded.
fn refusal_of(alloc: Global, name: &[u8], fail: LoadFail) -> Refusal
    ensures { IsLoadRefusal name.now fail result }
{
    let Ok(name) = Name::new(alloc, name) else {
        return Refusal::NoMemory;
    };
    match fail {
        LoadFail::Failed => Refusal::Unreadable { name },
        LoadFail::TooLong => Refusal::TooLong { name },
        LoadFail::NoMemory => Refusal::NoMemory,
    }
}
