//! The rows of a state, in the order of the file.

ghost use Rattle.std.specs.Prelude.{◌≡◌, ◌<◌, IfOk, length};
ghost use Rattle.dependence.specs.FilledRows as filled;
ghost use Rattle.dependence.specs.Inner.OwnRows.{AreOwnNumbers};

use kiss_file::KissRow;
use machine_table::Machine;
use std::alloc::{AllocError, Global};

/// The rows of the state.
pub(crate) fn own_rows(alloc: Global, m: &Machine, s: usize) -> Result<Vec<KissRow>, AllocError>
    requires { s < length m.now.states }
    ensures { IfOk result (λ rows. rows.items ≡ filled.own_rows m.now s) }
{
    let numbers = own_numbers(alloc, m, s)?;
    let mut rows = Vec::with_capacity(alloc, numbers.len())?;
    for number in &numbers {
        rows.push(*m.row(*number))?;
    }
    Ok(rows)
}

/// The numbers of the rows of the state, ascending. The machine lists them in the order of their cubes.
fn own_numbers(alloc: Global, m: &Machine, s: usize) -> Result<Vec<usize>, AllocError>
    requires { s < length m.now.states }
    ensures { IfOk result (λ numbers. AreOwnNumbers m.now s numbers.items) }
{
    let mut numbers = m.numbers_of(s).to_vec(alloc)?;
    numbers.sort_unstable();
    numbers.dedup();
    Ok(numbers)
}
