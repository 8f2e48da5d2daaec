//! The rows of all states, with what they leave open filled in.

ghost use Rattle.std.specs.Prelude.{◌+◌, ◌<◌, IfOk, OnOk, length};
ghost use Rattle.realise.specs.Inner.FilledRows.{AreFilled, AreFilledBelow};

use dependence::filled_rows;
use kiss_file::KissRow;
use machine_table::Machine;
use std::alloc::{AllocError, Global};

/// The filled rows of each state.
pub fn state_rows(alloc: Global, m: &Machine) -> Result<Vec<KissRow>, AllocError>
    ensures { IfOk result (λ filled. AreFilled m.now filled.items) }
{
    let mut filled = Vec::new(alloc);
    for state in 0..m.states() {
        add_rows(alloc, m, state, &mut filled)?;
    }
    Ok(filled)
}

/// Adds the filled rows of a state.
fn add_rows(
    alloc: Global,
    m: &Machine,
    state: usize,
    filled: &mut Vec<KissRow>,
) -> Result<(), AllocError>
    requires state { state < length m.now.states }
    requires before { AreFilledBelow m.now state filled.old.items }
    ensures { OnOk result (AreFilledBelow m.now (state + 1) filled.new.items) }
{
    let own = filled_rows(alloc, m, state)?;
    for row in &own {
        filled.push(*row)?;
    }
    Ok(())
}
