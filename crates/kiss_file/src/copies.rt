//! Copies of files.
ghost use Rattle.std.specs.Prelude.{◌≡◌, ◌<◌, IfOk, IsOk, Option, length};

use crate::{KissFile, Rows, StateNames};
use hs_io::{Names, copied_names};
use std::alloc::{AllocError, Global};

/// A copy of the file.
pub fn copied_file(alloc: Global, file: &KissFile) -> Result<KissFile, AllocError>
    requires { length file.now.states < 65536 }
    ensures { IfOk result (λ copy. copy ≡ file.now) }
{
    let rows = file.rows.as_slice().to_vec(alloc)?;
    let input_names = copied_given(alloc, &file.input_names)?;
    let output_names = copied_given(alloc, &file.output_names)?;
    Ok(KissFile {
        inputs: file.inputs,
        outputs: file.outputs,
        reset: file.reset,
        states: copied_states(alloc, &file.states)?,
        rows: Rows::from(rows),
        input_names,
        output_names,
    })
}

/// A copy of the names of states.
pub fn copied_states(alloc: Global, states: &StateNames) -> Result<StateNames, AllocError>
    requires { length states.now < 65536 }
    ensures { IfOk result (λ copy. copy ≡ states.now) }
{
    let mut copy = StateNames::new(alloc);
    for i in 0..states.count() {
        copy.add(states.name(i))?;
    }
    Ok(copy)
}

/// A copy of the names of inputs or outputs, if there are names.
pub fn copied_given(alloc: Global, given: &Option<Names>) -> Result<Option<Names>, AllocError>
    ensures { IfOk result (λ copy. copy ≡ given.now) }
{
    match given {
        None => Ok(None),
        Some(names) => Ok(Some(copied_names(alloc, names.as_slice())?)),
    }
}
