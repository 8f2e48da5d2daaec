//! Names of states made of the letter s and a number: s0, s1, s2 and so on.

ghost use Rattle.std.specs.Prelude.{◌≡◌, All, IfOk};
ghost use Rattle.kiss_file.specs.Names.{AreDistinct, IsPlainName};
ghost use Rattle.kiss_file.specs.NumberedNames.{numbered_name, numbered_names};

use crate::StateNames;
use itoa::Buffer;
use std::alloc::{AllocError, Global};

/// The names with the numbers below `count`, in the order of their numbers.
pub fn numbered_names(alloc: Global, count: u16) -> Result<StateNames, AllocError>
    ensures names { IfOk result (λ names. names ≡ numbered_names count) }
    ensures plain { IfOk result (All IsPlainName) }
    ensures distinct { IfOk result AreDistinct }
{
    let mut names = StateNames::new(alloc);
    for number in 0..count {
        names.add(name(alloc, number)?.as_slice())?;
    }
    Ok(names)
}

/// The name with a number.
fn name(alloc: Global, number: u16) -> Result<Vec<u8>, AllocError>
    ensures { IfOk result (λ name. name.items ≡ numbered_name number) }
{
    let mut name = Vec::from_slice(alloc, b"s")?;
    name.extend_from_slice(Buffer::new().format(number).as_bytes())?;
    Ok(name)
}
