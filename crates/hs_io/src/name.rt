ghost use Rattle.std.specs.Prelude.{◌≡◌, ℕ, List, [], IfOk};

use hs_list::Items;
use std::alloc::{AllocError, Global};
use std::default::MadeWith;
use std::marker::Model;

/// A name of a state, a signal or a file: a list of bytes that the name owns.
#[derive(Debug, Drop)]
pub struct Name {
    text: Vec<u8>,
}

impl Model for Name {
    ghost Value = { List ℕ };

    ghost view = { λ name. name.text.items };
}

impl Name {
    /// A copy of the bytes.
    pub fn new(alloc: Global, bytes: &[u8]) -> Result<Name, AllocError>
        ensures { IfOk result (λ name. name ≡ bytes.now) }
    {
        let text = Vec::from_slice(alloc, bytes)?;
        Ok(Name { text })
    }

    /// Lends the bytes.
    pub fn bytes(&self) -> &[u8]
        ensures { result.now ≡ self.now }
    {
        self.text.as_slice()
    }
}

// An unused place of a short list holds the empty name.
impl MadeWith<Global> for Name {
    ghost is_made_with = { λ name. name ≡ [] };

    fn made_with(alloc: Global) -> Name {
        Name {
            text: Vec::new(alloc),
        }
    }
}

/// Names in order.
pub type Names = Items<Name>;

/// A copy of the names, in the same order.
pub fn copied_names(alloc: Global, names: &[Name]) -> Result<Names, AllocError>
    ensures { IfOk result (λ copy. copy ≡ names.now) }
{
    let mut copy = Names::new(alloc);
    for name in names {
        copy.push(Name::new(alloc, name.bytes())?)?;
    }
    Ok(copy)
}
