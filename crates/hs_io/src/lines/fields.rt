ghost use Rattle.std.specs.Prelude.{◌≡◌, ℕ, List, [], ◌∷◌, ◌++◌, OnOk, OnErr};

use crate::Name;
use smallvec::SmallVec;
use std::alloc::{AllocError, Global};
use std::marker::Model;

/// The fields of a line in order. A list of up to four fields takes no memory besides that of the names.
#[derive(Drop)]
pub struct Fields {
    names: SmallVec<Name, 4>,
}

impl Model for Fields {
    ghost Value = { List (List ℕ) };

    ghost view = { λ fields. fields.names.items };
}

impl Fields {
    /// The empty list. It takes no memory.
    pub fn new(alloc: Global) -> Fields
        ensures { result ≡ [] }
    {
        Fields {
            names: SmallVec::new(alloc),
        }
    }

    /// Adds a field at the end. If memory runs out, the list stays as it was.
    pub fn push(&mut self, field: Name) -> Result<(), AllocError>
        ensures ok { OnOk result (self.new ≡ self.old ++ field ∷ []) }
        ensures err { OnErr result (self.new ≡ self.old) }
    {
        self.names.push(field)?;
        Ok(())
    }

    /// Lends the fields in order.
    pub fn as_slice(&self) -> &[Name]
        ensures { result.now ≡ self.now }
    {
        self.names.as_slice()
    }
}
