//! Short lists of numbers of inputs and bits.

ghost use Rattle.std.specs.Prelude.{◌≡◌, ℕ, List, [], ◌∷◌, ◌++◌, OnOk, OnErr};

use smallvec::SmallVec;
use std::alloc::{AllocError, Global};
use std::marker::Model;

/// Numbers of inputs or of state bits in order. A list of up to eight takes no memory.
#[derive(Drop)]
pub struct Numbers {
    items: SmallVec<u8, 8>,
}

impl Model for Numbers {
    ghost Value = { List ℕ };

    ghost view = { λ numbers. numbers.items.items };
}

impl Numbers {
    /// The empty list. It takes no memory.
    pub fn new(alloc: Global) -> Numbers
        ensures { result ≡ [] }
    {
        Numbers {
            items: SmallVec::new(alloc),
        }
    }

    /// Adds a number at the end. If memory runs out, the list stays as it was.
    pub fn push(&mut self, number: u8) -> Result<(), AllocError>
        ensures ok { OnOk result (self.new ≡ self.old ++ number ∷ []) }
        ensures err { OnErr result (self.new ≡ self.old) }
    {
        self.items.push(number)?;
        Ok(())
    }

    /// Lends the numbers in order.
    pub fn as_slice(&self) -> &[u8]
        ensures { result.now ≡ self.now }
    {
        self.items.as_slice()
    }
}
