ghost use Rattle.std.specs.Prelude.{
  ℕ,
  ◌≡◌,
  ◌<◌,
  List,
  [],
  ◌∷◌,
  ◌++◌,
  Contains,
  IfNone,
  IfOk,
  IfSome,
  OnErr,
  OnOk,
  Some,
  length,
  slice_get,
};
ghost use Rattle.kiss_file.specs.Names.{AreDistinct};

use indexmap::IndexSet;
use std::alloc::{AllocError, Global};
use std::marker::Model;

/// The names of states, each once, numbered from 0 in the order in which they came.
#[derive(Drop)]
pub struct StateNames {
    alloc: Global,
    names: IndexSet<Vec<u8>>,
}

impl Model for StateNames {
    ghost use Rattle.std.specs.Prelude.{ℕ, List, map};
    ghost use Rattle.kiss_file.specs.Names.{AreDistinct};

    ghost Value = { List (List ℕ) };

    ghost view = { λ s. map (λ name. name.items) s.names.keys };

    ghost invariant = { λ s. AreDistinct (map (λ name. name.items) s.names.keys) };
}

impl StateNames {
    /// No names. It keeps the allocator, and takes no memory.
    pub fn new(alloc: Global) -> StateNames
        ensures { result ≡ [] }
    {
        StateNames {
            alloc,
            names: IndexSet::new(alloc),
        }
    }

    /// Adds a name, and returns its number. A name that is there keeps its number, and a new one goes last.
    pub fn add(&mut self, name: &[u8]) -> Result<u16, AllocError>
        requires { length self.old < 65535 }
        ensures number { IfOk result (λ number. slice_get self.new number ≡ Some name.now) }
        ensures known { Contains self.old name.now → OnOk result (self.new ≡ self.old) }
        ensures last { (¬ Contains self.old name.now) → OnOk result (self.new ≡ self.old ++ name.now ∷ []) }
        ensures distinct { AreDistinct self.new }
        ensures err { OnErr result (self.new ≡ self.old) }
    {
        if let Some(number) = self.number(name) {
            return Ok(number);
        }
        let number = self.names.len() as u16;
        let name = Vec::from_slice(self.alloc, name)?;
        self.names.insert_full(name)?;
        Ok(number)
    }

    /// The number of the name, if it is there.
    pub fn number(&self, name: &[u8]) -> Option<u16>
        requires { length self.now < 65536 }
        ensures some { IfSome result (λ number. slice_get self.now number ≡ Some name.now) }
        ensures none { IfNone result (¬ Contains self.now name.now) }
    {
        match self.names.get_index_of(name) {
            Some(number) => Some(number as u16),
            None => None,
        }
    }

    /// How many names there are.
    pub fn count(&self) -> usize
        ensures count { result ≡ length self.now }
        ensures distinct { AreDistinct self.now }
    {
        self.names.len()
    }

    /// Lends the name of that number.
    pub fn name(&self, i: usize) -> &[u8]
        requires { i < length self.now }
        ensures { slice_get self.now i ≡ Some result.now }
    {
        match self.names.get_index(i) {
            Some(name) => name.as_slice(),
            None => unreachable!(),
        }
    }
}
