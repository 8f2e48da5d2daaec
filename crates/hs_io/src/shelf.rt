ghost use Rattle.std.specs.Prelude.{
  ◌≡◌,
  ℕ,
  ◌+◌,
  ◌^◌,
  ◌<◌,
  ◌≤◌,
  ◌↔◌,
  List,
  [],
  Option,
  IsErr,
  IsErrOf,
  IfSome,
  OnOk,
  take,
  length,
  vec_len,
};
ghost use Rattle.hs_io.specs.Counts.{Rose};
ghost use Rattle.hs_io.specs.declared.shelf.LoadFail.TheVariants.{NoMemory};

use std::alloc::AllocError;
use thiserror::Error;

/// Why a load gave no text.
#[derive(Clone, Copy, Debug, PartialEq, Eq, Error)]
pub enum LoadFail {
    /// The name could not be opened or read.
    #[error("cannot read")]
    Failed,
    /// The text is longer than the limit.
    #[error("too long")]
    TooLong,
    /// Memory ran out.
    #[error("no memory")]
    NoMemory,
}

impl From<AllocError> for LoadFail {
    ghost from_gives = { λ _ fail. fail ≡ NoMemory };

    fn from(_wanting: AllocError) -> LoadFail {
        LoadFail::NoMemory
    }
}

/// Bytes under names.
pub trait Shelf {
    /// The bytes of a name, where they are known.
    ghost holds: { Self → List ℕ → Option (List ℕ) };

    /// Whether a name may be loaded.
    ghost grants: { Self → List ℕ → Type 0 };

    /// The number of faults so far.
    ghost faults: { Self → ℕ };

    /// Puts the bytes of a name into `into`, at most `limit` of them. After `TooLong`, `into` has the first
    /// `limit + 1` bytes; after `Failed` and `NoMemory` it may hold anything.
    fn load(&mut self, name: &[u8], limit: usize, into: &mut Vec<u8>) -> Result<(), LoadFail>
        requires granted { grants self.old name.now }
        requires empty { into.old.items ≡ [] }
        requires limited { limit < 2 ^ 32 }

        ensures within { OnOk result (vec_len into.new ≤ limit) }
        ensures whole { OnOk result (IfSome (holds self.old name.now) (λ bytes. into.new.items ≡ bytes)) }

        // A failure comes only with a fault. Where the bytes are known, they are longer than the limit at
        // `TooLong`, and longer bytes give no text.
        ensures failed { IsErrOf result LoadFail.Failed → Rose (faults self.old) (faults self.new) }
        ensures one_more { IsErrOf result LoadFail.TooLong → vec_len into.new ≡ limit + 1 }
        ensures front { IsErrOf result LoadFail.TooLong
            → IfSome (holds self.old name.now) (λ bytes. into.new.items ≡ take (limit + 1) bytes) }
        ensures longer { IsErrOf result LoadFail.TooLong
            → IfSome (holds self.old name.now) (λ bytes. limit < length bytes) }
        ensures too_long { IfSome (holds self.old name.now) (λ bytes. limit < length bytes → IsErr result) }

        ensures holds_the_same { (other : List ℕ) → holds self.new other ≡ holds self.old other }
        ensures grants_the_same { (other : List ℕ) → grants self.new other ↔ grants self.old other }
        ensures never_falls { faults self.old ≤ faults self.new };
}
