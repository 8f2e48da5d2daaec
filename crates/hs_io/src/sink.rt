ghost use Rattle.std.specs.Prelude.{ℕ, ◌≤◌, List, Option, OnOk, OnErr};
ghost use Rattle.hs_io.specs.Counts.{Rose};
ghost use Rattle.hs_io.specs.Pieces.{Appends, AppendsFront};

use thiserror::Error;

/// Why a put did not take its whole piece.
#[derive(Clone, Copy, Debug, PartialEq, Eq, Error)]
pub enum SinkFail {
    /// A fault of the sink, which took a front of the piece.
    #[error("cannot write")]
    Failed,
}

/// Takes bytes.
pub trait Sink {
    /// The bytes taken so far, where they are known.
    ghost given: { Self → Option (List ℕ) };

    /// The number of faults so far.
    ghost faults: { Self → ℕ };

    /// Appends the piece, or a front of it if there is a fault. It takes no memory.
    fn put(&mut self, piece: &[u8]) -> Result<(), SinkFail>
        ensures whole { OnOk result (Appends (given self.old) piece.now (given self.new)) }
        ensures front { OnErr result (AppendsFront (given self.old) piece.now (given self.new)) }
        ensures failed { OnErr result (Rose (faults self.old) (faults self.new)) }
        ensures never_falls { faults self.old ≤ faults self.new };
}
