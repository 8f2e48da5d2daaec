ghost use Rattle.std.specs.Prelude.{◌≡◌, ℕ, ◌≤◌, None, OnErr, OnOk};
ghost use Rattle.hs_io.specs.Counts.{next_count};

use crate::{Sink, SinkFail};
use std::marker::Model;

/// Standard output or standard error. Contracts do not know the bytes that it took. They see only the count of
/// faults, which rises at each error of the system.
#[derive(Drop)]
pub struct StdSink<P: Print> {
    stream: P,
    faults: u64,
}

impl<P: Print> Model for StdSink<P> {
    ghost Value = { ℕ };

    ghost view = { λ s. s.faults };
}

impl<P: Print> StdSink<P> {
    /// A sink on a stream, with no fault so far: on standard output for `rt.stdout()`, on standard error
    /// for `rt.stderr()`.
    pub fn new(stream: P) -> StdSink<P>
        ensures { result ≡ 0 }
    {
        StdSink { stream, faults: 0 }
    }
}

impl<P: Print> Sink for StdSink<P> {
    ghost given = { λ _. None };

    ghost faults = { λ count. count };

    fn put(&mut self, piece: &[u8]) -> Result<(), SinkFail>
        ensures never_falls { self.old ≤ self.new }

        // The count rises at each failure, and at nothing else.
        ensures counted { OnErr result (self.new ≡ next_count self.old) }
        ensures not_counted { OnOk result (self.new ≡ self.old) }
    {
        match self.stream.write_all(piece) {
            Ok(()) => Ok(()),
            Err(_) => {
                self.faults = self.faults.saturating_add(1);
                Err(SinkFail::Failed)
            }
        }
    }
}
