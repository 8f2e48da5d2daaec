ghost use Rattle.std.specs.Prelude.{
  ◌≡◌,
  ◌≢◌,
  ℕ,
  ◌+◌,
  ◌-◌,
  ◌^◌,
  ◌<◌,
  ◌≤◌,
  ◌↔◌,
  List,
  [],
  ◌++◌,
  Option,
  Some,
  None,
  IsErr,
  is_err,
  IfOk,
  IfSome,
  IfNone,
  OnOk,
  OnErr,
  take,
  length,
  min,
  if◌then◌else◌,
};
ghost use Rattle.hs_io.specs.Counts.{next_count, Rose};
ghost use Rattle.hs_io.specs.Pieces.{Appends, AppendsFront};
ghost use Rattle.hs_io.specs.SinkState.{SinkState, FailsNext, IsKept, fitting};

use crate::{Sink, SinkFail};
use std::alloc::{AllocError, Global};
use std::marker::Model;

/// A sink in memory with room for a number of bytes.
#[derive(Drop)]
pub struct MemSink {
    given: Vec<u8>,
    room: usize,
    puts: u64,
    failing: Option<(u64, usize)>,
    faults: u64,
}

impl Model for MemSink {
    ghost use Rattle.std.specs.Prelude.{◌≤◌, vec_len, vec_capacity};
    ghost use Rattle.hs_io.specs.SinkState.{SinkState};

    ghost Value = { SinkState };

    ghost view = { λ s.
        record { given = s.given.items; room = s.room; puts = s.puts; failing = s.failing; faults = s.faults } };

    ghost invariant = { λ s. (vec_len s.given ≤ s.room) × (s.room ≤ vec_capacity s.given) };
}

impl MemSink {
    /// A sink with room for this number of bytes, all of whose memory is taken here.
    pub fn new(alloc: Global, room: usize) -> Result<MemSink, AllocError>
        ensures { IfOk result
            (λ sink. sink ≡ record { given = []; room = room; puts = 0; failing = None; faults = 0 }) }
    {
        Ok(MemSink {
            given: Vec::with_capacity(alloc, room)?,
            room,
            puts: 0,
            failing: None,
            faults: 0,
        })
    }

    /// Keeps one failing put, instead of an earlier one. The put of this number, counted from 1, appends the
    /// first `take` bytes of its piece, or as many of them as fit, and fails.
    pub fn fail_at(&mut self, call: u64, take: usize)
        requires first { 1 ≤ call }
        requires before_last { call < 2 ^ 64 - 1 }
        ensures { self.new ≡ record self.old { failing = Some (call, take) } }
    {
        self.failing = Some((call, take));
    }

    /// Lends what was given.
    pub fn bytes(&self) -> &[u8]
        ensures { result.now ≡ self.now.given }
    {
        self.given.as_slice()
    }
}

impl Sink for MemSink {
    ghost given = { λ s. Some s.given };

    ghost faults = { λ s. s.faults };

    fn put(&mut self, piece: &[u8]) -> Result<(), SinkFail>
        ensures whole { OnOk result (Appends (Some self.old.given) piece.now (Some self.new.given)) }
        ensures front { OnErr result (AppendsFront (Some self.old.given) piece.now (Some self.new.given)) }
        ensures never_falls { self.old.faults ≤ self.new.faults }

        // It fails exactly at the kept put and at a piece that does not fit, and counts only these.
        ensures fails { IsErr result ↔ FailsNext self.old piece.now }
        ensures counted { self.new.faults ≡ (if is_err result then next_count self.old.faults else self.old.faults) }

        // It takes what fits; the kept put takes at most the number of bytes that was kept for it.
        ensures kept { (n : ℕ) → self.old.failing ≡ Some (next_count self.old.puts, n)
            → self.new.given ≡ self.old.given ++ take (min n (fitting self.old piece.now)) piece.now }
        ensures other { ¬ IsKept self.old
            → self.new.given ≡ self.old.given ++ take (fitting self.old piece.now) piece.now }
        ensures puts { self.new.puts ≡ next_count self.old.puts }
        ensures room { self.new.room ≡ self.old.room }
        ensures failing { self.new.failing ≡ self.old.failing }
    {
        self.puts = self.puts.saturating_add(1);
        let fits = piece.len().min(self.room - self.given.len());
        let kept = kept_bytes(self.failing, self.puts);
        let taken = fits.min(kept.unwrap_or(fits));
        self.given.extend_from_slice(&piece[..taken]).unwrap();
        if kept.is_none() && taken == piece.len() {
            return Ok(());
        }
        self.faults = self.faults.saturating_add(1);
        Err(SinkFail::Failed)
    }
}

/// The number of bytes that the kept put takes, if this call is that put.
fn kept_bytes(failing: Option<(u64, usize)>, call: u64) -> Option<usize>
    ensures some { IfSome result (λ n. failing ≡ Some (call, n)) }
    ensures none { IfNone result ((n : ℕ) → failing ≢ Some (call, n)) }
{
    match failing {
        Some((kept, bytes)) if kept == call => Some(bytes),
        _ => None,
    }
}
