//! The latch values before the first symbol.

ghost use Rattle.std.specs.Prelude.{
  ◌≡◌,
  ◌≢◌,
  ℕ,
  ◌<◌,
  Bool,
  List,
  None,
  Some,
  IfErr,
  IfOk,
  IsSome,
  length,
  map,
  take,
  slice_get,
};
ghost use Rattle.std.specs.Option.{option_copied};
ghost use Rattle.net_core.specs.Step.{AreStarts, bit_of_start};
ghost use Rattle.net_sim.specs.BitTexts.{IsBitText};
ghost use Rattle.net_sim.specs.Starts.{IsFirstUnknown, IsStart};
ghost use Rattle.net_sim.specs.Inner.Failures.{TellsStart, TellsText, TellsUnknown};

use crate::SimFail;
use crate::bit_texts::read_bits;
use hs_io::Name;
use hs_list::Items;
use net_core::{Latch, Network, Start};
use std::alloc::Global;

/// The given start, or else the starts of the latches.
pub(crate) fn start_of(
    alloc: Global,
    net: &Network,
    start: Option<&[u8]>,
) -> Result<Vec<bool>, SimFail>
    ensures ok { IfOk result (λ state. IsStart net.now (option_copied start.entry) state.items) }
    ensures err { IfErr result (TellsStart net.now (option_copied start.entry)) }
{
    match start {
        Some(text) => given_start(alloc, net.latches.as_slice().len(), text),
        None => known_start(alloc, net.latches.as_slice()),
    }
}

/// The bits of a text, if it has one for each latch.
fn given_start(alloc: Global, latches: usize, text: &[u8]) -> Result<Vec<bool>, SimFail>
    ensures ok { IfOk result (λ state. IsBitText latches text.now state.items) }
    ensures err { IfErr result (TellsText latches text.now) }
{
    let mut state = vec![in alloc; false; latches]?;
    if read_bits(text, &mut state) {
        Ok(state)
    } else {
        Err(SimFail::BadStart)
    }
}

/// The starts of the latches, if each is known.
fn known_start(alloc: Global, latches: &[Latch]) -> Result<Vec<bool>, SimFail>
    ensures ok { IfOk result (λ state. AreStarts latches.now state.items) }
    ensures err { IfErr result (TellsUnknown latches.now) }
{
    let mut state = Items::new(alloc);
    for latch in latches {
        match known(latch.start) {
            Some(bit) => state.push(bit)?,
            None => {
                return Err(SimFail::UnknownStart {
                    latch: Name::new(alloc, latch.output.bytes())?,
                });
            }
        }
    }
    Ok(state.into_vec())
}

/// The bit of a start, if it is known.
fn known(start: Start) -> Option<bool>
    ensures { result ≡ bit_of_start start }
{
    match start {
        Start::Zero => Some(false),
        Start::One => Some(true),
        Start::Free | Start::Unknown => None,
    }
}
