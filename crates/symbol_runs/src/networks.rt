//! The answers of a network, and the judgement of its start.

ghost use Rattle.std.specs.Prelude.{◌<◌, ◌^◌, IfErr, IfOk, length};
ghost use Rattle.answers.specs.Outcome.{IsJudged};
ghost use Rattle.net_core.specs.Order.{IsOrderOf};
ghost use Rattle.net_core.specs.SoundNetwork.{Sound};
ghost use Rattle.net_sim.specs.Run.{IsRun, IsRunCause};
ghost use Rattle.symbol_runs.specs.Causes.{BadSymbolRow, NoStart};
ghost use Rattle.symbol_runs.specs.Inner.Runs.{NoRun};
ghost use Rattle.symbol_runs.specs.Starts.{HasStart};

use answers::Refusal;
use hs_io::Name;
use net_core::{Network, Order};
use net_sim::{SimFail, run};
use std::alloc::Global;

/// Judges the start of a network: the given text, or else the starts of its latches.
pub fn judge_start(
    alloc: Global,
    net: &Network,
    order: &Order,
    start: &Option<Name>,
) -> Result<(), Refusal>
    requires sound { Sound net.now }
    requires order { IsOrderOf net.now order.now }
    ensures { IsJudged (NoStart net.now start.now) (λ _. HasStart net.now start.now) result }
{
    ran(alloc, net, order, start, b"")?;
    Ok(())
}

/// The text of the answers of a network to the symbols of a file, from a start that was judged.
pub fn sim(
    alloc: Global,
    net: &Network,
    order: &Order,
    start: &Option<Name>,
    symbols: &[u8],
) -> Result<Vec<u8>, Refusal>
    requires sound { Sound net.now }
    requires order { IsOrderOf net.now order.now }
    requires start { HasStart net.now start.now }
    requires short { length symbols.now < 2 ^ 32 }
    ensures { IsJudged (BadSymbolRow (length net.now.inputs) symbols.now)
        (λ text. IsRun net.now start.now symbols.now text.items) result }
{
    ran(alloc, net, order, start, symbols)
}

/// The text of a run, or the refusal of its start or of a symbol.
fn ran(
    alloc: Global,
    net: &Network,
    order: &Order,
    start: &Option<Name>,
    symbols: &[u8],
) -> Result<Vec<u8>, Refusal>
    requires sound { Sound net.now }
    requires order { IsOrderOf net.now order.now }
    requires short { length symbols.now < 2 ^ 32 }
    ensures { IsJudged (NoRun net.now start.now symbols.now)
        (λ text. IsRun net.now start.now symbols.now text.items) result }
{
    match run_from(alloc, net, order, start, symbols) {
        Ok(text) => Ok(text),
        Err(SimFail::BadStart) => Err(Refusal::BadStart),
        Err(SimFail::UnknownStart { latch }) => Err(Refusal::UnknownStart { latch }),
        Err(SimFail::BadSymbol { line }) => Err(Refusal::BadSymbol { line }),
        Err(SimFail::NoMemory) => Err(Refusal::NoMemory),
    }
}

/// A run from the given start, or else from the network's own.
fn run_from(
    alloc: Global,
    net: &Network,
    order: &Order,
    start: &Option<Name>,
    symbols: &[u8],
) -> Result<Vec<u8>, SimFail>
    requires sound { Sound net.now }
    requires order { IsOrderOf net.now order.now }
    requires short { length symbols.now < 2 ^ 32 }
    ensures ran { IfOk result (λ text. IsRun net.now start.now symbols.now text.items) }
    ensures cause { IfErr result (IsRunCause net.now start.now symbols.now) }
{
    match start {
        Some(text) => run(alloc, net, order, Some(text.bytes()), symbols),
        None => run(alloc, net, order, None, symbols),
    }
}
