//! Networks read, put in order and run.

ghost use Rattle.std.specs.Prelude.{◌<◌, ◌^◌, length};
ghost use Rattle.net_core.specs.Order.{IsOrderOf};
ghost use Rattle.net_core.specs.SoundNetwork.{Sound};

use crate::forms::{form_of, text_of};
use crate::plain_run::count_ones;
use anyhow::{Error, bail};
use bench_cases::Case;
use blif_in::read_ordered;
use net_core::{Network, Order};
use net_sim::run;
use std::alloc::Global;

/// The number of gates of the network of a text, and the number of ones that the work gives.
pub(crate) fn answer(alloc: Global, text: &[u8], case: Case<'_>) -> Result<(usize, usize), Error>
    requires { length text.now < 2 ^ 32 }
{
    match read_ordered(alloc, text) {
        Ok(read) => counts(alloc, &read.net, &read.order, case),
        Err(_) => bail!("the text is no network"),
    }
}

/// The number of gates of a network, and the number of ones that the work gives.
fn counts(
    alloc: Global,
    net: &Network,
    order: &Order,
    case: Case<'_>,
) -> Result<(usize, usize), Error>
    requires sound { Sound net.now }
    requires order { IsOrderOf net.now order.now }
{
    let symbols = symbols_of(alloc, case)?;
    let ones = ones(alloc, net, order, case.work, symbols.as_slice())?;
    Ok((order.gates.len(), ones))
}

/// The number of ones that the work gives.
fn ones(
    alloc: Global,
    net: &Network,
    order: &Order,
    work: &str,
    symbols: &[u8],
) -> Result<usize, Error>
    requires sound { Sound net.now }
    requires order { IsOrderOf net.now order.now }
{
    if symbols.len() >= 1 << 32 {
        bail!("too many symbols");
    }
    match work {
        "order" => Ok(0),
        "plain" => Ok(count_ones(alloc, order, symbols)?),
        "run" => ones_of_run(alloc, net, order, symbols),
        _ => bail!("no such work on networks"),
    }
}

/// As many symbols as the case has times, for networks of its kind.
fn symbols_of(alloc: Global, case: Case<'_>) -> Result<Vec<u8>, Error> {
    let Some(form) = form_of("symbols", case.kind) else {
        bail!("no symbols for this kind");
    };
    Ok(text_of(alloc, form, case.times)?)
}

/// The number of ones in the answers of a run.
fn ones_of_run(alloc: Global, net: &Network, order: &Order, symbols: &[u8]) -> Result<usize, Error>
    requires sound { Sound net.now }
    requires order { IsOrderOf net.now order.now }
    requires short { length symbols.now < 2 ^ 32 }
{
    match run(alloc, net, order, None, symbols) {
        Ok(text) => Ok(ones_in(&text)),
        Err(_) => bail!("no run"),
    }
}

/// The number of bytes that are the digit 1.
fn ones_in(text: &[u8]) -> usize {
    let mut ones = 0usize;
    for byte in text {
        ones = ones.wrapping_add(usize::from(*byte == b'1'));
    }
    ones
}
