//! Questions about two states.

ghost use Rattle.std.specs.Prelude.{◌≡◌, ◌<◌, IfOk, length};

use anyhow::{Error, bail};
use bench_cases::Case;
use machine_table::Machine;
use partition::Partition;
use std::alloc::{AllocError, Global};

/// The sum of the results of the work at as many pairs of states as the case has times, or at all if there are
/// fewer.
pub(crate) fn answer(alloc: Global, m: &Machine, case: Case<'_>) -> Result<usize, Error> {
    let q = by_last_bit(alloc, m.states())?;
    if q.len() != m.states() {
        bail!("the partition has another number of states");
    }
    Ok(asked(alloc, m, case, &q)?)
}

/// The partition of the given number of states by the last bit of their numbers.
fn by_last_bit(alloc: Global, states: usize) -> Result<Partition, Error> {
    let mut labels = Vec::new(alloc);
    for s in 0..states {
        labels.push((s % 2) as u16)?;
    }
    match Partition::from_labels(alloc, &labels) {
        Ok(q) => Ok(q),
        Err(_) => bail!("no labels of a partition"),
    }
}

/// The same sum, where the partition is given.
fn asked(alloc: Global, m: &Machine, case: Case<'_>, q: &Partition) -> Result<usize, AllocError>
    requires { length q.now ≡ length m.now.states }
{
    let mut sum = 0usize;
    let (mut s, mut t) = (0, 1);
    for _ in 0..case.times {
        if s >= m.states() || t >= m.states() {
            break;
        }
        sum = sum.wrapping_add(ask(alloc, m, case.work, s, t, q)?);
        s += 1;
        if s >= t {
            s = 0;
            t += 1;
        }
    }
    Ok(sum)
}

/// The result of the work at one pair of states.
fn ask(
    alloc: Global,
    m: &Machine,
    work: &str,
    s: usize,
    t: usize,
    q: &Partition,
) -> Result<usize, AllocError>
    requires s { s < length m.now.states }
    requires t { t < length m.now.states }
    requires states { length q.now ≡ length m.now.states }
{
    match work {
        "goes" => Ok(usize::from(m.pair_goes(s, t, q))),
        "images" => Ok(m.images(alloc, s, t)?.len()),
        _ => Ok(usize::from(goes_at_symbols(m, s, t, q))),
    }
}

/// Whether the next states are together at each symbol, where each symbol is asked about on its own.
fn goes_at_symbols(m: &Machine, s: usize, t: usize, q: &Partition) -> bool
    requires s { s < length m.now.states }
    requires t { t < length m.now.states }
    requires states { length q.now ≡ length m.now.states }
{
    let last = if m.inputs() < 32 {
        (1u32 << m.inputs()) - 1
    } else {
        u32::MAX
    };
    for x in 0..=last {
        if !q.same(m.next(s, x), m.next(t, x)) {
            return false;
        }
    }
    true
}
