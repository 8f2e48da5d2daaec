//! Listings of partitions of a machine.

ghost use Rattle.std.specs.Prelude.{◌≡◌, ◌<◌, length};

use anyhow::{Error, bail};
use bench_cases::Case;
use hs_lattice::Listing;
use machine_table::Machine;
use partition::Partition;
use std::alloc::{AllocError, Global};

/// The number of values that are listed, which is 1,001 if there are more than 1,000; or the number of pairs of
/// states that go to equal states.
pub(crate) fn answer(alloc: Global, m: &Machine, case: Case<'_>) -> Result<usize, Error> {
    match case.work {
        "closed" => Ok(counted(&closed_lattice::all(alloc, m, 1000)?)),
        "pairs" => Ok(counted(&mm_lattice::all(alloc, m, 1000)?)),
        "consistent" => Ok(counted(&output_consistent::all(alloc, m, 1000)?)),
        "equal" => Ok(equal_pairs(alloc, m)?),
        _ => bail!("no such work"),
    }
}

/// The number of values of a listing.
fn counted<T>(listing: &Listing<T>) -> usize {
    match listing {
        Listing::Whole(all) => all.as_slice().len(),
        Listing::More(some) => some.as_slice().len(),
    }
}

/// The number of pairs of states that go to equal states at each symbol, added up over as many passes as there
/// are states.
fn equal_pairs(alloc: Global, m: &Machine) -> Result<usize, AllocError> {
    let zero = Partition::zero(alloc, m.states())?;
    let mut count = 0usize;
    for _ in 0..m.states() {
        for t in 0..m.states() {
            count = count.wrapping_add(equal_before(m, t, &zero));
        }
    }
    Ok(count)
}

/// The number of states before this one that go, at each symbol, to the state that it goes to.
fn equal_before(m: &Machine, t: usize, zero: &Partition) -> usize
    requires t { t < length m.now.states }
    requires zero { length zero.now ≡ length m.now.states }
{
    let mut count = 0usize;
    for s in 0..t {
        count = count.wrapping_add(usize::from(m.pair_goes(s, t, zero)));
    }
    count
}
