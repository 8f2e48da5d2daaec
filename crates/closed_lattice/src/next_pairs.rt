//! Pairs of states that two states lead to.
//!
//! The least closed partition of two states is above those of the pairs that they go to. Where these are known, it
//! is made by a join with each, without following a chain of pairs. So the partitions of the pairs ahead are made
//! first. The list of these pairs is advice: no result depends on it, and a useless pair only costs time and memory.
//! Where the partition of a pair ahead holds the two states together, it is also theirs, and none is made.

ghost use Rattle.std.specs.Prelude.{◌≡◌, ◌<◌, IfOk, IfSome, length};
ghost use Rattle.closed_lattice.specs.ClosedPartitions.{IsPrincipal};
ghost use Rattle.closed_lattice.specs.Inner.WaitingPairs.{AreStates};
ghost use Rattle.closed_lattice.specs.KnownPrincipals.{ArePrincipalsOf};
ghost use Rattle.machine_table.specs.Pieces.{IsImage};

use crate::known_principals::{Principals, number_of};
use machine_table::Machine;
use partition::Partition;
use std::alloc::{AllocError, Global};

/// The most pairs that are followed.
const MOST_AHEAD: usize = 256;

/// The most columns that are asked for a pair ahead.
const MOST_COLUMNS: usize = 8;

/// The most columns that are asked for a known partition.
const MOST_KNOWN: usize = 32;

/// The number of a state. There are at most 256.
pub(crate) fn state_number(m: &Machine, s: usize) -> u16
    requires { s < length m.now.states }
    ensures { result ≡ s }
{
    s.min(m.states() - 1) as u16
}

/// The states that the two go to at a symbol of the k-th column of s, if there are so many columns.
fn pair_at(m: &Machine, s: u16, t: u16, k: usize) -> Option<(u16, u16)>
    requires s { s < length m.now.states }
    requires t { t < length m.now.states }
    ensures image { IfSome result (λ pair. IsImage m.now s t pair.0 pair.1) }
    ensures states { IfSome result (λ pair. (pair.0 < length m.now.states) × (pair.1 < length m.now.states)) }
{
    let x = m.symbol_of_column(usize::from(s), k)?;
    let u = m.next(usize::from(s), x);
    let v = m.next(usize::from(t), x);
    Some((state_number(m, u), state_number(m, v)))
}

/// Two states that the two go to at a symbol of one of the first columns of s, other than the two themselves, and
/// whose least closed partition is not known.
fn pair_ahead(m: &Machine, known: &Principals, s: u16, t: u16) -> Option<(u16, u16)>
    requires s { s < length m.now.states }
    requires t { t < length m.now.states }
    ensures { IfSome result (λ pair. (pair.0 < length m.now.states) × (pair.1 < length m.now.states)) }
{
    for k in 0..MOST_COLUMNS {
        let (u, v) = pair_at(m, s, t, k)?;
        if u != v && number_of(u, v) != number_of(s, t) && known.find(u, v).is_none() {
            return Some((u, v));
        }
    }
    None
}

/// The known partition of two states that the two go to, if it holds the two together: then it is theirs too.
pub(crate) fn known_ahead<'a>(
    m: &Machine,
    known: &'a Principals,
    s: u16,
    t: u16,
) -> Option<&'a Partition>
    requires known { ArePrincipalsOf m.now known.now }
    requires s { s < length m.now.states }
    requires t { t < length m.now.states }
    ensures { IfSome result (λ p. IsPrincipal m.now s t p.now) }
{
    for k in 0..MOST_KNOWN {
        let (u, v) = pair_at(m, s, t, k)?;
        if let Some(least) = known.find(u, v)
            && least.same(usize::from(s), usize::from(t))
        {
            return Some(least);
        }
    }
    None
}

/// The pairs ahead of the two states, one after another, at most 256, up to one that is known or to the two again.
pub(crate) fn pairs_ahead(
    alloc: Global,
    m: &Machine,
    known: &Principals,
    s: u16,
    t: u16,
) -> Result<Vec<(u16, u16)>, AllocError>
    requires s { s < length m.now.states }
    requires t { t < length m.now.states }
    ensures { IfOk result (λ pairs. AreStates (length m.now.states) pairs.items) }
{
    let mut pairs = Vec::new(alloc);
    let mut last = (s, t);
    while pairs.len() < MOST_AHEAD {
        let Some((u, v)) = pair_ahead(m, known, last.0, last.1) else {
            break;
        };
        if number_of(u, v) == number_of(s, t) {
            break;
        }
        pairs.push((u, v))?;
        last = (u, v);
    }
    Ok(pairs)
}
