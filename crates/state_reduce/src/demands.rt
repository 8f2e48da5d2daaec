//! Which partitions have a quotient.
ghost use Rattle.std.specs.Prelude.{◌≡◌, ◌<◌, IfNone, IfSome, length};
ghost use Rattle.machine_table.specs.Pairs.{AtEachSymbol, IsFirstWithout};
ghost use Rattle.partition.specs.Partition.{IsPartition};
ghost use Rattle.state_reduce.specs.Inner.Demands.{IsFirstBehind, IsFirstUnmet, IsMet, IsMetBehind, IsMetByAll};

use machine_table::Machine;
use partition::Partition;
use std::alloc::AllocError;

/// Why a partition has no quotient. States and symbols are given by their numbers.
#[derive(Clone, Copy, Debug, PartialEq, Eq)]
pub enum QuotientFail {
    /// The states s < t are together, but at the symbol x they go to states that are not. s and t are the first
    /// such states, and x is the first such symbol.
    NotClosed { s: u16, t: u16, x: u32 },
    /// The partition is closed. The states s < t are together, but at the symbol x their outputs differ. s and
    /// t are the first such states, and x is the first such symbol.
    NotConsistent { s: u16, t: u16, x: u32 },
    /// Memory ran out.
    NoMemory,
}

impl From<AllocError> for QuotientFail {
    ghost use Rattle.std.specs.Prelude.{◌≡◌};
    ghost use Rattle.state_reduce.specs.declared.demands.QuotientFail.TheVariants.{NoMemory};

    ghost from_gives = { λ _ fail. fail ≡ NoMemory };

    fn from(_: AllocError) -> Self {
        QuotientFail::NoMemory
    }
}

/// What is demanded of states that are together.
#[derive(Clone, Copy)]
pub(crate) enum Demand {
    /// At each symbol their next states are together.
    NextStates,
    /// At each symbol their outputs are equal.
    Outputs,
}

/// The first two states that are together and do not meet the demand, and the first symbol at which they do not
/// meet it. If two states of a block fail with each other, the least state of the block fails with one of them.
pub(crate) fn first_against(m: &Machine, p: &Partition, demand: Demand) -> Option<(u16, u16, u32)>
    requires { length p.now ≡ length m.now.states }
    ensures some { IfSome result (λ it. IsFirstUnmet demand m.now p.now it.0 it.1 it.2) }
    ensures none { IfNone result (IsMetByAll demand m.now p.now) }
    ensures partition { IsPartition (length p.now) p.now }
{
    for s in 0..p.len() {
        if p.least_of(s) != s {
            continue;
        }
        if let Some((t, x)) = first_behind(m, p, demand, s) {
            return Some((s as u16, t, x));
        }
    }
    None
}

/// The first state after s that is together with it and does not meet the demand with it, and the first symbol
/// at which they do not meet it.
fn first_behind(m: &Machine, p: &Partition, demand: Demand, s: usize) -> Option<(u16, u32)>
    requires p { length p.now ≡ length m.now.states }
    requires s { s < length m.now.states }
    ensures some { IfSome result (λ it. IsFirstBehind demand m.now p.now s it.0 it.1) }
    ensures none { IfNone result (IsMetBehind demand m.now p.now s (length m.now.states)) }
{
    let n = m.states();
    for t in s + 1..n {
        if p.same(s, t)
            && let Some(x) = first_symbol(m, p, demand, s, t)
        {
            return Some((t as u16, x));
        }
    }
    None
}

/// The first symbol at which the states do not meet the demand.
fn first_symbol(m: &Machine, p: &Partition, demand: Demand, s: usize, t: usize) -> Option<u32>
    requires p { length p.now ≡ length m.now.states }
    requires s { s < length m.now.states }
    requires t { t < length m.now.states }
    ensures some { IfSome result (IsFirstWithout m.now.inputs (IsMet demand m.now p.now s t)) }
    ensures none { IfNone result (AtEachSymbol m.now.inputs (IsMet demand m.now p.now s t)) }
{
    match demand {
        Demand::NextStates => m.first_apart(s, t, p),
        Demand::Outputs => m.first_output_apart(s, t),
    }
}
