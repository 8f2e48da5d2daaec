//! The greatest partition of a pair.
ghost use Rattle.std.specs.Prelude.{ℕ, ◌≡◌, ◌<◌, ◌↔◌, IfNone, IfOk, IfSome, IsTrue, OnOk, length};
ghost use Rattle.pair_operators.specs.NextColumns.{AreAsked};
ghost use Rattle.pair_operators.specs.Extremes.{IsHigh};
ghost use Rattle.pair_operators.specs.Pair.{Closed, Pair};
ghost use Rattle.partition.specs.Partition.{IsPartition};
ghost use Rattle.partition.specs.RelationBlocks.{AreRelated};
ghost use Rattle.pair_operators.specs.NextBlocks.{Goes};
ghost use Rattle.pair_operators.specs.Inner.Keys.{AreKeys};

use crate::next_columns::{AskedSymbols, Keys};
use machine_table::Machine;
use partition::Partition;
use std::alloc::{AllocError, Global};

/// M(q): the greatest partition p for which (p, q) is a pair.
pub fn high(alloc: Global, m: &Machine, q: &Partition) -> Result<Partition, AllocError>
    requires { length q.now ≡ length m.now.states }
    ensures { IfOk result (IsHigh m.now q.now) }
{
    high_beside(alloc, m, &mut AskedSymbols::new(alloc), q)
}

/// M(q), asking first the symbols that told states apart in earlier calls.
///
/// Two states are together in it exactly where they go together: at each symbol, to states that are together in
/// q. Symbols that tell apart states that no symbol asked so far does are kept for later calls.
pub fn high_beside(
    alloc: Global,
    m: &Machine,
    asked: &mut AskedSymbols,
    q: &Partition,
) -> Result<Partition, AllocError>
    requires states { length q.now ≡ length m.now.states }
    requires asked { AreAsked m.now asked.old }
    ensures asked { OnOk result (AreAsked m.now asked.new) }
    ensures high { IfOk result (IsHigh m.now q.now) }
{
    let zero = Partition::zero(alloc, m.states())?;
    high_from(alloc, m, asked, &zero, q)
}

/// M(q) like [`high_beside`], for a closed q: it is below M(q), so of each block only the least state is compared.
pub fn high_above(
    alloc: Global,
    m: &Machine,
    asked: &mut AskedSymbols,
    q: &Partition,
) -> Result<Partition, AllocError>
    requires states { length q.now ≡ length m.now.states }
    requires closed { Closed m.now q.now }
    requires asked { AreAsked m.now asked.old }
    ensures asked { OnOk result (AreAsked m.now asked.new) }
    ensures high { IfOk result (IsHigh m.now q.now) }
{
    high_from(alloc, m, asked, q, q)
}

/// M(q), where states that are together in `known` are known to go together. The least state of a block of `known` is
/// compared with the least states of the blocks so far, and joins the block of the first that it goes with.
fn high_from(
    alloc: Global,
    m: &Machine,
    asked: &mut AskedSymbols,
    known: &Partition,
    q: &Partition,
) -> Result<Partition, AllocError>
    requires size { length known.now ≡ length m.now.states }
    requires states { length q.now ≡ length m.now.states }
    requires pair { Pair m.now known.now q.now }
    requires asked { AreAsked m.now asked.old }
    ensures asked { OnOk result (AreAsked m.now asked.new) }
    ensures high { IfOk result (IsHigh m.now q.now) }
{
    let mut keys = asked.keys(alloc, m, q)?;
    let mut p = Partition::zero(alloc, m.states())?;
    for s in 0..m.states() {
        if let Some(first) = joins(m, &p, known, q, &keys, s) {
            p.merge(first, s);
        }
        if let Some(other) = alike_by_keys(&p, &keys, s) {
            keys = asked.learn(alloc, m, q, keys, other, s)?;
        }
    }
    Ok(p)
}

/// A state below s that goes together with s at each symbol: the least of its block in `known`, if that is not s, or
/// else the first that is the least of its block in p.
fn joins(
    m: &Machine,
    p: &Partition,
    known: &Partition,
    q: &Partition,
    keys: &Keys,
    s: usize,
) -> Option<usize>
    requires s { s < length m.now.states }
    requires left { IsPartition (length m.now.states) p.now }
    requires size { length known.now ≡ length m.now.states }
    requires right { length q.now ≡ length m.now.states }
    requires pair { Pair m.now known.now q.now }
    requires keys { AreKeys m.now q.now keys.now }
    requires related { AreRelated (Goes m.now q.now) p.now }
    ensures below { IfSome result (λ first. first < s) }
    ensures goes { IfSome result (λ first. Goes m.now q.now first s) }
    ensures none { IfNone result ((t : ℕ) → t < s → ¬ Goes m.now q.now t s) }
{
    let least = known.least_of(s);
    if least < s {
        return Some(least);
    }
    goes_with(m, p, q, keys, s)
}

/// Whether the two states go, at each symbol, to states that are together in q. If their numbers differ, no symbol
/// is tried.
fn go_together(m: &Machine, q: &Partition, keys: &Keys, s: usize, t: usize) -> bool
    requires s { s < length m.now.states }
    requires t { t < length m.now.states }
    requires right { length q.now ≡ length m.now.states }
    requires keys { AreKeys m.now q.now keys.now }
    ensures { IsTrue result ↔ Goes m.now q.now s t }
{
    if keys.numbers[s] != keys.numbers[t] {
        return false;
    }
    m.pair_goes(s, t, q)
}

/// The first state below s that is the least of its block in p and goes together with s at each symbol.
fn goes_with(m: &Machine, p: &Partition, q: &Partition, keys: &Keys, s: usize) -> Option<usize>
    requires s { s < length m.now.states }
    requires left { IsPartition (length m.now.states) p.now }
    requires right { length q.now ≡ length m.now.states }
    requires keys { AreKeys m.now q.now keys.now }
    requires related { AreRelated (Goes m.now q.now) p.now }
    ensures below { IfSome result (λ first. first < s) }
    ensures goes { IfSome result (λ first. Goes m.now q.now first s) }
    ensures none { IfNone result ((t : ℕ) → t < s → ¬ Goes m.now q.now t s) }
{
    // The number of blocks of the states so far. A state whose label is this number is the first of its block.
    let mut blocks = 0;
    for t in 0..s {
        if usize::from(p.label(t)) == blocks {
            if go_together(m, q, keys, t, s) {
                return Some(t);
            }
            blocks += 1;
        }
    }
    None
}

/// A state below s with the same number, which is not together with s in p.
fn alike_by_keys(p: &Partition, keys: &Keys, s: usize) -> Option<usize>
    requires s { s < length p.now }
    requires size { length keys.now.numbers.items ≡ length p.now }
    ensures { IfSome result (λ other. other < s) }
{
    for t in 0..s {
        if keys.numbers[t] == keys.numbers[s] && !p.same(t, s) {
            return Some(t);
        }
    }
    None
}
