//! The partition of alike states, by rounds that separate states.
ghost use Rattle.std.specs.Prelude.{◌≡◌, ◌<◌, ◌↔◌, ℕ, IfNone, IfOk, IfSome, IsTrue, length};
ghost use Rattle.partition.specs.RelationBlocks.{AreRelated, IsSplitBy};
ghost use Rattle.partition.specs.Partition.{IsPartition};
ghost use Rattle.state_reduce.specs.AlikeStates.{IsEquivalence};
ghost use Rattle.state_reduce.specs.Inner.Refinement.{AgreeAlways, IsRound, StayTogether};

use machine_table::Machine;
use partition::Partition;
use std::alloc::{AllocError, Global};

/// The partition of the states in which two states are together exactly where they are alike.
pub fn equivalence(alloc: Global, m: &Machine) -> Result<Partition, AllocError>
    ensures { IfOk result (IsEquivalence m.now) }
{
    m.keeps_its_states();
    let mut present = agreeing(alloc, m)?;
    loop {
        let finer = refined(alloc, m, &present)?;
        if finer.blocks() == present.blocks() {
            return Ok(present);
        }
        present = finer;
    }
}

/// The partition of the states by their outputs.
fn agreeing(alloc: Global, m: &Machine) -> Result<Partition, AllocError>
    ensures { IfOk result (IsSplitBy (AgreeAlways m.now) (length m.now.states)) }
{
    let mut p = Partition::zero(alloc, m.states())?;
    for s in 0..m.states() {
        if let Some(first) = first_agreeing(m, &p, s) {
            p.merge(first, s);
        }
    }
    Ok(p)
}

/// The partition one round finer: states stay together where they go into one block at each symbol.
fn refined(alloc: Global, m: &Machine, p: &Partition) -> Result<Partition, AllocError>
    requires { length p.now ≡ length m.now.states }
    ensures { IfOk result (IsSplitBy (StayTogether m.now p.now) (length m.now.states)) }
{
    let mut finer = Partition::zero(alloc, m.states())?;
    for s in 0..m.states() {
        if let Some(first) = first_staying(m, p, &finer, s) {
            finer.merge(first, s);
        }
    }
    Ok(finer)
}

/// The first state below s that is the least of its block so far and agrees with s in all outputs.
fn first_agreeing(m: &Machine, so_far: &Partition, s: usize) -> Option<usize>
    requires lawful { IsPartition (length m.now.states) so_far.now }
    requires s { s < length m.now.states }
    requires related { AreRelated (AgreeAlways m.now) so_far.now }
    ensures below { IfSome result (λ first. first < s) }
    ensures agrees { IfSome result (λ first. AgreeAlways m.now first s) }
    ensures none { IfNone result ((t : ℕ) → t < s → ¬ AgreeAlways m.now t s) }
{
    let mut blocks = 0;
    for t in 0..s {
        if usize::from(so_far.label(t)) == blocks {
            if m.outputs_agree(t, s) {
                return Some(t);
            }
            blocks += 1;
        }
    }
    None
}

/// The first state below s that is the least of its block so far and stays together with s.
fn first_staying(m: &Machine, p: &Partition, so_far: &Partition, s: usize) -> Option<usize>
    requires p { length p.now ≡ length m.now.states }
    requires lawful { IsPartition (length m.now.states) so_far.now }
    requires s { s < length m.now.states }
    requires related { AreRelated (StayTogether m.now p.now) so_far.now }
    ensures below { IfSome result (λ first. first < s) }
    ensures stays { IfSome result (λ first. StayTogether m.now p.now first s) }
    ensures none { IfNone result ((t : ℕ) → t < s → ¬ StayTogether m.now p.now t s) }
{
    let mut blocks = 0;
    for t in 0..s {
        if usize::from(so_far.label(t)) == blocks {
            if stay_together(m, p, t, s) {
                return Some(t);
            }
            blocks += 1;
        }
    }
    None
}

/// Whether the states are together and, at each symbol, go to states that are together.
fn stay_together(m: &Machine, p: &Partition, s: usize, t: usize) -> bool
    requires p { length p.now ≡ length m.now.states }
    requires s { s < length m.now.states }
    requires t { t < length m.now.states }
    ensures { IsTrue result ↔ StayTogether m.now p.now s t }
{
    p.same(s, t) && m.pair_goes(s, t, p)
}
