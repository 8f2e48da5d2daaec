//! The order of a definite machine.

ghost use Rattle.std.specs.Prelude.{◌≡◌, ◌≢◌, ℕ, ◌<◌, ◌≤◌, IfErr, IfNone, IfOk, IfSome, length, slice_index};
ghost use Rattle.shift_real.specs.Chain.{AreTogetherAfter, IsChain};
ghost use Rattle.shift_real.specs.DefiniteMachine.{AreFirstApart, IsOrder, IsOrderCause};

use crate::chains::{Chain, chain};
use machine_table::Machine;
use partition::Partition;
use std::alloc::{AllocError, Global};

/// Why a machine has no order.
#[derive(Debug, Drop, PartialEq)]
pub enum OrderFail {
    /// For no k does every word of k symbols bring these two states to one state. They are the least two such
    /// states, by s and then by t.
    NotDefinite { s: u16, t: u16 },
    /// Memory ran out.
    NoMemory,
}

/// Two states that no number of symbols brings to one state, whatever the symbols: the least two, by s and then by t.
#[derive(Clone, Copy)]
pub struct StatesApart {
    pub s: u16,
    pub t: u16,
}

impl From<AllocError> for OrderFail {
    ghost use Rattle.std.specs.Prelude.{◌≡◌};
    ghost use Rattle.shift_real.specs.declared.orders.OrderFail.TheVariants.{NoMemory};

    ghost from_gives = { λ _ fail. fail ≡ NoMemory };

    fn from(_: AllocError) -> Self {
        OrderFail::NoMemory
    }
}

/// The least number of symbols after which the state is known, whatever it was before.
pub fn order(alloc: Global, m: &Machine) -> Result<usize, OrderFail>
    ensures order { IfOk result (IsOrder m.now) }
    ensures few { IfOk result (λ k. k < length m.now.states) }
    ensures refused { IfErr result (IsOrderCause m.now) }
{
    let chain = chain(alloc, m)?;
    match order_of_chain(m, &chain) {
        Ok(k) => Ok(k),
        Err(StatesApart { s, t }) => Err(OrderFail::NotDefinite { s, t }),
    }
}

/// The order of a machine that has this chain; or the two states that show that it has none.
pub fn order_of_chain(m: &Machine, chain: &Chain) -> Result<usize, StatesApart>
    requires chain { IsChain m.now chain.now }
    requires together { AreTogetherAfter m.now chain.now }
    requires size { length chain.now ≤ length m.now.states }
    ensures order { IfOk result (IsOrder m.now) }
    ensures few { IfOk result (λ k. k < length m.now.states) }
    ensures refused { IfErr result (λ two. AreFirstApart m.now two.s two.t) }
{
    m.keeps_its_states();
    let members = chain.as_slice();
    let last = members.len() - 1;
    match first_apart(&members[last]) {
        None => Ok(last),
        Some(t) => Err(StatesApart { s: 0, t: t as u16 }),
    }
}

/// The least state that is not together with state 0.
fn first_apart(p: &Partition) -> Option<usize>
    requires { 0 < length p.now }
    ensures within { IfSome result (λ t. t < length p.now) }
    ensures apart { IfSome result (λ t. slice_index p.now t ≢ slice_index p.now 0) }
    ensures first { IfSome result (λ t. (u : ℕ) → u < t → slice_index p.now u ≡ slice_index p.now 0) }
    ensures none { IfNone result ((u : ℕ) → u < length p.now → slice_index p.now u ≡ slice_index p.now 0) }
{
    for t in 0..p.len() {
        if p.label(t) != p.label(0) {
            return Some(t);
        }
    }
    None
}
