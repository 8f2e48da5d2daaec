//! Two states at a time.

ghost use Rattle.std.specs.Prelude.{◌≡◌, ◌↔◌, ◌+◌, ◌<◌, ℕ, All, Contains, IfOk, IsTrue, OnOk, length};
ghost use Rattle.dependence.specs.Bit.{IsBit, value_of};
ghost use Rattle.least_codes.specs.Inner.StatePairs.{AreToldApart, ArePairs, IsPair};

use dependence::Bit;
use machine_table::Machine;
use std::alloc::{AllocError, Global};

/// Two states, s below t.
#[derive(Clone, Copy, PartialEq, Eq)]
pub(crate) struct TwoStates {
    pub(crate) s: usize,
    pub(crate) t: usize,
}

/// All pairs of n states.
pub(crate) fn all_pairs(alloc: Global, n: usize) -> Result<Vec<TwoStates>, AllocError>
    ensures { IfOk result (λ pairs. ArePairs pairs.items n) }
{
    let mut pairs = Vec::new(alloc);
    for t in 0..n {
        add_pairs(&mut pairs, t)?;
    }
    Ok(pairs)
}

/// Appends the pairs of t and each state below it.
fn add_pairs(pairs: &mut Vec<TwoStates>, t: usize) -> Result<(), AllocError>
    requires { ArePairs pairs.old.items t }
    ensures { OnOk result (ArePairs pairs.new.items (t + 1)) }
{
    for s in 0..t {
        pairs.push(TwoStates { s, t })?;
    }
    Ok(())
}

/// The pairs of states at which a bit is not the same at each symbol.
pub(crate) fn states_apart(
    alloc: Global,
    m: &Machine,
    words: &[u64],
    bit: Bit,
) -> Result<Vec<TwoStates>, AllocError>
    requires words { length words.now ≡ length m.now.states }
    requires bit { IsBit m.now bit }
    ensures { IfOk result (λ apart. AreToldApart m.now (value_of m.now words.now bit) apart.items) }
{
    let pairs = all_pairs(alloc, m.states())?;
    let mut apart = Vec::new(alloc);
    for pair in &pairs {
        if !bit.gives_the_same(m, words, pair.s, pair.t) {
            apart.push(*pair)?;
        }
    }
    Ok(apart)
}
