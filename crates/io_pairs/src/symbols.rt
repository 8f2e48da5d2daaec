//! Pairs on the inputs: where symbols lead.

ghost use Rattle.std.specs.Prelude.{◌≡◌, ◌<◌, ◌≤◌, ◌^◌, IfOk, List, length, map};
ghost use Rattle.hs_lattice.specs.Listing.{Evidence, IfMore, IfWhole, Lists};
ghost use Rattle.io_pairs.specs.Inner.Families.{Go, IsFamily, SameGoing, functions_of};
ghost use Rattle.io_pairs.specs.Inputs.{GoFromStates, IsInHigh, IsInLow, IsInMmPair};
ghost use Rattle.io_pairs.specs.Inner.Lists.{AreNextStates};
ghost use Rattle.partition.specs.Sides.{RightBefore, Sides};
ghost use Rattle.io_pairs.specs.Sides.{sides_of};

use crate::IoPair;
use crate::family::Family;
use crate::greatest::greatest_partner;
use crate::least::least_partner;
use crate::listing::listed;
use hs_lattice::Listing;
use hs_list::Items;
use machine_table::Machine;
use partition::Partition;
use std::alloc::{AllocError, Global};

/// The number of symbols.
pub(crate) fn symbol_count(m: &Machine) -> u32
    requires { m.now.inputs ≤ 8 }
    ensures count { result ≡ 2 ^ m.now.inputs }
    ensures some { 0 < result }
    ensures few { result ≤ 256 }
{
    1 << m.inputs()
}

/// The next states of a state, by symbol.
fn next_states(alloc: Global, m: &Machine, s: usize) -> Result<Vec<u16>, AllocError>
    requires inputs { m.now.inputs ≤ 8 }
    requires s { s < length m.now.states }
    ensures { IfOk result (λ v. AreNextStates m.now s v.items) }
{
    m.keeps_its_states();
    let symbols = symbol_count(m);
    let mut states = Vec::with_capacity(alloc, symbols as usize)?;
    for x in 0..symbols {
        states.push(m.next(s, x) as u16)?;
    }
    Ok(states)
}

/// The family of input-state pairs: for each state, where the symbols lead.
fn of_inputs(alloc: Global, m: &Machine) -> Result<Family, AllocError>
    requires { m.now.inputs ≤ 8 }
    ensures family { IfOk result IsFamily }
    ensures members { IfOk result (λ family. family.members ≡ 2 ^ m.now.inputs) }
    ensures values { IfOk result (λ family. family.values ≡ length m.now.states) }
    ensures going { IfOk result
        (λ family. SameGoing (2 ^ m.now.inputs) (Go (functions_of family)) (GoFromStates m.now)) }
{
    let mut functions = Vec::with_capacity(alloc, m.states())?;
    for s in 0..m.states() {
        functions.push(Items::from(next_states(alloc, m, s)?))?;
    }
    Ok(Family {
        members: symbol_count(m) as usize,
        values: m.states(),
        functions,
    })
}

/// The least partition of the states that the partition of the symbols makes a pair with.
///
/// Symbols are given by their numbers, and there are at most 8 inputs.
pub fn input_low(alloc: Global, m: &Machine, p: &Partition) -> Result<Partition, AllocError>
    requires inputs { m.now.inputs ≤ 8 }
    requires symbols { length p.now ≡ 2 ^ m.now.inputs }
    ensures { IfOk result (IsInLow m.now p.now) }
{
    let family = of_inputs(alloc, m)?;
    least_partner(alloc, &family, p)
}

/// The greatest partition of the symbols that makes a pair with the partition of the states: symbols are together
/// in it exactly where they lead, from every state, to states that are together.
pub fn input_high(alloc: Global, m: &Machine, q: &Partition) -> Result<Partition, AllocError>
    requires inputs { m.now.inputs ≤ 8 }
    requires states { length q.now ≡ length m.now.states }
    ensures { IfOk result (IsInHigh m.now q.now) }
{
    let family = of_inputs(alloc, m)?;
    greatest_partner(alloc, &family, q)
}

/// The Mm pairs of partitions of the symbols and of the states, in ascending order of their right sides, or
/// limit + 1 of them if there are more than the limit.
///
/// Which pairs are the evidence is left open.
pub fn input_pairs(alloc: Global, m: &Machine, limit: usize) -> Result<Listing<IoPair>, AllocError>
    requires inputs { m.now.inputs ≤ 8 }
    requires positive { 1 ≤ limit }
    requires bounded { limit ≤ 10000 }
    ensures whole { IfOk result (λ listing. IfWhole listing (λ items.
        Lists RightBefore (IsInMmPair m.now) (map sides_of items))) }
    ensures within { IfOk result (λ listing. IfWhole listing (λ items. length items ≤ limit)) }
    ensures no_more { IfOk result (λ listing. IfWhole listing (λ _. (pairs : List Sides)
        → Evidence RightBefore (IsInMmPair m.now) limit pairs → ⊥)) }
    ensures more { IfOk result (λ listing. IfMore listing (λ items.
        Evidence RightBefore (IsInMmPair m.now) limit (map sides_of items))) }
{
    let family = of_inputs(alloc, m)?;
    listed(alloc, &family, limit)
}
