//! Pairs on the outputs: what states put out.

ghost use Rattle.std.specs.Prelude.{◌≡◌, ◌<◌, ◌≤◌, ◌^◌, ℕ, IfOk, List, length, map, slice_index_or, []};
ghost use Rattle.hs_lattice.specs.Listing.{Evidence, IfMore, IfWhole, Lists};
ghost use Rattle.io_pairs.specs.Inner.Families.{Go, IsFamily, SameGoing, functions_of};
ghost use Rattle.io_pairs.specs.Inner.Lists.{AreAtPlace, EachList};
ghost use Rattle.io_pairs.specs.Outputs.{AreOutputs, GoAtSymbols, IsOutHigh, IsOutLow, IsOutMmPair, occurring};
ghost use Rattle.io_pairs.specs.Inner.Words.{AreNumbersOf};
ghost use Rattle.partition.specs.Sides.{RightBefore, Sides};
ghost use Rattle.io_pairs.specs.Sides.{sides_of};

use crate::family::Family;
use crate::greatest::greatest_partner;
use crate::least::least_partner;
use crate::listing::listed;
use crate::output_words::{place_of, words_of};
use crate::symbols::symbol_count;
use crate::{IoPair, Outs};
use hs_lattice::Listing;
use hs_list::Items;
use machine_table::Machine;
use partition::Partition;
use std::alloc::{AllocError, Global};

/// The numbers of the outputs of a state, by symbol.
fn numbers_of(alloc: Global, m: &Machine, outs: &Outs, s: usize) -> Result<Vec<u16>, AllocError>
    requires inputs { m.now.inputs ≤ 8 }
    requires outs { AreOutputs m.now outs.now }
    requires s { s < length m.now.states }
    ensures { IfOk result (λ v. AreNumbersOf m.now s v.items) }
{
    let words = words_of(alloc, m, s)?;
    let mut numbers = Vec::with_capacity(alloc, words.len())?;
    for word in words.as_slice() {
        numbers.push(place_of(outs.as_slice(), *word) as u16)?;
    }
    Ok(numbers)
}

/// The numbers of the outputs of each state.
fn all_numbers(alloc: Global, m: &Machine, outs: &Outs) -> Result<Vec<Items<u16>>, AllocError>
    requires inputs { m.now.inputs ≤ 8 }
    requires outs { AreOutputs m.now outs.now }
    ensures count { IfOk result (λ v. length v.items ≡ length m.now.states) }
    ensures each { IfOk result (λ v. EachList (AreNumbersOf m.now) (length m.now.states) v.items) }
{
    let mut states = Vec::with_capacity(alloc, m.states())?;
    for s in 0..m.states() {
        states.push(Items::from(numbers_of(alloc, m, outs, s)?))?;
    }
    Ok(states)
}

/// The numbers at the given place of each list.
fn at_place(alloc: Global, lists: &[Items<u16>], place: usize) -> Result<Vec<u16>, AllocError>
    requires { (k : ℕ) → k < length lists.now → place < length (slice_index_or lists.now k []) }
    ensures { IfOk result (λ v. AreAtPlace lists.now place v.items) }
{
    let mut numbers = Vec::with_capacity(alloc, lists.len())?;
    for k in 0..lists.len() {
        numbers.push(lists[k].as_slice()[place])?;
    }
    Ok(numbers)
}

/// The family of state-output pairs: for each symbol, what the states put out.
fn of_outputs(alloc: Global, m: &Machine, outs: &Outs) -> Result<Family, AllocError>
    requires inputs { m.now.inputs ≤ 8 }
    requires outs { AreOutputs m.now outs.now }
    ensures family { IfOk result IsFamily }
    ensures members { IfOk result (λ family. family.members ≡ length m.now.states) }
    ensures values { IfOk result (λ family. family.values ≡ length (occurring m.now)) }
    ensures going { IfOk result
        (λ family. SameGoing (length m.now.states) (Go (functions_of family)) (GoAtSymbols m.now)) }
{
    let states = all_numbers(alloc, m, outs)?;
    let symbols = symbol_count(m) as usize;
    let mut functions = Vec::with_capacity(alloc, symbols)?;
    for x in 0..symbols {
        functions.push(Items::from(at_place(alloc, states.as_slice(), x)?))?;
    }
    Ok(Family {
        members: m.states(),
        values: outs.as_slice().len(),
        functions,
    })
}

/// The least partition of the outputs that the partition of the states makes a pair with.
///
/// `outs` has the outputs that occur, as [`outputs`](crate::outputs) gives them, and there are at most 8 inputs.
pub fn output_low(
    alloc: Global,
    m: &Machine,
    outs: &Outs,
    p: &Partition,
) -> Result<Partition, AllocError>
    requires inputs { m.now.inputs ≤ 8 }
    requires outs { AreOutputs m.now outs.now }
    requires states { length p.now ≡ length m.now.states }
    ensures { IfOk result (IsOutLow m.now p.now) }
{
    let family = of_outputs(alloc, m, outs)?;
    least_partner(alloc, &family, p)
}

/// The greatest partition of the states that makes a pair with the partition of the outputs: states are together in
/// it exactly where their outputs are together at every symbol.
pub fn output_high(
    alloc: Global,
    m: &Machine,
    outs: &Outs,
    q: &Partition,
) -> Result<Partition, AllocError>
    requires inputs { m.now.inputs ≤ 8 }
    requires outs { AreOutputs m.now outs.now }
    requires outputs { length q.now ≡ length outs.now }
    ensures { IfOk result (IsOutHigh m.now q.now) }
{
    let family = of_outputs(alloc, m, outs)?;
    greatest_partner(alloc, &family, q)
}

/// The Mm pairs of partitions of the states and of the outputs, in ascending order of their right sides, or
/// limit + 1 of them if there are more than the limit.
///
/// Which pairs are the evidence is left open.
pub fn output_pairs(
    alloc: Global,
    m: &Machine,
    outs: &Outs,
    limit: usize,
) -> Result<Listing<IoPair>, AllocError>
    requires inputs { m.now.inputs ≤ 8 }
    requires outs { AreOutputs m.now outs.now }
    requires positive { 1 ≤ limit }
    requires bounded { limit ≤ 10000 }
    ensures whole { IfOk result (λ listing. IfWhole listing (λ items.
        Lists RightBefore (IsOutMmPair m.now) (map sides_of items))) }
    ensures within { IfOk result (λ listing. IfWhole listing (λ items. length items ≤ limit)) }
    ensures no_more { IfOk result (λ listing. IfWhole listing (λ _. (pairs : List Sides)
        → Evidence RightBefore (IsOutMmPair m.now) limit pairs → ⊥)) }
    ensures more { IfOk result (λ listing. IfMore listing (λ items.
        Evidence RightBefore (IsOutMmPair m.now) limit (map sides_of items))) }
{
    let family = of_outputs(alloc, m, outs)?;
    listed(alloc, &family, limit)
}
