//! The calls of `io_pairs`.

ghost use Rattle.std.specs.Prelude.{◌≤◌};
ghost use Rattle.io_pairs.specs.Outputs.{AreOutputs};

use crate::words::{part, put_part};
use crate::worlds::{marked, put_in_listing, put_listed};
use case_lines::{Answer, limit};
use hs_lattice::Listing;
use io_pairs::{
    InputWorld, IoPair, OutputWorld, Outs, OutsFail, input_high, input_low, input_pairs,
    output_high, output_low, output_pairs, outputs,
};
use machine_table::Machine;
use partition::Partition;
use std::alloc::Global;

/// Puts what a call answers.
pub(crate) fn put_answer(alloc: Global, call: &str, words: &str, m: &Machine, answer: &mut Answer) {
    if m.inputs() > 8 {
        return answer.fail();
    }
    if call.starts_with("input_") {
        return put_of_inputs(alloc, call, words, m, answer);
    }
    match outputs(alloc, m) {
        Ok(outs) => put_of_outputs(alloc, call, words, m, &outs, answer),
        Err(OutsFail::TooMany) => answer.add(b"too many"),
        Err(OutsFail::NoMemory) => answer.fail(),
    }
}

/// Puts what is asked of symbols and states.
fn put_of_inputs(alloc: Global, call: &str, words: &str, m: &Machine, answer: &mut Answer)
    requires { m.now.inputs ≤ 8 }
{
    match call {
        "input_pairs" => put_pairs(alloc, listed_inputs(alloc, words, m), answer),
        "input_pair_count" => put_count(listed_inputs(alloc, words, m), answer),
        "input_low" => put_made(alloc, low_of_symbols(alloc, words, m), answer),
        "input_high" => put_made(alloc, high_of_states(alloc, words, m), answer),
        _ => put_in_input_world(alloc, call, words, m, answer),
    }
}

/// The pairs of symbols and states, up to the limit that words say.
fn listed_inputs(alloc: Global, words: &str, m: &Machine) -> Option<Listing<IoPair>>
    requires { m.now.inputs ≤ 8 }
{
    let (most, _) = limit(words).ok()?;
    input_pairs(alloc, m, most).ok()
}

/// The least partition of the states that makes a pair with one of the symbols.
fn low_of_symbols(alloc: Global, words: &str, m: &Machine) -> Option<Partition>
    requires { m.now.inputs ≤ 8 }
{
    let p = part(alloc, words, 1usize << m.inputs())?;
    input_low(alloc, m, &p).ok()
}

/// The greatest partition of the symbols that makes a pair with one of the states.
fn high_of_states(alloc: Global, words: &str, m: &Machine) -> Option<Partition>
    requires { m.now.inputs ≤ 8 }
{
    let q = part(alloc, words, m.states())?;
    input_high(alloc, m, &q).ok()
}

/// Puts what is asked of states and outputs.
fn put_of_outputs(
    alloc: Global,
    call: &str,
    words: &str,
    m: &Machine,
    outs: &Outs,
    answer: &mut Answer,
)
    requires inputs { m.now.inputs ≤ 8 }
    requires outs { AreOutputs m.now outs.now }
{
    match call {
        "outputs" => answer.add_displayed(format_args!("{:?}", outs.as_slice())),
        "output_pairs" => put_pairs(alloc, listed_outputs(alloc, words, m, outs), answer),
        "output_pair_count" => put_count(listed_outputs(alloc, words, m, outs), answer),
        "output_low" => put_made(alloc, low_of_states(alloc, words, m, outs), answer),
        "output_high" => put_made(alloc, high_of_outputs(alloc, words, m, outs), answer),
        _ => put_in_output_world(alloc, call, words, m, outs, answer),
    }
}

/// The pairs of states and outputs, up to the limit that words say.
fn listed_outputs(alloc: Global, words: &str, m: &Machine, outs: &Outs) -> Option<Listing<IoPair>>
    requires inputs { m.now.inputs ≤ 8 }
    requires outs { AreOutputs m.now outs.now }
{
    let (most, _) = limit(words).ok()?;
    output_pairs(alloc, m, outs, most).ok()
}

/// The least partition of the outputs that makes a pair with one of the states.
fn low_of_states(alloc: Global, words: &str, m: &Machine, outs: &Outs) -> Option<Partition>
    requires inputs { m.now.inputs ≤ 8 }
    requires outs { AreOutputs m.now outs.now }
{
    let p = part(alloc, words, m.states())?;
    output_low(alloc, m, outs, &p).ok()
}

/// The greatest partition of the states that makes a pair with one of the outputs.
fn high_of_outputs(alloc: Global, words: &str, m: &Machine, outs: &Outs) -> Option<Partition>
    requires inputs { m.now.inputs ≤ 8 }
    requires outs { AreOutputs m.now outs.now }
{
    let q = part(alloc, words, outs.as_slice().len())?;
    output_high(alloc, m, outs, &q).ok()
}

/// Puts a partition, if there is one.
fn put_made(alloc: Global, made: Option<Partition>, answer: &mut Answer) {
    match made {
        Some(p) => put_part(alloc, &p, answer),
        None => answer.fail(),
    }
}

/// Puts the pairs of a listing, if there is one.
fn put_pairs(alloc: Global, listing: Option<Listing<IoPair>>, answer: &mut Answer) {
    match listing {
        Some(listing) => put_listed(alloc, &listing, answer),
        None => answer.fail(),
    }
}

/// Puts the number of pairs of a listing, if there is one.
fn put_count(listing: Option<Listing<IoPair>>, answer: &mut Answer) {
    match listing {
        Some(listing) => {
            let pairs = marked(&listing, answer);
            answer.add_number(pairs.len() as u64);
        }
        None => answer.fail(),
    }
}

/// Puts what is asked of the world of pairs of symbols and states.
fn put_in_input_world(alloc: Global, call: &str, words: &str, m: &Machine, answer: &mut Answer)
    requires { m.now.inputs ≤ 8 }
{
    let world = InputWorld { machine: m };
    match input_pairs(alloc, m, 10000) {
        Ok(listing) => put_in_listing(alloc, &world, call, words, &listing, answer),
        Err(_) => answer.fail(),
    }
}

/// Puts what is asked of the world of pairs of states and outputs.
fn put_in_output_world(
    alloc: Global,
    call: &str,
    words: &str,
    m: &Machine,
    outs: &Outs,
    answer: &mut Answer,
)
    requires inputs { m.now.inputs ≤ 8 }
    requires outs { AreOutputs m.now outs.now }
{
    let world = OutputWorld { machine: m, outs };
    match output_pairs(alloc, m, outs, 10000) {
        Ok(listing) => put_in_listing(alloc, &world, call, words, &listing, answer),
        Err(_) => answer.fail(),
    }
}
