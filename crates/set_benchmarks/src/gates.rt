//! Lists of gates.

ghost use Rattle.std.specs.Prelude.{◌≡◌, ◌<◌, ◌≤◌, bit_and};

use crate::trees::leaves;
use bench_cases::drawn;
use cover_logic::{Term, can_cover};
use std::alloc::{AllocError, Global};

/// The lists of a gate.
#[derive(Drop)]
pub(crate) struct Gate {
    pub on: Vec<Term>,
    pub off: Vec<Term>,
    pub width: u8,
}

/// Which values a gate has in its lists.
#[derive(Clone, Copy)]
enum Rule {
    /// This number of values is in on, and half as many are in off.
    First(usize),
    /// Each value is in on or in off, at random.
    Drawn,
    /// The next value of this bit of a counter. Column 0 is the enable, and the state follows.
    Counter(usize),
}

/// The number of gates of a kind: a counter of `size` bits has one for each bit.
pub(crate) fn gates_of(kind: &str, size: usize) -> usize {
    if kind == "counter" { size.min(16) } else { 1 }
}

/// The gate with the given number, of a kind.
///
/// - `minterms` is a random function of 10 columns, with `size` values in on and half as many in off.
/// - `dense` is a random function of `size` columns, each of whose values is in on or in off.
/// - `counter` has `size` bits of state, and a gate for each.
/// - `terms` are random terms of 40 columns with about 30 literals: `size` of them in on, and at most `size` in
///   off.
/// - `trees` are the leaves of `size` trees, but at most 256, with as many leaves each, over 32 inputs and 8 columns
///   for the number of the tree. Each leaf is in on or in off, at random.
pub(crate) fn gate_of(
    alloc: Global,
    kind: &str,
    size: usize,
    number: usize,
) -> Result<Gate, AllocError> {
    let mut gate = Gate {
        on: Vec::new(alloc),
        off: Vec::new(alloc),
        width: 40,
    };
    let columns = size.min(16) as u8;
    match kind {
        "minterms" => add_values(&mut gate, 10, Rule::First(size))?,
        "dense" => add_values(&mut gate, columns, Rule::Drawn)?,
        "counter" => add_values(&mut gate, columns + 1, Rule::Counter(number))?,
        "trees" => add_trees(alloc, &mut gate, size.min(256))?,
        _ => add_terms(&mut gate, size)?,
    }
    Ok(gate)
}

/// Puts the values of the given number of columns into the lists of an empty gate, in a scattered order.
fn add_values(gate: &mut Gate, columns: u8, rule: Rule) -> Result<(), AllocError>
    requires { columns ≤ 17 }
{
    gate.width = columns;
    let care = (1u128 << columns) - 1;
    for number in 0..1usize << columns {
        let value = number.wrapping_mul(40_503) % (1 << columns);
        let minterm = term(care, value as u128);
        match is_on(rule, number, value) {
            Some(true) => gate.on.push(minterm)?,
            Some(false) => gate.off.push(minterm)?,
            None => {}
        }
    }
    Ok(())
}

/// Whether a value is in on, not in off. None if it is in neither.
fn is_on(rule: Rule, number: usize, value: usize) -> Option<bool> {
    match rule {
        Rule::First(size) if number >= size.wrapping_add(size / 2) => None,
        Rule::First(size) => Some(number < size),
        Rule::Drawn => Some(drawn(value as u64, 1) % 2 == 1),
        Rule::Counter(bit) => {
            let next = (value >> 1).wrapping_add(value & 1);
            Some(bit < 64 && next >> bit & 1 == 1)
        }
    }
}

/// The term with literals at the columns of `care`, which are the bits of `value` there.
fn term(care: u128, value: u128) -> Term {
    Term {
        care,
        value: value & care,
    }
}

/// Puts random terms into the lists, and into off only those that meet no term of on.
fn add_terms(gate: &mut Gate, size: usize) -> Result<(), AllocError> {
    for number in 0..size {
        gate.on.push(drawn_term(number as u64))?;
    }
    for number in size..size.saturating_mul(2) {
        let candidate = drawn_term(number as u64);
        if can_cover(&gate.on, &[candidate], 40) {
            gate.off.push(candidate)?;
        }
    }
    Ok(())
}

/// Puts the leaves of trees into the lists.
fn add_trees(alloc: Global, gate: &mut Gate, size: usize) -> Result<(), AllocError> {
    for number in 0..size as u64 {
        for leaf in &leaves(alloc, number, size)? {
            add_leaf(gate, number, *leaf)?;
        }
    }
    Ok(())
}

/// Puts a leaf of the tree of that number into one of the lists.
fn add_leaf(gate: &mut Gate, number: u64, leaf: (u32, u32)) -> Result<(), AllocError> {
    let (care, value) = leaf;
    let leaf = term(
        0xff << 32 | u128::from(care),
        u128::from(number % 256) << 32 | u128::from(value),
    );
    let draw = drawn(u64::from(care), u64::from(value).wrapping_add(number << 32));
    if draw % 2 == 1 {
        gate.on.push(leaf)?;
    } else {
        gate.off.push(leaf)?;
    }
    Ok(())
}

/// A random term of 40 columns with about 30 literals.
fn drawn_term(number: u64) -> Term {
    let columns = (1u64 << 40) - 1;
    let care = (drawn(number, 1) | drawn(number, 2)) & columns;
    term(u128::from(care), u128::from(drawn(number, 3)))
}
