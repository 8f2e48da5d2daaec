//! KISS2 texts of machines. The cubes of each state are the leaves of a tree that asks one input after another, so
//! they are disjoint and leave no symbol out. The number of a row is the path to its leaf.

use bench_cases::drawn_index;
use std::alloc::{AllocError, Global};

/// The rule by which states go to states and give outputs.
#[derive(Clone, Copy, PartialEq, Eq)]
enum Rule {
    Cycle,
    Adder,
    Still,
    Grid,
    Shift,
    Chain,
    Halves,
    Random,
    Mixed,
    Tree,
}

/// A machine: its rule, the size of its kind, its numbers of states and inputs, and the number of bits of its
/// cubes.
#[derive(Clone, Copy)]
pub(crate) struct Shape {
    rule: Rule,
    size: usize,
    states: usize,
    inputs: usize,
    depth: usize,
}

/// A number that a kind has, given by the size.
#[derive(Clone, Copy)]
enum Amount {
    Fixed(usize),
    Size,
    Square,
    Power,
}

/// A kind of machine: its rule, its numbers of states and inputs, and the number of bits of its cubes.
struct Kind {
    name: &'static str,
    rule: Rule,
    states: Amount,
    inputs: Amount,
    depth: Amount,
}

/// The kinds, by rules.
///
/// - `cycle` is a counter modulo the size, which stays at 0 and counts at 1. `still` has `size` states that
///   never move. `grid` is a product of two chains of `size` states, of which 0 moves one and 1 the other.
///   `shift` is a shift register of `size` bits. No output of these is ever 1.
/// - `chain` goes from each state to the next one, and only its last state has the output 1, so states are
///   distinguished one after another. `halves` has 256 symbols. Each state of its lower half is alike to one of
///   the upper half, and no other states are alike.
/// - `adder` has `size` states and 256 symbols, each of which is a number that is added, and `random` goes
///   where a number says that is drawn. `copies` is such a counter of four states and two symbols. `wide` has
///   16 states and `size` inputs, of which eight have bits in its rows.
/// - `long` has one state, with a row for each symbol of `size` inputs, in order; in `mixed` the rows are in
///   another order.
/// - `dense` has `size` states, each with a row for each of 256 symbols, all in the same order. `cubes` has
///   `size` states, each with 256 cubes of 32 inputs of its own. `sparse` has `size` states, each with 16 cubes
///   of 27 inputs. The last bit of a next state is the first input.
static KINDS: [Kind; 15] = [
    Kind {
        name: "cycle",
        rule: Rule::Cycle,
        states: Amount::Size,
        inputs: Amount::Fixed(1),
        depth: Amount::Fixed(1),
    },
    Kind {
        name: "still",
        rule: Rule::Still,
        states: Amount::Size,
        inputs: Amount::Fixed(1),
        depth: Amount::Fixed(0),
    },
    Kind {
        name: "grid",
        rule: Rule::Grid,
        states: Amount::Square,
        inputs: Amount::Fixed(1),
        depth: Amount::Fixed(1),
    },
    Kind {
        name: "shift",
        rule: Rule::Shift,
        states: Amount::Power,
        inputs: Amount::Fixed(1),
        depth: Amount::Fixed(1),
    },
    Kind {
        name: "chain",
        rule: Rule::Chain,
        states: Amount::Size,
        inputs: Amount::Fixed(1),
        depth: Amount::Fixed(0),
    },
    Kind {
        name: "halves",
        rule: Rule::Halves,
        states: Amount::Size,
        inputs: Amount::Fixed(8),
        depth: Amount::Fixed(8),
    },
    Kind {
        name: "adder",
        rule: Rule::Adder,
        states: Amount::Size,
        inputs: Amount::Fixed(8),
        depth: Amount::Fixed(8),
    },
    Kind {
        name: "random",
        rule: Rule::Random,
        states: Amount::Size,
        inputs: Amount::Fixed(8),
        depth: Amount::Fixed(8),
    },
    Kind {
        name: "copies",
        rule: Rule::Adder,
        states: Amount::Fixed(4),
        inputs: Amount::Fixed(1),
        depth: Amount::Fixed(1),
    },
    Kind {
        name: "wide",
        rule: Rule::Adder,
        states: Amount::Fixed(16),
        inputs: Amount::Size,
        depth: Amount::Fixed(8),
    },
    Kind {
        name: "long",
        rule: Rule::Random,
        states: Amount::Fixed(1),
        inputs: Amount::Size,
        depth: Amount::Size,
    },
    Kind {
        name: "mixed",
        rule: Rule::Mixed,
        states: Amount::Fixed(1),
        inputs: Amount::Size,
        depth: Amount::Size,
    },
    Kind {
        name: "dense",
        rule: Rule::Tree,
        states: Amount::Size,
        inputs: Amount::Fixed(8),
        depth: Amount::Fixed(8),
    },
    Kind {
        name: "cubes",
        rule: Rule::Tree,
        states: Amount::Size,
        inputs: Amount::Fixed(32),
        depth: Amount::Fixed(8),
    },
    Kind {
        name: "sparse",
        rule: Rule::Tree,
        states: Amount::Size,
        inputs: Amount::Fixed(27),
        depth: Amount::Fixed(4),
    },
];

/// The number that an amount says, for a size.
fn number_of(amount: Amount, size: usize) -> usize {
    match amount {
        Amount::Fixed(number) => number,
        Amount::Size => size,
        Amount::Square => size.wrapping_mul(size),
        Amount::Power => 1 << size.min(16),
    }
}

/// The machine of the given kind and size, of at most 256 states and 32 inputs.
pub(crate) fn shape_of(name: &str, size: usize) -> Option<Shape> {
    for kind in &KINDS {
        if kind.name == name {
            return Some(Shape {
                rule: kind.rule,
                size,
                states: number_of(kind.states, size).min(256),
                inputs: number_of(kind.inputs, size).min(32),
                depth: number_of(kind.depth, size).min(16),
            });
        }
    }
    None
}

/// The text of a machine.
pub(crate) fn text_of(alloc: Global, shape: Shape) -> Result<Vec<u8>, AllocError> {
    let mut text = Vec::new(alloc);
    add_text(&mut text, shape)?;
    Ok(text)
}

/// Adds the text of a machine.
fn add_text(text: &mut Vec<u8>, shape: Shape) -> Result<(), AllocError> {
    let (tens, ones) = (digit(shape.inputs / 10), digit(shape.inputs));
    text.extend_from_slice(&[b'.', b'i', b' ', tens, ones, b'\n'])?;
    text.extend_from_slice(b".o 1\n")?;
    for state in 0..shape.states {
        add_state(text, shape, state)?;
    }
    text.extend_from_slice(b".e\n")
}

/// Adds the rows of a state.
fn add_state(text: &mut Vec<u8>, shape: Shape, state: usize) -> Result<(), AllocError> {
    let rows = 1usize << shape.depth.min(16);
    for number in 0..rows {
        let number = if shape.rule == Rule::Mixed {
            number.wrapping_mul(40_503) % rows
        } else {
            number
        };
        let field = field_of(shape, state, number);
        text.extend_from_slice(&field[..shape.inputs.min(32)])?;
        text.extend_from_slice(&ending_of(shape, state, number))?;
    }
    Ok(())
}

/// The input field of a row, filled up with dashes.
fn field_of(shape: Shape, state: usize, number: usize) -> [u8; 32] {
    let mut field = [b'-'; 32];
    let depth = shape.depth.min(16);
    for level in 0..depth {
        let place = place_of(
            shape,
            state,
            level,
            (number | 1 << depth) >> (depth - level),
        );
        if place < 32 {
            field[place] = bit_character(number >> (depth - 1 - level) & 1 == 1);
        }
    }
    field
}

/// The input that is asked at a level after these answers. In a tree it is one of several, but at the first
/// level it is the first input.
fn place_of(shape: Shape, state: usize, level: usize, answers: usize) -> usize {
    let choices = shape.inputs / shape.depth.max(1);
    if level == 0 || shape.rule != Rule::Tree || choices == 0 {
        return level;
    }
    (drawn_index(state, answers) % choices)
        .wrapping_mul(shape.depth)
        .wrapping_add(level)
}

/// The end of a row after its input field.
fn ending_of(shape: Shape, state: usize, number: usize) -> [u8; 13] {
    let next = next_of(shape, state, number) % shape.states.max(1);
    [
        b' ',
        b's',
        digit(state / 100),
        digit(state / 10),
        digit(state),
        b' ',
        b's',
        digit(next / 100),
        digit(next / 10),
        digit(next),
        b' ',
        bit_character(gives_one(shape, state, number)),
        b'\n',
    ]
}

/// The number whose remainder by the number of states is the state that it goes to.
fn next_of(shape: Shape, state: usize, number: usize) -> usize {
    match shape.rule {
        Rule::Cycle | Rule::Adder => state.wrapping_add(number),
        Rule::Still => state,
        Rule::Grid => grid_next(shape.size.clamp(1, 16), state, number),
        Rule::Shift => state.wrapping_mul(2).wrapping_add(number),
        Rule::Chain => state.wrapping_add(1).min(shape.states.saturating_sub(1)),
        Rule::Halves => lower(shape, state)
            .wrapping_mul(37)
            .wrapping_add(number.wrapping_mul(11)),
        Rule::Random | Rule::Mixed => drawn_index(state, number),
        Rule::Tree => {
            let half = drawn_index(state, number) % (shape.states / 2).max(1);
            half.wrapping_mul(2)
                .wrapping_add(first_answer(shape, number))
        }
    }
}

/// Where a state of a grid goes.
fn grid_next(side: usize, state: usize, number: usize) -> usize {
    let (row, column) = (state / side.max(1), state % side.max(1));
    let last = side.wrapping_sub(1);
    if number == 0 {
        row.wrapping_add(1)
            .min(last)
            .wrapping_mul(side)
            .wrapping_add(column)
    } else {
        row.wrapping_mul(side)
            .wrapping_add(column.wrapping_add(1).min(last))
    }
}

/// Whether the output is 1. In halves, the output at symbol i below 8 is the last bit of the state's number in
/// its half divided by i + 1.
fn gives_one(shape: Shape, state: usize, number: usize) -> bool {
    match shape.rule {
        Rule::Cycle | Rule::Still | Rule::Grid | Rule::Shift => false,
        Rule::Adder | Rule::Chain => state.wrapping_add(1) == shape.states,
        Rule::Halves => number < 8 && lower(shape, state) / (number + 1) % 2 == 1,
        Rule::Random | Rule::Mixed | Rule::Tree => drawn_index(number, state) & 1 == 1,
    }
}

/// The number of the state in its half.
fn lower(shape: Shape, state: usize) -> usize {
    state % (shape.states / 2).max(1)
}

/// The first answer on the way to a row.
fn first_answer(shape: Shape, number: usize) -> usize {
    (number >> shape.depth.clamp(1, 16) - 1) & 1
}

/// The last decimal digit of a number.
fn digit(number: usize) -> u8 {
    b'0' + (number % 10) as u8
}

fn bit_character(bit: bool) -> u8 {
    if bit { b'1' } else { b'0' }
}
