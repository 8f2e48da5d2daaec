//! Terms over the columns of a gate.

ghost use Rattle.std.specs.Prelude.{◌≡◌, ℕ, ◌+◌, ◌^◌, ◌<◌, ◌≤◌, ◌↔◌, All, length, map};
ghost use Rattle.std.specs.List.Sorted.{IsStrictlyIncreasing};
ghost use Rattle.cover_terms.specs.Term.{Holds};
ghost use Rattle.cubes.specs.Symbol as symbols;
ghost use Rattle.gate_rows.specs.Columns.{IsTermOf};
ghost use Rattle.gate_rows.specs.Inner.Literals.{
  AllowsFrom,
  HasCharacters,
  code_character,
  columns_of,
  input_character,
};

use cover_logic::Term;
use cubes::{Cube, bit};

/// The term of what a gate reads for the symbols of a cube and for a word: the characters of the cube for the
/// read inputs, and then the bits of the word at the read places. Column c is the bit of value 2^c. Input 0 is
/// the first character of the cube.
pub fn term_of(cube: &Cube, inputs: &[u8], word: u64, places: &[u8]) -> Term
    requires inputs { All (λ a. a < cube.now.width) inputs.now }
    requires ascending { IsStrictlyIncreasing inputs.now }
    requires places { All (λ c. c < 64) places.now }
    requires width { length inputs.now + length places.now ≤ 128 }
    ensures { IsTermOf inputs.now places.now cube.now word result }
{
    characters_term(cube, inputs, word, places)
}

/// The term with the characters of the columns.
fn characters_term(cube: &Cube, inputs: &[u8], word: u64, places: &[u8]) -> Term
    requires inputs { All (λ a. a < cube.now.width) inputs.now }
    requires places { All (λ c. c < 64) places.now }
    requires width { length inputs.now + length places.now ≤ 128 }
    ensures { HasCharacters (columns_of inputs.now places.now cube.now word) result }
{
    with_code(input_term(cube, inputs), inputs.len(), word, places)
}

/// The term of the read inputs.
fn input_term(cube: &Cube, inputs: &[u8]) -> Term
    requires inputs { All (λ a. a < cube.now.width) inputs.now }
    requires width { length inputs.now ≤ 128 }
    ensures { HasCharacters (map (input_character cube.now) inputs.now) result }
{
    let Some((last, others)) = inputs.split_last() else {
        return Term { care: 0, value: 0 };
    };
    let term = input_term(cube, others);
    match character(cube, *last) {
        Some(one) => with_literal(term, others.len(), one),
        None => term,
    }
}

/// The term with the read bits of a word after its first `count` columns.
fn with_code(start: Term, count: usize, word: u64, places: &[u8]) -> Term
    requires fits { start.care < 2 ^ count }
    requires places { All (λ c. c < 64) places.now }
    requires width { count + length places.now ≤ 128 }
    ensures fits { result.care < 2 ^ (count + length places.now) }
    ensures holds { (v : ℕ) → Holds result v
        ↔ (Holds start v × AllowsFrom count (map (code_character word) places.now) v) }
{
    let Some((last, others)) = places.split_last() else {
        return start;
    };
    let term = with_code(start, count, word, others);
    with_literal(term, count + others.len(), bit(word, usize::from(*last)))
}

/// The character of a cube for an input.
fn character(cube: &Cube, input: u8) -> Option<bool>
    requires { input < cube.now.width }
    ensures { result ≡ input_character cube.now input }
{
    let place = usize::from(cube.width - 1 - input);
    if bit(u64::from(cube.care), place) {
        Some(bit(u64::from(cube.value), place))
    } else {
        None
    }
}

/// The term with a literal at a column after those of all its literals.
fn with_literal(term: Term, column: usize, one: bool) -> Term
    requires column { column < 128 }
    requires fits { term.care < 2 ^ column }
    ensures fits { result.care < 2 ^ (column + 1) }
    ensures holds { (v : ℕ) → Holds result v ↔ (Holds term v × (symbols.bit v column ≡ one)) }
{
    let literal = 1u128 << column;
    let value = if one {
        term.value | literal
    } else {
        term.value
    };
    Term {
        care: term.care | literal,
        value,
    }
}
