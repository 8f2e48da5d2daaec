//! The rows.

ghost use Rattle.std.specs.Prelude.{◌≡◌, ◌+◌, ◌-◌, ◌*◌, ◌^◌, ◌<◌, ◌≤◌, IfOk, length, slice_index_or};
ghost use Rattle.machine_gen.specs.Inner.Draws.{IsRowOfPlace, place_of};
ghost use Rattle.machine_gen.specs.WordMachine.{AreRows, AreSizes};
ghost use Rattle.machine_gen.specs.Words.{word};

use crate::draws::{Draw, draws};
use cubes::Cube;
use kiss_file::{KissRow, Rows};
use std::alloc::{AllocError, Global};

/// The place of a row: the parts of its state, and the number of its symbol.
#[derive(Clone, Copy)]
struct Place {
    first: u16,
    second: u16,
    symbol: u16,
}

/// The number of symbols of k inputs.
fn symbols(k: u8) -> usize
    requires { k ≤ 8 }
    ensures { result ≡ 2 ^ k }
{
    1 << k
}

/// The care of a cube of k characters with no dash.
fn full_care(k: u8) -> u32
    requires { k ≤ 8 }
    ensures { result ≡ 2 ^ k - 1 }
{
    (1 << k) - 1
}

/// The place of the row with the given number, counted by state and then by symbol.
fn place_at(b: u16, k: u8, number: usize) -> Place
    requires some_b { 0 < b }
    requires inputs { k ≤ 8 }
    requires few { number < 65536 }
    ensures { result ≡ place_of b k number }
{
    let symbols = symbols(k);
    let state = (number / symbols) as u16;
    Place {
        first: state / b,
        second: state % b,
        symbol: (number % symbols) as u16,
    }
}

/// The row of a place, which goes to the given state.
fn row(b: u16, k: u8, place: Place, state: u16) -> KissRow
    requires some_inputs { 0 < k }
    requires inputs { k ≤ 8 }
    requires symbol { place.symbol < 2 ^ k }
    requires from { place.first * b + place.second < 65536 }
    ensures { IsRowOfPlace b k place state result }
{
    KissRow {
        cube: Cube {
            care: full_care(k),
            value: u32::from(place.symbol),
            width: k,
        },
        from: place.first * b + place.second,
        to: Some(state),
        care: 3,
        value: u64::from(place.first == 0) + 2 * u64::from(place.second == 0),
    }
}

/// What was drawn for a part and a symbol.
fn drawn(draws: &[Draw], symbols: usize, part: u16, symbol: u16) -> Draw
    requires { part * symbols + symbol < length draws.now }
    ensures { result ≡ slice_index_or draws.now (part * symbols + symbol) result }
{
    draws[usize::from(part) * symbols + usize::from(symbol)]
}

/// The rows of the machine of a seed.
pub(crate) fn rows(alloc: Global, seed: u64, a: u16, b: u16, k: u8) -> Result<Rows, AllocError>
    requires { AreSizes a b k }
    ensures { IfOk result (AreRows (word seed) a b k) }
{
    let symbols = symbols(k);
    let draws = draws(alloc, seed, a, b, usize::from(a.max(b)) * symbols)?;
    let mut rows = Rows::new(alloc);
    for number in 0..usize::from(a * b) * symbols {
        let place = place_at(b, k, number);
        let first = drawn(draws.as_slice(), symbols, place.first, place.symbol).first;
        let second = drawn(draws.as_slice(), symbols, place.second, place.symbol).second;
        rows.push(row(b, k, place, first * b + second))?;
    }
    Ok(rows)
}
