//! Input cubes, and the first symbol that a list of them leaves out.
//!
//! A symbol is a list of bits, and its number is its text read in binary, the first character the most
//! significant bit. A [`Cube`] is an input field: as many characters `0`, `1` or `-` as a symbol has bits. It
//! holds a symbol if each character that is not a dash is the symbol's bit at that place.
//!
//! The definitions are in `specs/`: `Symbol` has symbols and their numbers, `Field` the characters of a field,
//! `Cube` what a cube holds and where two cubes meet, and `Gap` the first symbol that a list leaves out. They
//! speak of characters and bits one by one. The code compares whole numbers under masks, and `first_gap` halves
//! the symbols by one bit at a time. What follows from the definitions is in `Laws`.
#![tactic(auto)]

mod cube;
mod gap;
mod laws;
mod symbol;

pub use cube::{Cube, CubeFail};
pub use gap::first_gap;
pub use laws::{
    apart_cubes_differ, ends_of_a_cube, holding_is_decided, parts_of_cubes, places_of_a_cube,
    symbols_are_numbers, worked_symbols,
};
pub use symbol::{bit, digit_of};
