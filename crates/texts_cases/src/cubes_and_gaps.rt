//! Cubes and gaps.

ghost use Rattle.std.specs.Prelude.{◌≡◌, ◌<◌, ◌≤◌, All, OnOk};

use crate::words::{cut, number, pieces, truth};
use case_lines::Answer;
use cubes::{Cube, CubeFail, first_gap};
use hs_io::Name;
use std::alloc::{AllocError, Global};

/// Puts what a call answers.
pub(crate) fn put_answer(alloc: Global, call: &str, words: &[u8], answer: &mut Answer) {
    let (first, second) = cut(words, b' ');
    match call {
        "parse" => put_parsed(first, second, answer),
        "holds" => answer.add(truth(holds(first, second))),
        "meets" => answer.add(truth(meets(first, second))),
        _ => put_gap(alloc, first, second, answer),
    }
}

/// The number of places of a cube that a word says.
fn places(word: &[u8]) -> u8
    ensures positive { 0 < result }
    ensures bound { result ≤ 32 }
{
    number(word).clamp(1, 32) as u8
}

/// Puts what a text is read as.
fn put_parsed(width: &[u8], text: &[u8], answer: &mut Answer) {
    match Cube::parse(text, places(width)) {
        Ok(cube) => put_cube(&cube, answer),
        Err(CubeFail::BadWidth { found }) => put_fault(b"width ", found, answer),
        Err(CubeFail::BadChar { place }) => put_fault(b"place ", place, answer),
    }
}

/// Puts what is wrong with a text, and the number of it.
fn put_fault(what: &[u8], number: usize, answer: &mut Answer) {
    answer.add(what);
    answer.add_number(number as u64);
}

/// Puts the bits of care and of value, and the width.
pub(crate) fn put_cube(cube: &Cube, answer: &mut Answer) {
    answer.add_displayed(format_args!("{:x} {:x} {}", cube.care, cube.value, cube.width));
}

/// Whether a cube of three places holds the symbol with this number.
fn holds(text: &[u8], symbol: &[u8]) -> bool {
    let x = number(symbol).min(7) as u32;
    match Cube::parse(text, 3) {
        Ok(cube) => cube.holds(x),
        Err(_) => false,
    }
}

/// Whether two cubes of three places have a symbol in common.
fn meets(text: &[u8], other: &[u8]) -> bool {
    match (Cube::parse(text, 3), Cube::parse(other, 3)) {
        (Ok(cube), Ok(other)) => cube.meets(&other),
        _ => false,
    }
}

/// Puts the least symbol that no cube holds.
fn put_gap(alloc: Global, width: &[u8], texts: &[u8], answer: &mut Answer) {
    match gap_of(alloc, texts, places(width)) {
        Ok(Some(gap)) => answer.add_displayed(format_args!("{gap:x}")),
        Ok(None) => answer.add(b"none"),
        Err(_) => answer.fail(),
    }
}

/// The least symbol that no cube of the fields of a text holds.
fn gap_of(alloc: Global, texts: &[u8], width: u8) -> Result<Option<u32>, AllocError>
    requires positive { 0 < width }
    requires bound { width ≤ 32 }
{
    let texts = pieces(alloc, texts, b' ')?;
    gap(alloc, texts.as_slice(), width)
}

/// The least symbol that no cube of these fields holds. Fields of another width are left out.
pub(crate) fn gap(alloc: Global, fields: &[Name], width: u8) -> Result<Option<u32>, AllocError>
    requires positive { 0 < width }
    requires bound { width ≤ 32 }
{
    let mut cubes = Vec::new(alloc);
    add_cubes(fields, width, &mut cubes)?;
    first_gap(alloc, cubes.as_slice(), width)
}

/// Adds the cubes of the fields that have a width.
fn add_cubes(fields: &[Name], width: u8, cubes: &mut Vec<Cube>) -> Result<(), AllocError>
    requires positive { 0 < width }
    requires bound { width ≤ 32 }
    requires old { All (λ cube. cube.width ≡ width) cubes.old.items }
    ensures { OnOk result (All (λ cube. cube.width ≡ width) cubes.new.items) }
{
    for field in fields {
        if let Ok(cube) = Cube::parse(field.bytes(), width) {
            cubes.push(cube)?;
        }
    }
    Ok(())
}
