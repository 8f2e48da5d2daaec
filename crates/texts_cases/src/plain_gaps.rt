//! Every list of up to three cubes of three places, compared with a plain count over the eight symbols.

use crate::cubes_and_gaps::gap;
use hs_io::{Name, Names};
use std::alloc::{AllocError, Global};
use std::io;

/// Whether all lists agree. Prints the number of lists if they do, and else each list that differs.
pub(crate) fn agree(rt: &HostRuntime) -> io::Result<bool> {
    let mut all = true;
    for number in 0..28 * 28 * 28usize {
        if !agrees(rt.alloc(), number)? {
            println!(rt; "small cubes: list {number} differs")?;
            all = false;
        }
    }
    if all {
        println!(rt; "lists of small cubes: 21952 cases")?;
    }
    Ok(all)
}

/// Whether the first gap of a list is the one that the plain count finds.
fn agrees(alloc: Global, number: usize) -> Result<bool, AllocError> {
    let mut fields = Names::new(alloc);
    add_fields(alloc, number, &mut fields)?;
    Ok(gap(alloc, fields.as_slice(), 3)? == plain_gap(fields.as_slice()))
}

/// Adds up to three fields of three characters, by number: three digits below 28, of which 27 means no field.
fn add_fields(alloc: Global, number: usize, fields: &mut Names) -> Result<(), AllocError> {
    for digit in [number / 784 % 28, number / 28 % 28, number % 28] {
        if digit < 27 {
            fields.push(Name::new(alloc, &small_field(digit))?)?;
        }
    }
    Ok(())
}

/// The field of three characters with this number.
fn small_field(number: usize) -> [u8; 3] {
    let characters = [b'0', b'1', b'-'];
    [
        characters[number / 9 % 3],
        characters[number / 3 % 3],
        characters[number % 3],
    ]
}

/// The least of the eight symbols that no field allows.
fn plain_gap(fields: &[Name]) -> Option<u32> {
    for x in 0..8 {
        if !any_allows(fields, x) {
            return Some(x);
        }
    }
    None
}

/// Whether a field allows a symbol.
fn any_allows(fields: &[Name], x: u32) -> bool {
    for field in fields {
        if allows(field.bytes(), x) {
            return true;
        }
    }
    false
}

/// Whether a field allows the three bits of a number, character by character.
fn allows(field: &[u8], x: u32) -> bool {
    match field {
        [first, second, third] => {
            is_allowed(*first, x / 4 % 2)
                && is_allowed(*second, x / 2 % 2)
                && is_allowed(*third, x % 2)
        }
        _ => false,
    }
}

/// Whether a character allows a bit.
fn is_allowed(character: u8, bit: u32) -> bool {
    match character {
        b'0' => bit == 0,
        b'1' => bit == 1,
        _ => true,
    }
}
