//! The states after all contents of the register, and their classes for an output.

ghost use Rattle.std.specs.Prelude.{◌≡◌, ◌*◌, ◌<◌, ◌≤◌, All, IfOk, IsTrue, Contains, ◌↔◌, length, map, slice_index};
ghost use Rattle.shift_real.specs.Inner.Contents.{AreContents};
ghost use Rattle.shift_real.specs.Inner.Tables.{AreFirsts, IsFirstAlike, IsStateTable};

use crate::contents::Content;
use machine_table::Machine;
use std::alloc::{AllocError, Global};

/// The states after the contents of k symbols, each at the number whose bits are the latches, latch i at 2^i.
pub(crate) fn state_table(
    alloc: Global,
    m: &Machine,
    k: usize,
    contents: &[Content],
) -> Result<Vec<u16>, AllocError>
    requires short { k * m.now.inputs ≤ 12 }
    requires contents { AreContents m.now k contents.now }
    ensures { IfOk result (λ table. IsStateTable m.now k table.items) }
{
    m.keeps_its_states();
    let size = 1usize << (k * usize::from(m.inputs()));
    let mut table = vec![in alloc; 0u16; size]?;
    for content in contents {
        table[content.latches as usize] = content.state;
    }
    Ok(table)
}

/// For each state, the first state that gives the same bit of the output at each symbol.
pub(crate) fn first_alike(alloc: Global, m: &Machine, b: u8) -> Result<Vec<u16>, AllocError>
    requires { b < m.now.outputs }
    ensures { IfOk result (λ firsts. AreFirsts m.now b (length m.now.states) firsts.items) }
{
    let mut firsts = Vec::new(alloc);
    for s in 0..m.states() {
        let first = first_for(m, &firsts, b, s);
        firsts.push(first as u16)?;
    }
    Ok(firsts)
}

/// The first state that is alike to s. Only states that are the first of their class are compared with s.
fn first_for(m: &Machine, firsts: &[u16], b: u8, s: usize) -> usize
    requires output { b < m.now.outputs }
    requires state { s < length m.now.states }
    requires firsts { AreFirsts m.now b s firsts.now }
    ensures { IsFirstAlike m.now b s result }
{
    for (t, first) in firsts.iter().enumerate() {
        if usize::from(*first) == t && m.bit_agrees(t, s, b) {
            return t;
        }
    }
    s
}

/// For each state of a table, the first state that is alike to it.
pub(crate) fn classes_of(
    alloc: Global,
    firsts: &[u16],
    table: &[u16],
) -> Result<Vec<u16>, AllocError>
    requires { All (λ s. s < length firsts.now) table.now }
    ensures { IfOk result (λ classes. classes.items ≡ map (slice_index firsts.now) table.now) }
{
    let mut classes = Vec::new(alloc);
    for s in table {
        classes.push(firsts[usize::from(*s)])?;
    }
    Ok(classes)
}

/// Whether the state is one of these.
pub(crate) fn is_among(states: &[u16], state: usize) -> bool
    ensures { IsTrue result ↔ Contains states.now state }
{
    for s in states {
        if usize::from(*s) == state {
            return true;
        }
    }
    false
}
