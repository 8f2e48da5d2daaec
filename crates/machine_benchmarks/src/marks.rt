//! Alike states, found plainly: pairs that are not alike are marked, by their outputs or by their next states,
//! until a pass through all pairs marks no more.

ghost use Rattle.std.specs.Prelude.{◌<◌, length};

use machine_table::Machine;
use std::alloc::{AllocError, Global};

/// The number of classes of alike states.
pub(crate) fn classes(alloc: Global, m: &Machine) -> Result<usize, AllocError> {
    let mut marks = vec![in alloc; false; 65_536]?;
    for _ in 0..m.states() {
        if !marks_more(alloc, m, &mut marks)? {
            break;
        }
    }
    Ok(firsts(&marks, m.states()))
}

/// The place of the mark of two states.
fn place_of(s: usize, t: usize) -> usize {
    s.wrapping_mul(256).wrapping_add(t)
}

/// Whether two states are marked.
fn has(marks: &[bool], s: usize, t: usize) -> bool {
    let place = place_of(s, t);
    place < marks.len() && marks[place]
}

/// Goes through all pairs, and returns whether some were marked.
fn marks_more(alloc: Global, m: &Machine, marks: &mut [bool]) -> Result<bool, AllocError> {
    let mut more = false;
    for s in 0..m.states() {
        if mark_state(alloc, m, marks, s)? {
            more = true;
        }
    }
    Ok(more)
}

/// Goes through the pairs of one state, and returns whether some were marked.
fn mark_state(alloc: Global, m: &Machine, marks: &mut [bool], s: usize) -> Result<bool, AllocError>
    requires { s < length m.now.states }
{
    let mut more = false;
    for t in 0..m.states() {
        let place = place_of(s, t);
        if place < marks.len() && !marks[place] && is_apart(alloc, m, marks, s, t)? {
            marks[place] = true;
            more = true;
        }
    }
    Ok(more)
}

/// Whether the outputs of two states differ, or some symbol leads them to two states that are marked.
fn is_apart(
    alloc: Global,
    m: &Machine,
    marks: &[bool],
    s: usize,
    t: usize,
) -> Result<bool, AllocError>
    requires s { s < length m.now.states }
    requires t { t < length m.now.states }
{
    if !m.outputs_agree(s, t) {
        return Ok(true);
    }
    let images = m.images(alloc, s, t)?;
    Ok(some_marked(&images, marks))
}

/// Whether some of these pairs are marked.
fn some_marked(pairs: &[(u16, u16)], marks: &[bool]) -> bool {
    for (u, v) in pairs {
        if has(marks, usize::from(*u), usize::from(*v)) {
            return true;
        }
    }
    false
}

/// The number of states that are alike to no state before them.
fn firsts(marks: &[bool], states: usize) -> usize {
    let mut count = 0usize;
    for s in 0..states {
        count = count.wrapping_add(usize::from(is_first(marks, s)));
    }
    count
}

/// Whether the state is alike to no state before it.
fn is_first(marks: &[bool], s: usize) -> bool {
    for t in 0..s {
        if !has(marks, t, s) {
            return false;
        }
    }
    true
}
