//! Covers of gates.

use crate::gates::{Gate, gate_of, gates_of};
use anyhow::{Error, bail};
use bench_cases::Case;
use cover_logic::{Term, can_cover, cover};
use std::alloc::Global;

/// The numbers of rows and of literals of the covers of all gates of a kind.
pub(crate) fn answer(alloc: Global, case: Case<'_>) -> Result<(usize, usize), Error> {
    let mut counts = (0usize, 0usize);
    for number in 0..gates_of(case.kind, case.size) {
        let gate = gate_of(alloc, case.kind, case.size, number)?;
        let (rows, literals) = worked(alloc, &gate, case)?;
        counts = (counts.0.wrapping_add(rows), counts.1.wrapping_add(literals));
    }
    Ok(counts)
}

/// The same two numbers for one gate.
fn worked(alloc: Global, gate: &Gate, case: Case<'_>) -> Result<(usize, usize), Error> {
    let mut counts = (0, 0);
    for _ in 0..case.times {
        if !can_cover(&gate.on, &gate.off, gate.width) {
            bail!("the lists meet");
        }
        if case.work == "cover" {
            counts = counted(&cover(alloc, &gate.on, &gate.off, gate.width)?);
        }
    }
    Ok(counts)
}

/// The number of terms, and the number of their literals.
fn counted(terms: &[Term]) -> (usize, usize) {
    let mut literals = 0usize;
    for term in terms {
        literals = literals.wrapping_add(term.care.count_ones() as usize);
    }
    (terms.len(), literals)
}
