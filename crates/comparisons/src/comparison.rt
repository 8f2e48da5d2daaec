//! The text of a comparison.

ghost use Rattle.std.specs.Prelude.{◌≡◌, ◌≢◌, ◌++◌, Bool, IfOk, OnOk};
ghost use Rattle.std.specs.List.{AllByRecursion};
ghost use Rattle.comparisons.specs.Comparison.{IsCompared};
ghost use Rattle.comparisons.specs.Inner.KindLines.{HasKindLines};
ghost use Rattle.hs_io.specs.Spelling.{ended};
ghost use Rattle.kiss_file.specs.LawfulFile.{IsLawful};
ghost use Rattle.kiss_file.specs.Machine.{Accepted, Conflicting};
ghost use Rattle.state_codes.specs.declared.split.Kind.TheVariants as kinds;
ghost use Rattle.state_reduce.specs.Work.{IsWork};

use crate::lines::{kind_line, register_line};
use kiss_file::{Fill, KissFile};
use machine_table::Machine;
use state_codes::Kind;
use state_reduce::{WorkMachine, work_machine};
use std::alloc::{AllocError, Global};

/// The kinds that are compared, in order.
const COMPARED: &[Kind] = &[
    Kind::Code,
    Kind::Parallel,
    Kind::Serial,
    Kind::Cascade,
    Kind::Feedback,
    Kind::Least,
];

/// The lines of the kinds that need no operand, and of the register: the counts of each network, or why there is
/// none. With `reduce` the machine that is worked on is the machine of the classes of alike states.
pub fn compare(
    alloc: Global,
    file: &KissFile,
    machine: Machine,
    fill: Fill,
    reduce: bool,
) -> Result<Vec<u8>, AllocError>
    requires lawful { IsLawful file.now }
    requires accepted { Accepted file.now fill }
    requires machine { machine ≡ file.now }
    ensures { IfOk result (λ text. IsCompared reduce file.now text.items) }
{
    let work = work_machine(alloc, file, machine, fill, reduce)?;
    compare_work(alloc, &work)
}

/// The lines of a machine that `work_machine` gives.
fn compare_work(alloc: Global, work: &WorkMachine) -> Result<Vec<u8>, AllocError>
    requires lawful { IsLawful work.now.file.now }
    requires no_conflict { Conflicting work.now.file.now → ⊥ }
    requires work { (reduce : Bool) × IsWork reduce work.now.file.now work.now }
    ensures { (reduce : Bool) → IsWork reduce work.now.file.now work.now
        → IfOk result (λ text. IsCompared reduce work.now.file.now text.items) }
{
    let mut text = kind_lines(alloc, COMPARED, work)?;
    let last = register_line(alloc, work)?;
    append_line(&mut text, last.as_slice())?;
    Ok(text)
}

/// The lines of kinds.
fn kind_lines(alloc: Global, compared: &[Kind], work: &WorkMachine) -> Result<Vec<u8>, AllocError>
    requires operands { AllByRecursion (λ kind. kind ≢ kinds.Assign) compared.now }
    requires lawful { IsLawful work.now.file.now }
    requires no_conflict { Conflicting work.now.file.now → ⊥ }
    requires work { (reduce : Bool) × IsWork reduce work.now.file.now work.now }
    ensures { (reduce : Bool) → IsWork reduce work.now.file.now work.now
        → IfOk result (λ text. HasKindLines reduce work.now.file.now compared.now text.items) }
{
    let mut text = Vec::new(alloc);
    for kind in compared {
        let line = kind_line(alloc, *kind, work)?;
        append_line(&mut text, line.as_slice())?;
    }
    Ok(text)
}

/// Appends a line, and the line feed that ends it.
fn append_line(text: &mut Vec<u8>, line: &[u8]) -> Result<(), AllocError>
    ensures { OnOk result (text.new.items ≡ text.old.items ++ ended line.now) }
{
    text.extend_from_slice(line)?;
    Ok(text.push(b'\n')?)
}
