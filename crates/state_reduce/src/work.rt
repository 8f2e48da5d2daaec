//! The machine that a command works on.

ghost use Rattle.std.specs.Prelude.{◌≡◌, ◌<◌, Bool, IfOk, Some, length, slice_get, true};
ghost use Rattle.kiss_file.specs.LawfulFile.{IsLawful};
ghost use Rattle.kiss_file.specs.Machine.{Accepted};
ghost use Rattle.machine_table.specs.Table.{IsTable};
ghost use Rattle.state_reduce.specs.AlikeStates.{IsEquivalence};
ghost use Rattle.state_reduce.specs.Quotient.{AreBlocksInOrder, IsQuotient};
ghost use Rattle.state_reduce.specs.Work.{IsWork};

use crate::{QuotientFail, equivalence, quotient};
use kiss_file::{Fill, KissFile, StateNames};
use machine_table::Machine;
use partition::Partition;
use std::alloc::{AllocError, Global};

/// The machine that a command works on, with its file: the machine of the file, or the machine of the classes of the
/// file's alike states. In the second case there are also the partition of the file's states into these classes, and
/// the names of the classes.
#[derive(Drop)]
pub struct WorkMachine<'a> {
    pub file: &'a KissFile,
    pub machine: Machine,
    pub classes: Option<Partition>,
    pub names: Option<StateNames>,
}

/// The machine that a command works on. With `reduce` its states are the classes of alike states of the file's
/// machine, in the order of their least states; without, it is the file's machine.
pub fn work_machine<'a>(
    alloc: Global,
    file: &'a KissFile,
    machine: Machine,
    fill: Fill,
    reduce: bool,
) -> Result<WorkMachine<'a>, AllocError>
    requires lawful { IsLawful file.now }
    requires accepted { Accepted file.now fill }
    requires machine { machine ≡ file.now }
    ensures { IfOk result (IsWork reduce file.now) }
{
    if reduce {
        reduced(alloc, file, &machine, fill)
    } else {
        Ok(WorkMachine {
            file,
            machine,
            classes: None,
            names: None,
        })
    }
}

/// The name of a state of the machine that a command works on: a class has the name of its least state.
pub fn state_name<'a>(work: &'a WorkMachine<'_>, s: usize) -> &'a [u8]
    requires work { (reduce : Bool) × IsWork reduce work.now.file.now work.now }
    requires state { s < length work.now.machine.states }
    ensures { slice_get work.now.machine.states s ≡ Some result.now }
{
    match &work.names {
        Some(names) => names.name(s),
        None => work.file.states.name(s),
    }
}

/// The machine of the classes of alike states.
fn reduced<'a>(
    alloc: Global,
    file: &'a KissFile,
    machine: &Machine,
    fill: Fill,
) -> Result<WorkMachine<'a>, AllocError>
    requires lawful { IsLawful file.now }
    requires accepted { Accepted file.now fill }
    requires machine { machine.now ≡ file.now }
    ensures { IfOk result (IsWork true file.now) }
{
    let classes = equivalence(alloc, machine)?;
    let quotient = file_of_classes(alloc, file, machine, &classes, fill)?;
    let machine = Machine::of_accepted(alloc, &quotient, fill)?;
    Ok(WorkMachine {
        file,
        machine,
        classes: Some(classes),
        names: Some(quotient.states),
    })
}

/// The file of the classes of alike states.
fn file_of_classes(
    alloc: Global,
    file: &KissFile,
    machine: &Machine,
    classes: &Partition,
    fill: Fill,
) -> Result<KissFile, AllocError>
    requires lawful { IsLawful file.now }
    requires accepted { Accepted file.now fill }
    requires machine { machine.now ≡ file.now }
    requires alike { IsEquivalence file.now classes.now }
    ensures quotient { IfOk result (IsQuotient file.now classes.now) }
    ensures in_order { IfOk result (AreBlocksInOrder file.now classes.now) }
    ensures table { IfOk result IsTable }
    ensures accepted { IfOk result (λ reduced. Accepted reduced fill) }
{
    match quotient(alloc, file, machine, classes) {
        Ok(reduced) => Ok(reduced),
        Err(QuotientFail::NoMemory) => Err(AllocError),
        Err(QuotientFail::NotClosed { .. }) => unreachable!(),
        Err(QuotientFail::NotConsistent { .. }) => unreachable!(),
    }
}
