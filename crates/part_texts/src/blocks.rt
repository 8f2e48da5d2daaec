//! The states of the machine of a part: the blocks of its partition.

ghost use Rattle.std.specs.Prelude.{◌≡◌, [], ◌∷◌, All, Bool, IfOk, Some, length};
ghost use Rattle.part_machines.specs.PartMachine as machines;
ghost use Rattle.part_machines.specs.Which as bits;
ghost use Rattle.part_texts.specs.Inner.PartHere.{IsThere, names_of_blocks};
ghost use Rattle.state_codes.specs.declared.Codes.{Codes};
ghost use Rattle.state_codes.specs.Split.{IsPart};
ghost use Rattle.state_reduce.specs.Work.{IsWork};

use kiss_file::StateNames;
use machine_table::Machine;
use partition::Partition;
use state_codes::{Part, Which};
use state_reduce::{WorkMachine, state_name};
use std::alloc::{AllocError, Global};

/// The partition whose blocks are the states of the machine of the part. The machine of the outputs has one state.
pub(crate) fn partition_of(
    alloc: Global,
    machine: &Machine,
    parts: &[Part],
    which: Which,
) -> Result<Partition, AllocError>
    requires parts { All (IsPart (length machine.now.states)) parts.now }
    requires there { (codes : Codes) × IsThere parts.now codes which }
    ensures partition { IfOk result (λ p. bits.partition_of machine.now parts.now which ≡ Some p) }
    ensures size { IfOk result (λ p. length p ≡ length machine.now.states) }
{
    match which {
        Which::Part(part) => parts[part].partition.copy(alloc),
        Which::Outputs => Partition::one(alloc, machine.states()),
    }
}

/// The names of the states of the machine of the part.
pub(crate) fn state_names(
    alloc: Global,
    work: &WorkMachine,
    p: &Partition,
    which: Which,
) -> Result<StateNames, AllocError>
    requires work { (reduce : Bool) × IsWork reduce work.now.file.now work.now }
    requires size { length p.now ≡ length work.now.machine.states }
    ensures { IfOk result (λ names. names ≡ machines.state_names work.now.machine p.now which) }
{
    match which {
        Which::Part(_) => block_names(alloc, work, p),
        Which::Outputs => one_name(alloc),
    }
}

/// The name of the one state of the machine of the outputs.
fn one_name(alloc: Global) -> Result<StateNames, AllocError>
    ensures { IfOk result (λ names. names ≡ bits.outputs_name ∷ []) }
{
    let mut names = StateNames::new(alloc);
    names.add(b"outputs")?;
    Ok(names)
}

/// The names of the blocks, each of which has that of its least state.
fn block_names(alloc: Global, work: &WorkMachine, p: &Partition) -> Result<StateNames, AllocError>
    requires work { (reduce : Bool) × IsWork reduce work.now.file.now work.now }
    requires size { length p.now ≡ length work.now.machine.states }
    ensures { IfOk result (λ names. names ≡ names_of_blocks work.now.machine.states p.now) }
{
    work.machine.keeps_its_states();
    let mut names = StateNames::new(alloc);
    for s in 0..p.len() {
        if usize::from(p.label(s)) == names.count() {
            names.add(state_name(work, s))?;
        }
    }
    Ok(names)
}
