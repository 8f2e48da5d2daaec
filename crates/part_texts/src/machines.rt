//! The machine of a part.

ghost use Rattle.std.specs.Prelude.{◌≡◌, Bool, IfOk};
ghost use Rattle.answers.specs.Cause.{CallsForNone};
ghost use Rattle.answers.specs.Outcome.{IsJudged};
ghost use Rattle.kiss_file.specs.LawfulFile.{IsLawful};
ghost use Rattle.kiss_file.specs.Machine.{Accepted, Conflicting};
ghost use Rattle.part_texts.specs.Inner.PartHere.{
  ArePartNames,
  HasNoMachine,
  IsMachineOf,
  IsMadeOf,
  IsSmallSet,
  IsTextOf,
  all_names,
};
ghost use Rattle.part_texts.specs.Inner.SplitHere.{IsSplitHere};
ghost use Rattle.part_texts.specs.PartCauses.{HasNoPart, IsFirstLong};
ghost use Rattle.part_texts.specs.PartText.{IsPartText};
ghost use Rattle.split_texts.specs.GivenParts.{HasFewParts};
ghost use Rattle.state_codes.specs.declared.split.Kind.TheVariants as kinds;
ghost use Rattle.state_reduce.specs.Work.{IsWork};

use crate::blocks::{partition_of, state_names};
use crate::flaws::set_of_part;
use crate::part_names::{PartNames, names_of_part};
use crate::split_machine::{SplitMachine, split_machine};
use answers::Refusal;
use dependence::ReadSet;
use kiss_file::{Fill, KissFile, Rows};
use kiss2::write;
use machine_table::Machine;
use part_machines::{parts_are_lawful, rows_make_the_part};
use part_rows::rows_of_part;
use state_codes::{Kind, Which};
use state_reduce::{WorkMachine, work_machine};
use std::alloc::{AllocError, Global};

/// The text of the machine of a part, or of the outputs, of the decomposition of a kind. `text` is the operand PARTS,
/// which only the kind `Assign` reads. With `reduce` the machine that is split is the machine of the classes of alike
/// states.
pub fn part(
    alloc: Global,
    kind: Kind,
    text: &[u8],
    which: Which,
    file: &KissFile,
    machine: Machine,
    fill: Fill,
    reduce: bool,
) -> Result<Vec<u8>, Refusal>
    requires few { kind ≡ kinds.Assign → HasFewParts text.now }
    requires lawful { IsLawful file.now }
    requires accepted { Accepted file.now fill }
    requires machine { machine ≡ file.now }
    ensures { IsJudged (HasNoPart kind text.now which reduce file.now)
        (λ written. IsPartText kind text.now which reduce file.now written.items) result }
{
    let work = work_machine(alloc, file, machine, fill, reduce)?;
    part_of_work(alloc, kind, text, which, &work)
}

/// The text of the machine of a part, or of the outputs, where the machine that is split is one that `work_machine`
/// gives.
fn part_of_work(
    alloc: Global,
    kind: Kind,
    text: &[u8],
    which: Which,
    work: &WorkMachine,
) -> Result<Vec<u8>, Refusal>
    requires few { kind ≡ kinds.Assign → HasFewParts text.now }
    requires lawful { IsLawful work.now.file.now }
    requires no_conflict { Conflicting work.now.file.now → ⊥ }
    requires work { (reduce : Bool) × IsWork reduce work.now.file.now work.now }
    ensures { (reduce : Bool) → IsWork reduce work.now.file.now work.now
        → IsJudged (HasNoPart kind text.now which reduce work.now.file.now)
        (λ written. IsPartText kind text.now which reduce work.now.file.now written.items) result }
{
    let made = split_machine(alloc, kind, text, work)?;
    text_of_part(alloc, work, &made, which)
}

/// The text of the machine of a part of the split.
fn text_of_part(
    alloc: Global,
    work: &WorkMachine,
    made: &SplitMachine,
    which: Which,
) -> Result<Vec<u8>, Refusal>
    requires lawful { IsLawful work.now.file.now }
    requires no_conflict { Conflicting work.now.file.now → ⊥ }
    requires work { (reduce : Bool) × IsWork reduce work.now.file.now work.now }
    requires made { IsSplitHere work.now.file.now work.now.machine made.now }
    ensures { IsJudged (HasNoMachine which made.now.split.parts made.now.codes made.now.reads made.now.names)
        (λ text. IsTextOf work.now.machine made.now which text.items) result }
{
    work.machine.keeps_its_states();
    let set = set_of_part(alloc, made, which)?;
    let names = names_of_part(alloc, made, &set, which)?;
    let machine = machine_of_part(alloc, work, made, &set, which, names)?;
    Ok(write(alloc, &machine)?)
}

/// The machine of the part that reads the set, with these names of its inputs and outputs.
fn machine_of_part(
    alloc: Global,
    work: &WorkMachine,
    made: &SplitMachine,
    set: &ReadSet,
    which: Which,
    names: PartNames,
) -> Result<KissFile, AllocError>
    requires lawful { IsLawful work.now.file.now }
    requires no_conflict { Conflicting work.now.file.now → ⊥ }
    requires work { (reduce : Bool) × IsWork reduce work.now.file.now work.now }
    requires made { IsSplitHere work.now.file.now work.now.machine made.now }
    requires set { IsSmallSet made.now.split.parts made.now.codes made.now.reads which set.now }
    requires names { ArePartNames made.now set.now which names }
    requires short { CallsForNone (IsFirstLong which (all_names made.now set.now which)) }
    ensures { IfOk result (IsMachineOf work.now.machine made.now which) }
{
    rows_make_the_part();
    parts_are_lawful();
    work.machine.keeps_its_states();
    machine_of_pieces(alloc, work, made, set, which, names)
}

/// The record of the names, the blocks and the rows of the part.
fn machine_of_pieces(
    alloc: Global,
    work: &WorkMachine,
    made: &SplitMachine,
    set: &ReadSet,
    which: Which,
    names: PartNames,
) -> Result<KissFile, AllocError>
    requires lawful { IsLawful work.now.file.now }
    requires no_conflict { Conflicting work.now.file.now → ⊥ }
    requires work { (reduce : Bool) × IsWork reduce work.now.file.now work.now }
    requires made { IsSplitHere work.now.file.now work.now.machine made.now }
    requires set { IsSmallSet made.now.split.parts made.now.codes made.now.reads which set.now }
    requires names { ArePartNames made.now set.now which names }
    ensures { IfOk result (IsMadeOf work.now.machine made.now set.now which) }
{
    work.machine.keeps_its_states();
    let p = partition_of(alloc, &work.machine, made.split.parts.as_slice(), which)?;
    let states = state_names(alloc, work, &p, which)?;
    let rows = rows_of_part(alloc, &work.machine, &made.codes, &p, set, which)?;
    Ok(KissFile {
        inputs: (set.inputs.as_slice().len() + set.latches.as_slice().len()) as u8,
        outputs: names.outputs.as_slice().len() as u8,
        reset: p.label(work.machine.reset()),
        states,
        rows: Rows::from(rows),
        input_names: Some(names.inputs),
        output_names: Some(names.outputs),
    })
}
