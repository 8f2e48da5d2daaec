//! Opening the operand FILE or NET: loading it, and reading its text.

ghost use Rattle.std.specs.Prelude.{◌≡◌, ◌<◌, ◌≤◌, ◌↔◌, ℕ, List, IfOk, length};
ghost use Rattle.hs_io.specs.Counts.{Rose};
ghost use Rattle.operands.specs.Fill.{fill_of};
ghost use Rattle.operands.specs.Inner.TextRefusal.{IsBuiltOf, IsEntryRefusal, IsMachineOf, IsReadAs, IsReadOf};
ghost use Rattle.operands.specs.OpenedOperands.{IsNetOpened, IsOpened};
ghost use Rattle.operands.specs.OperandText.{IsShortText};
ghost use Rattle.kiss_file.specs.LawfulFile.{IsLawful};

use crate::text::load_operand;
use answers::{Refusal, symbol_text};
use blif_in::{BlifFail, OrderedNetwork, read_ordered};
use hs_io::{Name, Shelf};
use job_words::Job;
use kiss_file::{Fill, KissFile};
use kiss2::{KissFail, read};
use machine_table::{BuildFail, Machine, Missing};
use std::alloc::{AllocError, Global};

/// The record of FILE, and its machine.
#[derive(Drop)]
pub struct OpenedMachine {
    pub file: KissFile,
    pub machine: Machine,
}

/// The fill of a job.
pub fn fill(job: &Job) -> Fill
    ensures { result ≡ fill_of job.now }
{
    if job.hold { Fill::Hold } else { Fill::Refuse }
}

/// Loads FILE and builds its machine with the fill of the job.
pub fn open_machine<F: Shelf>(
    alloc: Global,
    job: &Job,
    shelf: &mut F,
) -> Result<OpenedMachine, Refusal>
    requires { F.grants shelf.old job.now.file }
    ensures opened { IsOpened
        job.now (F.holds shelf.old) (Rose (F.faults shelf.old) (F.faults shelf.new)) result }
    ensures holds_the_same { (other : List ℕ) → F.holds shelf.new other ≡ F.holds shelf.old other }
    ensures grants_the_same { (other : List ℕ) → F.grants shelf.new other ↔ F.grants shelf.old other }
    ensures never_falls { F.faults shelf.old ≤ F.faults shelf.new }
{
    let text = load_operand(alloc, job.file.bytes(), shelf)?;
    read_machine(alloc, fill(job), text.as_slice())
}

/// The machine that a text denotes.
fn read_machine(alloc: Global, fill: Fill, text: &[u8]) -> Result<OpenedMachine, Refusal>
    requires { IsShortText text.now }
    ensures { IsReadOf fill text.now result }
{
    match read(alloc, text) {
        Ok(file) => with_machine(alloc, fill, file),
        Err(KissFail::Refused(fault)) => Err(Refusal::NoMachine(fault)),
        Err(KissFail::NoMemory) => Err(Refusal::NoMemory),
    }
}

/// The record of a file with its machine.
fn with_machine(alloc: Global, fill: Fill, file: KissFile) -> Result<OpenedMachine, Refusal>
    requires { IsLawful file }
    ensures { IsBuiltOf fill file result }
{
    let machine = build_machine(alloc, fill, &file)?;
    Ok(OpenedMachine { file, machine })
}

/// The machine of the record of a file.
fn build_machine(alloc: Global, fill: Fill, file: &KissFile) -> Result<Machine, Refusal>
    requires { IsLawful file.now }
    ensures { IsMachineOf fill file.now result }
{
    match Machine::build(alloc, file, fill) {
        Ok(machine) => Ok(machine),
        Err(BuildFail::Conflict { row_a, row_b }) => Err(Refusal::Conflict {
            row: row_a,
            other: row_b,
        }),
        Err(
            BuildFail::Unspecified {
                state,
                symbol,
                part,
            },
        ) => Err(unspecified(alloc, file, usize::from(state), symbol, part)?),
        Err(BuildFail::NoMemory) => Err(Refusal::NoMemory),
    }
}

/// The refusal of a machine that leaves a part open, for this state and the symbol of this number.
fn unspecified(
    alloc: Global,
    file: &KissFile,
    state: usize,
    symbol: u32,
    part: Missing,
) -> Result<Refusal, AllocError>
    requires state { state < length file.now.states }
    requires inputs { file.now.inputs ≤ 32 }
    ensures { IfOk result (IsEntryRefusal file.now state symbol part) }
{
    let name = Name::new(alloc, file.states.name(state))?;
    let digits = symbol_text(alloc, file.inputs, symbol)?;
    Ok(Refusal::Unspecified {
        state: name,
        symbol: digits,
        part,
    })
}

/// Loads NET and reads its network.
pub fn open_network<F: Shelf>(
    alloc: Global,
    job: &Job,
    shelf: &mut F,
) -> Result<OrderedNetwork, Refusal>
    requires { F.grants shelf.old job.now.file }
    ensures opened { IsNetOpened
        job.now (F.holds shelf.old) (Rose (F.faults shelf.old) (F.faults shelf.new)) result }
    ensures holds_the_same { (other : List ℕ) → F.holds shelf.new other ≡ F.holds shelf.old other }
    ensures grants_the_same { (other : List ℕ) → F.grants shelf.new other ↔ F.grants shelf.old other }
    ensures never_falls { F.faults shelf.old ≤ F.faults shelf.new }
{
    let text = load_operand(alloc, job.file.bytes(), shelf)?;
    read_network(alloc, text.as_slice())
}

/// The network that a text denotes, with an order of its gates.
fn read_network(alloc: Global, text: &[u8]) -> Result<OrderedNetwork, Refusal>
    requires { IsShortText text.now }
    ensures { IsReadAs text.now result }
{
    match read_ordered(alloc, text) {
        Ok(ordered) => Ok(ordered),
        Err(BlifFail::Refused(fault)) => Err(Refusal::NoNetwork(fault)),
        Err(BlifFail::NoMemory) => Err(Refusal::NoMemory),
    }
}
