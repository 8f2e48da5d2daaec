//! The register of a file's machine.

ghost use Rattle.std.specs.Prelude.{◌≡◌, Bool, IfOk};
ghost use Rattle.answers.specs.Outcome.{IsJudged};
ghost use Rattle.blif_out.specs.NetworkText.{CanBeText};
ghost use Rattle.kiss_file.specs.LawfulFile.{IsLawful};
ghost use Rattle.kiss_file.specs.Machine.{Accepted, Conflicting};
ghost use Rattle.state_reduce.specs.Work.{IsWork};
ghost use Rattle.shift_texts.specs.Causes.{RefusesShift};
ghost use Rattle.shift_texts.specs.ShiftText.{IsOrderedRegister, IsShiftNetwork, with_comments};

use crate::comments::comments_of;
use crate::networks::register_of;
use crate::orders::short_order;
use answers::Refusal;
use blif_out::CommentedNetwork;
use kiss_file::{Fill, KissFile};
use machine_table::Machine;
use net_core::Network;
use state_reduce::{WorkMachine, work_machine};
use std::alloc::{AllocError, Global};

/// The shift register of a definite machine: the order of the machine, and the network of the register.
#[derive(Drop)]
pub struct OrderedRegister {
    pub order: usize,
    pub network: Network,
}

/// The network of the shift register of the machine that is worked on, with comments that give its order. The
/// machine is that of the file under the fill; with `reduce` the machine of the classes of alike states is
/// worked on.
pub fn shift(
    alloc: Global,
    file: &KissFile,
    machine: Machine,
    fill: Fill,
    reduce: bool,
) -> Result<CommentedNetwork, Refusal>
    requires lawful { IsLawful file.now }
    requires accepted { Accepted file.now fill }
    requires machine { machine ≡ file.now }
    ensures { IsJudged (RefusesShift reduce file.now)
        (λ made. CanBeText made × IsShiftNetwork reduce file.now made) result }
{
    let work = work_machine(alloc, file, machine, fill, reduce)?;
    shift_of(alloc, &work)
}

/// The network of the shift register of a machine that `work_machine` gives, with comments that give its order.
fn shift_of(alloc: Global, work: &WorkMachine) -> Result<CommentedNetwork, Refusal>
    requires lawful { IsLawful work.now.file.now }
    requires no_conflict { Conflicting work.now.file.now → ⊥ }
    requires work { (reduce : Bool) × IsWork reduce work.now.file.now work.now }
    ensures { (reduce : Bool) → IsWork reduce work.now.file.now work.now
        → IsJudged (RefusesShift reduce work.now.file.now)
        (λ made. CanBeText made × IsShiftNetwork reduce work.now.file.now made) result }
{
    let register = register_of_work(alloc, work)?;
    Ok(commented(alloc, register)?)
}

/// The network of a register, with the comments of its order.
fn commented(alloc: Global, register: OrderedRegister) -> Result<CommentedNetwork, AllocError>
    ensures { IfOk result (λ made. made ≡ with_comments register) }
{
    let OrderedRegister { order, network } = register;
    let comments = comments_of(alloc, order)?;
    Ok(CommentedNetwork { comments, network })
}

/// The shift register of a machine that `work_machine` gives. The machine can serve for networks of other kinds.
pub fn register_of_work(alloc: Global, work: &WorkMachine) -> Result<OrderedRegister, Refusal>
    requires lawful { IsLawful work.now.file.now }
    requires no_conflict { Conflicting work.now.file.now → ⊥ }
    requires work { (reduce : Bool) × IsWork reduce work.now.file.now work.now }
    ensures { (reduce : Bool) → IsWork reduce work.now.file.now work.now
        → IsJudged (RefusesShift reduce work.now.file.now)
        (λ made. CanBeText (with_comments made) × IsOrderedRegister reduce work.now.file.now made) result }
{
    let order = short_order(alloc, work)?;
    let network = register_of(alloc, work, order)?;
    Ok(OrderedRegister { order, network })
}
