//! From a split and its codes to its network and the header that explains it.

ghost use Rattle.std.specs.Prelude.{◌≡◌, ◌<◌, ◌≤◌, All, Bool, IfOk, IfSome, length};
ghost use Rattle.blif_out.specs.NetworkText.{CanBeHeaded};
ghost use Rattle.kiss_file.specs.LawfulFile.{IsLawful};
ghost use Rattle.kiss_file.specs.Machine.{Conflicting};
ghost use Rattle.state_codes.specs.Agreement.{AreDistinct};
ghost use Rattle.state_codes.specs.Code.{IsCode};
ghost use Rattle.state_codes.specs.Split.{IsPart};
ghost use Rattle.decomposition.specs.Decomposition.{IsDecomposed};
ghost use Rattle.decomposition.specs.Flow.{Flows};
ghost use Rattle.decomposition.specs.Inner.HeadedNetwork.{IsHeaded, IsNamedNetwork};
ghost use Rattle.state_reduce.specs.Work.{IsWork};

use crate::header::header_of;
use crate::network::{SplitNetwork, network_of_split};
use blif_out::HeadedNetwork;
use kiss_file::StateNames;
use partition::Partition;
use realise::names;
use state_codes::{Codes, Split};
use state_reduce::WorkMachine;
use std::alloc::{AllocError, Global};

/// The network of a split, with the codes that `encode` gives for it, and the header that explains it. Each gate
/// reads no more than it must. The machine is one that `work_machine` gives for its file, which is accepted.
pub fn headed_network(
    alloc: Global,
    work: &WorkMachine,
    split: Split,
    codes: &Codes,
) -> Result<HeadedNetwork, AllocError>
    requires lawful { IsLawful work.now.file.now }
    requires no_conflict { Conflicting work.now.file.now → ⊥ }
    requires work { (reduce : Bool) × IsWork reduce work.now.file.now work.now }
    requires count { length split.parts ≤ 256 }
    requires parts { All (IsPart (length work.now.machine.states)) split.parts }
    requires flows { Flows work.now.machine split.parts }
    requires code { IsCode (length work.now.machine.states) split.parts codes.now }
    requires distinct { AreDistinct (length work.now.machine.states) codes.now.words }
    requires short { codes.now.bits ≤ 64 }
    ensures ready { IfOk result CanBeHeaded }
    ensures made { (reduce : Bool) → IsWork reduce work.now.file.now work.now
        → IfOk result (IsDecomposed reduce work.now.file.now work.now.machine split.kind split.parts) }
{
    let made = network_of_file(alloc, work, &split, codes)?;
    headed(alloc, &work.file.states, &work.classes, split, codes, made)
}

/// The network of a split, with the names that the file gives to its signals.
fn network_of_file(
    alloc: Global,
    work: &WorkMachine,
    split: &Split,
    codes: &Codes,
) -> Result<SplitNetwork, AllocError>
    requires lawful { IsLawful work.now.file.now }
    requires no_conflict { Conflicting work.now.file.now → ⊥ }
    requires work { (reduce : Bool) × IsWork reduce work.now.file.now work.now }
    requires parts { All (IsPart (length work.now.machine.states)) split.now.parts }
    requires flows { Flows work.now.machine split.now.parts }
    requires code { IsCode (length work.now.machine.states) split.now.parts codes.now }
    requires distinct { AreDistinct (length work.now.machine.states) codes.now.words }
    requires short { codes.now.bits ≤ 64 }
    ensures { IfOk result (IsNamedNetwork work.now split.now codes.now) }
{
    work.machine.keeps_its_states();
    let signals = names(alloc, work.file, codes.bits)?;
    network_of_split(alloc, &work.machine, split, codes, &signals)
}

/// A network with its header. The states of the file have these names and, if classes are given, belong to these
/// classes.
fn headed(
    alloc: Global,
    states: &StateNames,
    classes: &Option<Partition>,
    split: Split,
    codes: &Codes,
    made: SplitNetwork,
) -> Result<HeadedNetwork, AllocError>
    requires few { length states.now ≤ 256 }
    requires classes { IfSome classes.now (All (λ class. class < length codes.now.words)) }
    ensures { IfOk result (IsHeaded states.now classes.now split codes.now made) }
{
    let SplitNetwork { network, notes } = made;
    let header = header_of(alloc, states, classes, split, codes, notes)?;
    Ok(HeadedNetwork { header, network })
}
