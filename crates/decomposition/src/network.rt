//! From a split and its codes to its network.

ghost use Rattle.std.specs.Prelude.{◌≤◌, All, IfOk, length};
ghost use Rattle.realise.specs.Laws.{ArePairwiseDistinct};
ghost use Rattle.realise.specs.CodeNetwork.{AreCounted};
ghost use Rattle.state_codes.specs.Agreement.{AreDistinct};
ghost use Rattle.state_codes.specs.Code.{IsCode};
ghost use Rattle.state_codes.specs.Split.{IsPart};
ghost use Rattle.decomposition.specs.Flow.{Flows};
ghost use Rattle.decomposition.specs.Network.{IsNetworkOf};

use crate::notes::notes_of;
use blif_out::LatchNotes;
use dependence::{reads, rule_is_irredundant};
use machine_table::Machine;
use net_core::{Network, SignalNames};
use realise::network;
use state_codes::{Codes, Split};
use std::alloc::{AllocError, Global};

/// A network, and for each of its latches the part of its bit and its partition pair.
#[derive(Drop)]
pub struct SplitNetwork {
    pub network: Network,
    pub notes: LatchNotes,
}

/// The network of a machine that is split, with these names of the signals and the codes that `encode` gives
/// for the split. Its latches are in the order of the bits. Each gate reads no more than it must.
pub fn network_of_split(
    alloc: Global,
    machine: &Machine,
    split: &Split,
    codes: &Codes,
    names: &SignalNames,
) -> Result<SplitNetwork, AllocError>
    requires parts { All (IsPart (length machine.now.states)) split.now.parts }
    requires flows { Flows machine.now split.now.parts }
    requires code { IsCode (length machine.now.states) split.now.parts codes.now }
    requires distinct { AreDistinct (length machine.now.states) codes.now.words }
    requires short { codes.now.bits ≤ 64 }
    requires counted { AreCounted machine.now codes.now.bits names.now }
    requires apart { ArePairwiseDistinct names.now }
    ensures { IfOk result
        (λ made. IsNetworkOf machine.now split.now.parts codes.now names.now made.network made.notes) }
{
    rule_is_irredundant();
    machine.keeps_its_states();
    let sets = reads(alloc, machine, split, codes)?;
    let net = network(alloc, machine, codes, &sets, names)?;
    let notes = notes_of(alloc, codes, sets.latches.as_slice())?;
    Ok(SplitNetwork {
        network: net,
        notes,
    })
}
