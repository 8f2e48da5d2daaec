//! Which candidates a gate reads.

ghost use Rattle.std.specs.Prelude.{◌≡◌, ◌<◌, IfOk, OnOk, length};
ghost use Rattle.dependence.specs.Bit.{IsBit, value_of};
ghost use Rattle.dependence.specs.Inner.Differences.{AreFound};
ghost use Rattle.dependence.specs.Inner.Judgement.{IsBitDecided};
ghost use Rattle.dependence.specs.SufficientBits.{InWord};
ghost use Rattle.dependence.specs.ReadRule.{IsReadRule};

use crate::bit::Bit;
use crate::differences::Differences;
use crate::sufficient_bits::permits_beside;
use crate::words::without;
use machine_table::Machine;
use std::alloc::{AllocError, Global};

/// The candidates that the gate reads. They are judged from the highest down: a candidate is left out where
/// the others that are still in the set permit the gate.
pub(crate) fn read_bits(
    alloc: Global,
    m: &Machine,
    words: &[u64],
    differences: &mut Differences,
    candidates: u64,
    gate: Bit,
) -> Result<u64, AllocError>
    requires words { length words.now ≡ length m.now.states }
    requires gate { IsBit m.now gate }
    requires found { AreFound m.now words.now differences.old.found.items }
    ensures bits { IfOk result
        (λ bits. IsReadRule m.now words.now (InWord candidates) (InWord bits) (value_of m.now words.now gate)) }
    ensures found { OnOk result (AreFound m.now words.now differences.new.found.items) }
{
    let mut set = candidates;
    for c in (0..64u32).rev() {
        set = judged(alloc, m, words, differences, set, c, gate)?;
    }
    Ok(set)
}

/// The set without bit c if that permits the gate, otherwise the set.
fn judged(
    alloc: Global,
    m: &Machine,
    words: &[u64],
    differences: &mut Differences,
    set: u64,
    c: u32,
    gate: Bit,
) -> Result<u64, AllocError>
    requires words { length words.now ≡ length m.now.states }
    requires gate { IsBit m.now gate }
    requires bit { c < 64 }
    requires found { AreFound m.now words.now differences.old.found.items }
    ensures judged { IfOk result (IsBitDecided m.now words.now (value_of m.now words.now gate) set c) }
    ensures found { OnOk result (AreFound m.now words.now differences.new.found.items) }
{
    let rest = without(set, c);
    if rest != set && permits_beside(alloc, m, words, differences, rest, gate)? {
        Ok(rest)
    } else {
        Ok(set)
    }
}
