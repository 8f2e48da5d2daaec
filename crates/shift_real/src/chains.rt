//! How states come together, symbol by symbol.

ghost use Rattle.std.specs.Prelude.{◌≤◌, IfOk, length};
ghost use Rattle.shift_real.specs.Chain.{AreTogetherAfter, IsChain};

use hs_list::Items;
use machine_table::Machine;
use pair_operators::{AskedSymbols, high_above, high_beside};
use partition::Partition;
use std::alloc::{AllocError, Global};

/// Partitions in order.
pub type Chain = Items<Partition>;

/// Zero, M(zero), M(M(zero)) and so on, up to and including the first that M leaves as it is. States are
/// together in member j, counted from 0, exactly where every word of j symbols brings them to one state.
///
/// All members ask first the symbols that told states apart in earlier ones. States that are together in a member
/// remain together, so of each of its blocks only the least state is compared.
pub fn chain(alloc: Global, m: &Machine) -> Result<Chain, AllocError>
    ensures chain { IfOk result (IsChain m.now) }
    ensures together { IfOk result (AreTogetherAfter m.now) }
    ensures few { IfOk result (λ members. length members ≤ length m.now.states) }
{
    let mut members = Chain::new(alloc);
    let mut asked = AskedSymbols::new(alloc);
    let mut last = Partition::zero(alloc, m.states())?;
    let mut next = high_beside(alloc, m, &mut asked, &last)?;
    'rising: while !next.equal(&last) {
        members.push(last)?;
        last = next;
        next = high_above(alloc, m, &mut asked, &last)?;
    }
    members.push(last)?;
    Ok(members)
}
