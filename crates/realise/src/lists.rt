//! The rows of a gate, from what filled rows say of its bit.

ghost use Rattle.std.specs.Prelude.{◌≡◌, ◌<◌, ◌≤◌, All, IfOk, length, true, false};
ghost use Rattle.std.specs.Cmp.Lexicographic.{slice_cmp};
ghost use Rattle.std.specs.List.{filter_map};
ghost use Rattle.std.specs.List.Sorted.{IsSorted};
ghost use Rattle.std.specs.Ordering.{nat_cmp};
ghost use Rattle.dependence.specs.Bit.{IsBit, value_of};
ghost use Rattle.dependence.specs.Effects.{HasPlace};
ghost use Rattle.gate_rows.specs.GateCovers.{IsGoodCover};
ghost use Rattle.realise.specs.CodeNetwork.{IsEnough, IsWithin};
ghost use Rattle.realise.specs.Rows.{GivesAt};
ghost use Rattle.realise.specs.Inner.Lists.{asked_by, width_of};
ghost use Rattle.realise.specs.Inner.FilledRows.{AreFilled, IsRight};

use crate::row_bits::said_bit;
use dependence::{Bit, ReadSet};
use gate_rows::{Demand, demanded_rows};
use hs_io::Names;
use kiss_file::KissRow;
use machine_table::Machine;
use std::alloc::{AllocError, Global};

/// The rows of a gate.
pub fn gate_rows_of(
    alloc: Global,
    m: &Machine,
    filled: &[KissRow],
    words: &[u64],
    bits: usize,
    set: &ReadSet,
    bit: Bit,
) -> Result<Names, AllocError>
    requires filled { AreFilled m.now filled.now }
    requires words { length words.now ≡ length m.now.states }
    requires short { bits ≤ 64 }
    requires within { IsWithin m.now.inputs bits set.now }
    requires enough { IsEnough m.now words.now (value_of m.now words.now bit) set.now }
    requires bit { IsBit m.now bit }
    ensures cover { IfOk result (IsGoodCover (GivesAt m.now words.now set.now (value_of m.now words.now bit) true)
        (GivesAt m.now words.now set.now (value_of m.now words.now bit) false)) }
    ensures widths { IfOk result (All (λ row. length row ≡ width_of set.now)) }
    ensures in_order { IfOk result (IsSorted (slice_cmp nat_cmp)) }
{
    m.keeps_its_states();
    let demands = demands_of(alloc, m, filled, words, bit)?;
    demanded_rows(
        alloc,
        &demands,
        set.inputs.as_slice(),
        set.latches.as_slice(),
    )
}

/// What the rows ask of the gate of a bit, at the codes of their states.
fn demands_of(
    alloc: Global,
    m: &Machine,
    filled: &[KissRow],
    words: &[u64],
    bit: Bit,
) -> Result<Vec<Demand>, AllocError>
    requires filled { All (IsRight m.now) filled.now }
    requires words { length words.now ≡ length m.now.states }
    requires place { HasPlace bit }
    ensures { IfOk result (λ demands. demands.items ≡ filter_map (asked_by words.now bit) filled.now) }
{
    m.keeps_its_states();
    let mut demands = Vec::new(alloc);
    for row in filled {
        if let Some(given) = said_bit(row, words, bit) {
            demands.push(Demand {
                cube: row.cube,
                word: words[usize::from(row.from)],
                given,
            })?;
        }
    }
    Ok(demands)
}
