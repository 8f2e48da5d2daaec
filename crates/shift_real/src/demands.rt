//! What is asked of the gate of an output, at the contents of the register.

ghost use Rattle.std.specs.Prelude.{◌≡◌, ◌+◌, ◌<◌, ◌++◌, All, IfOk, OnOk, length};
ghost use Rattle.std.specs.List.{filter_map};
ghost use Rattle.shift_real.specs.Inner.ContentDemands.{AreClassDemands, IsOfClassBelow, IsWithinMask, asked_by};

use crate::tables::is_among;
use cubes::bit;
use dependence::filled_rows;
use gate_rows::Demand;
use kiss_file::KissRow;
use machine_table::Machine;
use std::alloc::{AllocError, Global};

/// What the first state of its class gives of output b, for each content whose latches outside the mask are 0.
/// The demands come class by class, and have the numbers of the contents as words.
pub(crate) fn content_demands(
    alloc: Global,
    m: &Machine,
    classes: &[u16],
    mask: u64,
    b: u8,
) -> Result<Vec<Demand>, AllocError>
    requires classes { All (λ class. class < length m.now.states) classes.now }
    requires output { b < m.now.outputs }
    ensures { IfOk result (λ demands. AreClassDemands m.now b classes.now (IsWithinMask mask) demands.items) }
{
    let mut demands = Vec::new(alloc);
    for class in 0..m.states() {
        if is_among(classes, class) {
            add_class(alloc, m, classes, mask, b, class, &mut demands)?;
        }
    }
    Ok(demands)
}

/// Adds the demands of a class.
fn add_class(
    alloc: Global,
    m: &Machine,
    classes: &[u16],
    mask: u64,
    b: u8,
    class: usize,
    demands: &mut Vec<Demand>,
) -> Result<(), AllocError>
    requires output { b < m.now.outputs }
    requires class { class < length m.now.states }
    requires before { AreClassDemands m.now b classes.now (IsOfClassBelow classes.now mask class) demands.old.items }
    ensures { OnOk result
        (AreClassDemands m.now b classes.now (IsOfClassBelow classes.now mask (class + 1)) demands.new.items) }
{
    m.keeps_its_states();
    let rows = filled_rows(alloc, m, class)?;
    for (number, at) in classes.iter().enumerate() {
        if usize::from(*at) == class && number as u64 & mask == number as u64 {
            add_rows(&rows, b, number as u64, demands)?;
        }
    }
    Ok(())
}

/// Adds what the rows give of output b, for a content with this number.
fn add_rows(
    rows: &[KissRow],
    b: u8,
    number: u64,
    demands: &mut Vec<Demand>,
) -> Result<(), AllocError>
    requires { b < 64 }
    ensures { OnOk result (demands.new.items ≡ demands.old.items ++ filter_map (asked_by b number) rows.now) }
{
    for row in rows {
        if bit(row.care, usize::from(b)) {
            demands.push(Demand {
                cube: row.cube,
                word: number,
                given: bit(row.value, usize::from(b)),
            })?;
        }
    }
    Ok(())
}
