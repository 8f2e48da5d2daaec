//! One row of a part, made of a row of a state.

ghost use Rattle.std.specs.Prelude.{ℕ, ◌+◌, ◌≡◌, ◌<◌, ◌≤◌, All, IfSome, length, true};
ghost use Rattle.cubes.specs.Symbol.{bit};
ghost use Rattle.kiss_file.specs.declared.file.KissFile.{KissFile};
ghost use Rattle.kiss_file.specs.LawfulFile.{IsLawfulRow};
ghost use Rattle.part_machines.specs.PartRows as part_rows;
ghost use Rattle.part_machines.specs.PartRows.{IsPartRow};
ghost use Rattle.cubes.specs.Field.{characters};
ghost use Rattle.state_codes.specs.declared.Codes.{Codes};
ghost use Rattle.part_rows.specs.Inner.Shown.{IsField, IsShown};
ghost use Rattle.part_rows.specs.Inner.Given.{GivesAsRow, GivesBits};
ghost use Rattle.state_codes.specs.declared.which.Which.TheVariants.{Part as Numbered, Outputs};

use crate::narrowed::narrowed;
use crate::shown::{Bits, Shown};
use dependence::{ReadSet, bits_below};
use kiss_file::KissRow;
use partition::Partition;
use state_codes::Which;

/// Whether a row is made of this one: for a part it names a next state, and for the outputs it gives an output.
pub(crate) fn is_taken(row: &KissRow, which: Which) -> bool
    ensures { (outputs : ℕ) → ((b : ℕ) → bit row.now.care b ≡ true → b < outputs)
        → result ≡ part_rows.is_taken outputs which row.now }
{
    match which {
        Which::Part(_) => row.to.is_some(),
        Which::Outputs => row.care != 0,
    }
}

/// The row of a part that is made of a row of the least state of a cell.
pub(crate) fn part_row(
    p: &Partition,
    set: &ReadSet,
    which: Which,
    cell: &Shown,
    row: &KissRow,
) -> KissRow
    requires states { IfSome row.now.to (λ t. t < length p.now) }
    requires inputs { All (λ a. a < row.now.cube.width) set.now.inputs }
    requires some { 0 < length set.now.inputs + length set.now.latches }
    requires few { length set.now.inputs + length set.now.latches ≤ 32 }
    requires field { IsField (length set.now.latches) cell.now.field }
    requires count { cell.now.bits.count ≤ 64 }
    ensures { (W : KissFile) (codes : Codes) → IsLawfulRow W.inputs W.outputs (length W.states) row.now
        → IsShown codes p.now set.now.latches which cell.now
        → IsPartRow W codes p.now set.now which cell.now.state
        (characters (length set.now.latches) cell.now.field.care cell.now.field.value) row.now result }
{
    let given = given_by(row, which, cell.bits);
    KissRow {
        cube: narrowed(
            &row.cube,
            set.inputs.as_slice(),
            cell.field,
            set.latches.as_slice().len(),
        ),
        from: cell.block,
        to: next_block(p, which, row),
        care: given.care,
        value: given.value,
    }
}

/// Outputs that a row gives, and their values.
#[derive(Clone, Copy)]
struct Given {
    care: u64,
    value: u64,
}

/// What a row of a part gives: for a part the bits, and for the outputs what the row itself gives.
fn given_by(row: &KissRow, which: Which, bits: Bits) -> Given
    requires { bits.count ≤ 64 }
    ensures part { (j : ℕ) → which ≡ Numbered j → GivesBits bits result }
    ensures outputs { which ≡ Outputs → GivesAsRow row.now result }
{
    match which {
        Which::Part(_) => Given {
            care: bits_below(bits.count),
            value: bits.word,
        },
        Which::Outputs => Given {
            care: row.care,
            value: row.value,
        },
    }
}

/// The block to which a row goes. The machine of the outputs stays in its one state.
fn next_block(p: &Partition, which: Which, row: &KissRow) -> Option<u16>
    requires { IfSome row.now.to (λ t. t < length p.now) }
    ensures { result ≡ part_rows.next_block p.now which row.now }
{
    match which {
        Which::Part(_) => Some(p.label(usize::from(row.to?))),
        Which::Outputs => Some(0),
    }
}
