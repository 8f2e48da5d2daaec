//! The field of a cell.

ghost use Rattle.std.specs.Prelude.{◌<◌, ◌≤◌, ◌^◌, All};
ghost use Rattle.part_machines.specs.CellLists.{IsFieldAmong, IsLeadOf};

/// A field: characters, the last of which belongs to the lowest bits of `care` and `value`. A character is a dash
/// where the bit of `care` is 0, and otherwise the bit of `value`.
#[derive(Clone, Copy)]
pub struct Field {
    pub care: u32,
    pub value: u32,
}

/// The field of one of the shown values, each of which has as many bits as the width.
pub fn field_of(shown: &[u32], value: u32, width: usize) -> Field
    requires width { width ≤ 32 }
    requires shown { All (λ other. other < 2 ^ width) shown.now }
    requires value { value < 2 ^ width }
    ensures { IsFieldAmong shown.now value width result }
{
    let mut care = 0;
    for other in shown {
        let bit = leading_bit(value ^ *other);
        care |= bit;
    }
    Field {
        care,
        value: value & care,
    }
}

/// The highest bit of a number, alone. Of 0 it is 0.
fn leading_bit(number: u32) -> u32
    ensures { IsLeadOf number result }
{
    if number == 0 {
        0
    } else {
        1 << (31 - number.leading_zeros())
    }
}
