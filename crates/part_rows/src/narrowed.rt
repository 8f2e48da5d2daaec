//! The input fields of rows, narrowed to the inputs that are read.

ghost use Rattle.std.specs.Prelude.{
  ℕ,
  ◌+◌,
  ◌≡◌,
  ◌<◌,
  ◌≤◌,
  ◌∷◌,
  ◌++◌,
  All,
  None,
  length,
  slice_index_or,
};
ghost use Rattle.cubes.specs.Cube.{field_of};
ghost use Rattle.cubes.specs.Field.{characters};
ghost use Rattle.part_machines.specs.PartRows.{characters_at};
ghost use Rattle.part_rows.specs.Inner.Shown.{IsField};

use cubes::{Cube, bit};
use part_machines::Field;

/// The cube with the characters at these inputs, and behind them those of the field, as many as there are places.
pub(crate) fn narrowed(cube: &Cube, inputs: &[u8], field: Field, places: usize) -> Cube
    requires inputs { All (λ a. a < cube.now.width) inputs.now }
    requires some { 0 < length inputs.now + places }
    requires few { length inputs.now + places ≤ 32 }
    requires field { IsField places field }
    ensures width { result.width ≡ length inputs.now + places }
    ensures field { field_of result
        ≡ characters_at (field_of cube.now) inputs.now ++ characters places field.care field.value }
{
    let whole = with_inputs(cube, inputs, field, places);
    Cube {
        care: whole.care,
        value: whole.value,
        width: (inputs.len() + places) as u8,
    }
}

/// The field with the characters of the cube at these inputs before its own.
fn with_inputs(cube: &Cube, inputs: &[u8], field: Field, places: usize) -> Field
    requires inputs { All (λ a. a < cube.now.width) inputs.now }
    requires few { length inputs.now + places ≤ 32 }
    requires field { IsField places field }
    ensures field { IsField (length inputs.now + places) result }
    ensures characters { characters (length inputs.now + places) result.care result.value
        ≡ characters_at (field_of cube.now) inputs.now ++ characters places field.care field.value }
{
    let Some((first, others)) = inputs.split_first() else {
        return field;
    };
    let rest = with_inputs(cube, others, field, places);
    with_character(rest, others.len() + places, character(cube, *first))
}

/// The field with the character before its own, as many as there are places.
fn with_character(field: Field, places: usize, character: Option<bool>) -> Field
    requires few { places < 32 }
    requires field { IsField places field }
    ensures field { IsField (places + 1) result }
    ensures characters { characters (places + 1) result.care result.value
        ≡ character ∷ characters places field.care field.value }
{
    let place = 1 << places;
    match character {
        None => field,
        Some(one) => Field {
            care: field.care | place,
            value: if one {
                field.value | place
            } else {
                field.value
            },
        },
    }
}

/// The character of a cube for an input. Input 0 is the first character.
fn character(cube: &Cube, input: u8) -> Option<bool>
    requires { input < cube.now.width }
    ensures { result ≡ slice_index_or (field_of cube.now) input None }
{
    let place = usize::from(cube.width - 1 - input);
    if bit(u64::from(cube.care), place) {
        Some(bit(u64::from(cube.value), place))
    } else {
        None
    }
}
