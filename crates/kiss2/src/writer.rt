//! Writes a record as a KISS2 text.
ghost use Rattle.std.specs.Prelude.{
  ℕ,
  ◌≡◌,
  ◌+◌,
  ◌<◌,
  ◌==◌,
  [],
  ◌∷◌,
  ◌++◌,
  IfOk,
  OnOk,
  count_by,
  length,
  map,
  replicate,
  slice_index_or,
  ◌||◌,
  if◌then◌else◌,
  true,
  false,
  Some,
  None,
};
ghost use Rattle.cubes.specs.Symbol.{bit};
ghost use Rattle.std.specs.Fmt.{decimal};
ghost use Rattle.std.specs.List.{cons_option, filter_map, flat_map, list_any, range_with_len};
ghost use Rattle.cubes.specs.Cube.{text_of};
ghost use Rattle.cubes.specs.Field.{byte_of, character, characters};
ghost use Rattle.hs_io.specs.Spelling.{ended, line_text, spaced, spelled};
ghost use Rattle.kiss_file.specs.Names.{name_of};
ghost use Rattle.kiss2.specs.KissText.{
  fields_of_row,
  given_line,
  kiss_text,
  next_name,
  output_characters,
  states_standing,
};
ghost use Rattle.kiss2.specs.Inner.Parts.{count_lines, head_lines};

use cubes::Cube;
use hs_io::{Name, Names};
use itoa::Buffer;
use kiss_file::{KissFile, KissRow, StateNames};
use std::alloc::{AllocError, Global};

/// The text of the record.
pub fn write(alloc: Global, file: &KissFile) -> Result<Vec<u8>, AllocError>
    ensures { IfOk result (λ text. text.items ≡ kiss_text file.now) }
{
    let states = count_states(alloc, file)?;
    let mut text = Vec::new(alloc);
    append_file(&mut text, file, states)?;
    Ok(text)
}

/// Appends the text of the record, given the number of states in its rows.
fn append_file(text: &mut Vec<u8>, file: &KissFile, states: usize) -> Result<(), AllocError>
    requires { states ≡ states_standing file.now }
    ensures { OnOk result (text.new.items ≡ text.old.items ++ kiss_text file.now) }
{
    append_head(text, file)?;
    append_counts(text, file, states)?;
    append_rows(text, &file.states, file.outputs, file.rows.as_slice())?;
    text.extend_from_slice(b".e\n")
}

/// Appends the numbers of inputs and outputs, and their names where they are given.
fn append_head(text: &mut Vec<u8>, file: &KissFile) -> Result<(), AllocError>
    ensures { OnOk result (text.new.items ≡ text.old.items ++ spelled (head_lines file.now)) }
{
    append_number_line(text, b".i", usize::from(file.inputs))?;
    append_number_line(text, b".o", usize::from(file.outputs))?;
    append_given(text, b".ilb", &file.input_names)?;
    append_given(text, b".ob", &file.output_names)
}

/// Appends the numbers of rows and states, and the name of the reset state.
fn append_counts(text: &mut Vec<u8>, file: &KissFile, states: usize) -> Result<(), AllocError>
    requires { states ≡ states_standing file.now }
    ensures { OnOk result (text.new.items ≡ text.old.items ++ spelled (count_lines file.now)) }
{
    append_number_line(text, b".p", file.rows.as_slice().len())?;
    append_number_line(text, b".s", states)?;
    append_name_line(text, b".r", name_at(&file.states, file.reset))?;
    Ok(())
}

/// Appends a word and a number as a line.
fn append_number_line(text: &mut Vec<u8>, word: &[u8], number: usize) -> Result<(), AllocError>
    ensures { OnOk result (text.new.items ≡ text.old.items ++ ended (line_text (word.now ∷ decimal number ∷ []))) }
{
    append_name_line(text, word, Buffer::new().format(number).as_bytes())
}

/// Appends a word and a field as a line.
fn append_name_line(text: &mut Vec<u8>, word: &[u8], field: &[u8]) -> Result<(), AllocError>
    ensures { OnOk result (text.new.items ≡ text.old.items ++ ended (line_text (word.now ∷ field.now ∷ []))) }
{
    text.extend_from_slice(word)?;
    append_field(text, field)?;
    text.extend_from_slice(b"\n")
}

/// Appends a field after a space.
fn append_field(text: &mut Vec<u8>, field: &[u8]) -> Result<(), AllocError>
    ensures { OnOk result (text.new.items ≡ text.old.items ++ spaced field.now) }
{
    text.extend_from_slice(b" ")?;
    text.extend_from_slice(field)
}

/// Appends names, each after a space.
fn append_names(text: &mut Vec<u8>, names: &[Name]) -> Result<(), AllocError>
    ensures { OnOk result (text.new.items ≡ text.old.items ++ flat_map spaced names.now) }
{
    for name in names {
        append_field(text, name.bytes())?;
    }
    Ok(())
}

/// Appends a word and names as a line, if there are names.
fn append_given(text: &mut Vec<u8>, word: &[u8], names: &Option<Names>) -> Result<(), AllocError>
    ensures { OnOk result (text.new.items ≡ text.old.items ++ spelled (given_line word.now names.now)) }
{
    let Some(names) = names else {
        return Ok(());
    };
    text.extend_from_slice(word)?;
    append_names(text, names.as_slice())?;
    text.extend_from_slice(b"\n")
}

/// The name of a state, or no bytes if there is no such state.
fn name_at(names: &StateNames, state: u16) -> &[u8]
    ensures { result.now ≡ name_of names.now state }
{
    if usize::from(state) < names.count() {
        names.name(usize::from(state))
    } else {
        &[]
    }
}

/// Appends the rows in order, each as a line.
fn append_rows(
    text: &mut Vec<u8>,
    names: &StateNames,
    outputs: u8,
    rows: &[KissRow],
) -> Result<(), AllocError>
    ensures { OnOk result
        (text.new.items ≡ text.old.items ++ spelled (map (fields_of_row names.now outputs) rows.now)) }
{
    for row in rows {
        append_row(text, names, outputs, row)?;
    }
    Ok(())
}

/// Appends a row as a line.
fn append_row(
    text: &mut Vec<u8>,
    names: &StateNames,
    outputs: u8,
    row: &KissRow,
) -> Result<(), AllocError>
    ensures { OnOk result
        (text.new.items ≡ text.old.items ++ ended (line_text (fields_of_row names.now outputs row.now))) }
{
    append_cube(text, &row.cube)?;
    append_field(text, name_at(names, row.from))?;
    append_field(text, next_at(names, row.to))?;
    text.extend_from_slice(b" ")?;
    append_outputs(text, outputs, row)?;
    text.extend_from_slice(b"\n")
}

/// The name of a next state, or a dash.
fn next_at(names: &StateNames, state: Option<u16>) -> &[u8]
    ensures { result.now ≡ next_name names.now state }
{
    match state {
        Some(state) => name_at(names, state),
        None => b"-",
    }
}

/// The byte of a character.
fn character_byte(given: bool, value: bool) -> u8
    ensures { result ≡ byte_of (if given then Some value else None) }
{
    match (given, value) {
        (true, true) => b'1',
        (true, false) => b'0',
        (false, _) => b'-',
    }
}

/// Whether a number has the bit at a place.
fn has_bit(number: u64, place: u32) -> bool
    requires { place < 64 }
    ensures { result ≡ bit number place }
{
    (number >> place) & 1 == 1
}

/// Appends the characters of a cube, that of the highest bit first.
fn append_cube(text: &mut Vec<u8>, cube: &Cube) -> Result<(), AllocError>
    ensures { OnOk result (text.new.items ≡ text.old.items ++ text_of cube.now) }
{
    let mut place = u32::from(cube.width);
    while place > 0 {
        place -= 1;
        let given = has_bit(u64::from(cube.care), place);
        text.push(character_byte(given, has_bit(u64::from(cube.value), place)))?;
    }
    Ok(())
}

/// Appends the characters of the outputs, that of output 0 first.
fn append_outputs(text: &mut Vec<u8>, outputs: u8, row: &KissRow) -> Result<(), AllocError>
    ensures { OnOk result (text.new.items ≡ text.old.items ++ output_characters outputs row.now) }
{
    for output in 0..u32::from(outputs) {
        text.push(output_byte(row, output))?;
    }
    Ok(())
}

/// The character of an output.
fn output_byte(row: &KissRow, output: u32) -> u8
    ensures { result ≡ byte_of (character row.now.care row.now.value output) }
{
    let (care, value) = (row.care, row.value);
    if output < 64 {
        character_byte(has_bit(care, output), has_bit(value, output))
    } else {
        b'-'
    }
}

/// The number of states in the rows.
fn count_states(alloc: Global, file: &KissFile) -> Result<usize, AllocError>
    ensures { IfOk result (λ count. count ≡ states_standing file.now) }
{
    let mut standing = vec![in alloc; false; file.states.count()]?;
    Ok(count_standing(&mut standing, file.rows.as_slice()))
}

/// The number of states in the rows, given a mark for each state.
fn count_standing(standing: &mut [bool], rows: &[KissRow]) -> usize
    requires { standing.old ≡ replicate (length standing.old) false }
    ensures { result ≡ count_by
        (λ s. list_any (λ t. t == s) (map (λ row. row.from) rows.now ++ filter_map (λ row. row.to) rows.now))
        (range_with_len 0 (length standing.old)) }
{
    mark_states(standing, rows);
    count_marked(standing)
}

/// Marks the states in the rows.
fn mark_states(standing: &mut [bool], rows: &[KissRow])
    ensures { (s : ℕ) → s < length standing.new
        → slice_index_or standing.new s false ≡
        (slice_index_or standing.old s false || list_any (λ t. t == s)
        (map (λ row. row.from) rows.now ++ filter_map (λ row. row.to) rows.now)) }
{
    for row in rows {
        mark(standing, row.from);
        mark_next(standing, row.to);
    }
}

/// Marks a next state, if there is one.
fn mark_next(standing: &mut [bool], state: Option<u16>)
    ensures { (s : ℕ) → s < length standing.new
        → slice_index_or standing.new s false ≡
        (slice_index_or standing.old s false || list_any (λ t. t == s) (cons_option state [])) }
{
    if let Some(state) = state {
        mark(standing, state);
    }
}

/// Marks a state, if there is a mark for it.
fn mark(standing: &mut [bool], state: u16)
    ensures { (s : ℕ) → s < length standing.new
        → slice_index_or standing.new s false ≡ (slice_index_or standing.old s false || state == s) }
{
    if usize::from(state) < standing.len() {
        standing[usize::from(state)] = true;
    }
}

/// The number of marks that are set.
fn count_marked(standing: &[bool]) -> usize
    ensures { result ≡ count_by (λ stands. stands) standing.now }
{
    let mut count = 0;
    for stands in standing {
        if *stands {
            count += 1;
        }
    }
    count
}
