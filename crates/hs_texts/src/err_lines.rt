//! The lines that go to err.

ghost use Rattle.std.specs.Prelude.{◌≡◌, ◌++◌, IfOk, OnOk, codes};
ghost use Rattle.std.specs.Fmt.{decimal};
ghost use Rattle.std.specs.List.{flat_map};
ghost use Rattle.hs_io.specs.Spelling.{spaced};
ghost use Rattle.hs_texts.specs.ErrLines.{
  as_line,
  usage_line,
  cannot_read_line,
  too_long_line,
  kiss_line,
  net_line,
  two_drivers_line,
  undriven_line,
  cycle_line,
  bad_start_line,
  start_unknown_line,
  symbol_line,
  conflict_line,
  more_line,
  unspecified_line,
  part_length_line,
  part_place_line,
  not_apart_line,
  code_bits_line,
  no_split_line,
  not_definite_line,
  not_reached_line,
  state_count_line,
  inputs_line,
  outputs_line,
  cover_place_line,
  cover_within_line,
  cover_lacks_line,
  cover_places_line,
  cover_trivial_line,
  cover_leaves_line,
  no_part_line,
  part_bits_line,
  part_inputs_line,
  outputs_inputs_line,
  part_name_line,
  outputs_name_line,
  clock_line,
};

use hs_io::Name;
use std::alloc::{AllocError, Global};

/// The line for a lack of memory.
pub const NO_MEMORY: &[u8] = b"hsdec: no memory\n";

/// The line of a failed put.
pub const CANNOT_WRITE: &[u8] = b"hsdec: cannot write\n";

/// The line of refused words.
pub fn usage(alloc: Global, word: u32) -> Result<Vec<u8>, AllocError>
    ensures { IfOk result (λ line. line.items ≡ usage_line word) }
{
    let number = word.to_string(alloc)?;
    line_of(alloc, &[b"hsdec: usage word ", number.as_bytes()])
}

/// The line of a file that cannot be read.
pub fn cannot_read(alloc: Global, name: &[u8]) -> Result<Vec<u8>, AllocError>
    ensures { IfOk result (λ line. line.items ≡ cannot_read_line name.now) }
{
    line_of(alloc, &[b"hsdec: cannot read ", name])
}

/// The line of a file that is too long.
pub fn too_long(alloc: Global, name: &[u8]) -> Result<Vec<u8>, AllocError>
    ensures { IfOk result (λ line. line.items ≡ too_long_line name.now) }
{
    line_of(alloc, &[b"hsdec: too long ", name])
}

/// The line of a refused text of a machine: the number of its line, and what is wrong there.
pub fn kiss(alloc: Global, line: u32, fault: &[u8]) -> Result<Vec<u8>, AllocError>
    ensures { IfOk result (λ text. text.items ≡ kiss_line line fault.now) }
{
    fault_line(alloc, b"hsdec: kiss line ", line, fault)
}

/// The line of a refused text of a network: the number of its line, and what is wrong there.
pub fn net(alloc: Global, line: u32, fault: &[u8]) -> Result<Vec<u8>, AllocError>
    ensures { IfOk result (λ text. text.items ≡ net_line line fault.now) }
{
    fault_line(alloc, b"hsdec: net line ", line, fault)
}

/// The line of a signal with two drivers.
pub fn two_drivers(alloc: Global, name: &[u8]) -> Result<Vec<u8>, AllocError>
    ensures { IfOk result (λ line. line.items ≡ two_drivers_line name.now) }
{
    line_of(alloc, &[b"hsdec: net two drivers ", name])
}

/// The line of a signal that nothing drives.
pub fn undriven(alloc: Global, name: &[u8]) -> Result<Vec<u8>, AllocError>
    ensures { IfOk result (λ line. line.items ≡ undriven_line name.now) }
{
    line_of(alloc, &[b"hsdec: net undriven ", name])
}

/// The line of a cycle of gates, by the names of their outputs in order.
pub fn cycle(alloc: Global, names: &[Name]) -> Result<Vec<u8>, AllocError>
    ensures { IfOk result (λ line. line.items ≡ cycle_line names.now) }
{
    let mut spaced_names = Vec::new(alloc);
    append_names(&mut spaced_names, names)?;
    line_of(alloc, &[b"hsdec: net cycle", spaced_names.as_slice()])
}

/// The line of a start that is not a text of a bit for each latch.
pub fn bad_start(alloc: Global) -> Result<Vec<u8>, AllocError>
    ensures { IfOk result (λ line. line.items ≡ bad_start_line) }
{
    line_of(alloc, &[b"hsdec: bad start"])
}

/// The line of a latch whose first value is not known.
pub fn start_unknown(alloc: Global, name: &[u8]) -> Result<Vec<u8>, AllocError>
    ensures { IfOk result (λ line. line.items ≡ start_unknown_line name.now) }
{
    line_of(alloc, &[b"hsdec: start unknown ", name])
}

/// The line of a refused text of symbols, with the number of the first line that is wrong.
pub fn symbols(alloc: Global, line: u32) -> Result<Vec<u8>, AllocError>
    ensures { IfOk result (λ text. text.items ≡ symbol_line line) }
{
    let number = line.to_string(alloc)?;
    line_of(alloc, &[b"hsdec: symbols line ", number.as_bytes()])
}

/// The line of two rows that conflict, counted from 1.
pub fn conflict(alloc: Global, row: u32, other: u32) -> Result<Vec<u8>, AllocError>
    ensures { IfOk result (λ line. line.items ≡ conflict_line row other) }
{
    numbered_line(
        alloc,
        &[
            (b"hsdec: conflict rows ", u64::from(row)),
            (b" and ", u64::from(other)),
        ],
        b"",
    )
}

/// The line of what a machine leaves open: a part, for a state and a symbol.
pub fn unspecified(
    alloc: Global,
    state: &[u8],
    symbol: &[u8],
    part: &[u8],
) -> Result<Vec<u8>, AllocError>
    ensures { IfOk result (λ line. line.items ≡ unspecified_line state.now symbol.now part.now) }
{
    line_of(
        alloc,
        &[
            b"hsdec: unspecified state ",
            state,
            b" symbol ",
            symbol,
            b" ",
            part,
        ],
    )
}

/// The line of a listing that exceeds its limit.
pub fn more(alloc: Global, limit: usize) -> Result<Vec<u8>, AllocError>
    ensures { IfOk result (λ line. line.items ≡ more_line limit) }
{
    let number = limit.to_string(alloc)?;
    line_of(alloc, &[b"hsdec: more than ", number.as_bytes()])
}

/// The line of a text of a part with a bad label: the number of the part, and the place of the first such label.
pub fn part_place(alloc: Global, part: usize, place: usize) -> Result<Vec<u8>, AllocError>
    ensures { IfOk result (λ line. line.items ≡ part_place_line part place) }
{
    numbered_line(
        alloc,
        &[(b"hsdec: part ", part as u64), (b" place ", place as u64)],
        b"",
    )
}

/// The line of a text of a part that has `found` labels, and not as many as there are states.
pub fn part_length(
    alloc: Global,
    part: usize,
    found: usize,
    states: usize,
) -> Result<Vec<u8>, AllocError>
    ensures { IfOk result (λ line. line.items ≡ part_length_line part found states) }
{
    numbered_line(
        alloc,
        &[
            (b"hsdec: part ", part as u64),
            (b" has ", found as u64),
            (b" labels, not ", states as u64),
        ],
        b"",
    )
}

/// The line of two states, by their names, that are together in all parts.
pub fn not_apart(alloc: Global, state: &[u8], other: &[u8]) -> Result<Vec<u8>, AllocError>
    ensures { IfOk result (λ line. line.items ≡ not_apart_line state.now other.now) }
{
    line_of(
        alloc,
        &[b"hsdec: states ", state, b" and ", other, b" not apart"],
    )
}

/// The line of codes that have too many bits.
pub fn code_bits(alloc: Global, bits: usize) -> Result<Vec<u8>, AllocError>
    ensures { IfOk result (λ line. line.items ≡ code_bits_line bits) }
{
    numbered_line(alloc, &[(b"hsdec: code has ", bits as u64)], b" bits")
}

/// The line of a machine that has no decomposition of a kind.
pub fn no_split(alloc: Global, kind: &[u8]) -> Result<Vec<u8>, AllocError>
    ensures { IfOk result (λ line. line.items ≡ no_split_line kind.now) }
{
    line_of(alloc, &[b"hsdec: no ", kind, b" decomposition"])
}

/// The line of a machine that is not definite, by the names of two states that, for every length, some word of
/// that length keeps apart.
pub fn not_definite(alloc: Global, state: &[u8], other: &[u8]) -> Result<Vec<u8>, AllocError>
    ensures { IfOk result (λ line. line.items ≡ not_definite_line state.now other.now) }
{
    line_of(
        alloc,
        &[b"hsdec: not definite, states ", state, b" and ", other],
    )
}

/// The line of a definite machine in whose reset state no word of as many symbols as its order ends.
pub fn not_reached(alloc: Global, reset: &[u8]) -> Result<Vec<u8>, AllocError>
    ensures { IfOk result (λ line. line.items ≡ not_reached_line reset.now) }
{
    line_of(alloc, &[b"hsdec: reset ", reset, b" not reached"])
}

/// The line of a machine for which no least code is sought, by the number of its states.
pub fn state_count(alloc: Global, states: usize) -> Result<Vec<u8>, AllocError>
    ensures { IfOk result (λ line. line.items ≡ state_count_line states) }
{
    let number = states.to_string(alloc)?;
    line_of(
        alloc,
        &[b"hsdec: least needs 3 to 8 states, not ", number.as_bytes()],
    )
}

/// The line of a machine that has too many symbols to compare them, by the number of its inputs.
pub fn inputs(alloc: Global, inputs: u8) -> Result<Vec<u8>, AllocError>
    ensures { IfOk result (λ line. line.items ≡ inputs_line inputs) }
{
    numbered_line(
        alloc,
        &[(b"hsdec: inputs ", u64::from(inputs))],
        b" above 8",
    )
}

/// The line of a machine with too many outputs that occur.
pub fn outputs(alloc: Global) -> Result<Vec<u8>, AllocError>
    ensures { IfOk result (λ line. line.items ≡ outputs_line) }
{
    line_of(alloc, &[b"hsdec: more than 256 outputs"])
}

/// The line of a refused text of a cover, by the block and the place of its first bad number.
pub fn cover_place(alloc: Global, block: usize, place: usize) -> Result<Vec<u8>, AllocError>
    ensures { IfOk result (λ line. line.items ≡ cover_place_line block place) }
{
    numbered_line(
        alloc,
        &[
            (b"hsdec: cover block ", block as u64),
            (b" place ", place as u64),
        ],
        b"",
    )
}

/// The line of a block all of whose states are in another block.
pub fn cover_within(alloc: Global, block: usize, other: usize) -> Result<Vec<u8>, AllocError>
    ensures { IfOk result (λ line. line.items ≡ cover_within_line block other) }
{
    numbered_line(
        alloc,
        &[
            (b"hsdec: cover block ", block as u64),
            (b" within block ", other as u64),
        ],
        b"",
    )
}

/// The line of a state that is in no block of a cover.
pub fn cover_lacks(alloc: Global, state: &[u8]) -> Result<Vec<u8>, AllocError>
    ensures { IfOk result (λ line. line.items ≡ cover_lacks_line state.now) }
{
    line_of(alloc, &[b"hsdec: cover lacks ", state])
}

/// The line of a cover whose blocks have too many places in all.
pub fn cover_places(alloc: Global, found: usize) -> Result<Vec<u8>, AllocError>
    ensures { IfOk result (λ line. line.items ≡ cover_places_line found) }
{
    numbered_line(alloc, &[(b"hsdec: cover has ", found as u64)], b" places")
}

/// The line of a cover that splits nothing.
pub fn cover_trivial(alloc: Global) -> Result<Vec<u8>, AllocError>
    ensures { IfOk result (λ line. line.items ≡ cover_trivial_line) }
{
    line_of(alloc, &[b"hsdec: cover is trivial"])
}

/// The line of a block whose next states are in no one block, with the digits of the symbol.
pub fn cover_leaves(alloc: Global, block: usize, symbol: &[u8]) -> Result<Vec<u8>, AllocError>
    ensures { IfOk result (λ line. line.items ≡ cover_leaves_line block symbol.now) }
{
    let block = block.to_string(alloc)?;
    line_of(
        alloc,
        &[
            b"hsdec: cover block ",
            block.as_bytes(),
            b" leaves at symbol ",
            symbol,
        ],
    )
}

/// The line of a part that a split does not have.
pub fn no_part(alloc: Global, part: usize) -> Result<Vec<u8>, AllocError>
    ensures { IfOk result (λ line. line.items ≡ no_part_line part) }
{
    numbered_line(alloc, &[(b"hsdec: no part ", part as u64)], b"")
}

/// The line of a part whose code has no bits.
pub fn part_bits(alloc: Global, part: usize) -> Result<Vec<u8>, AllocError>
    ensures { IfOk result (λ line. line.items ≡ part_bits_line part) }
{
    numbered_line(alloc, &[(b"hsdec: part ", part as u64)], b" has no bits")
}

/// The line of a part whose machine has too many inputs, with their number.
pub fn part_inputs(alloc: Global, part: usize, inputs: usize) -> Result<Vec<u8>, AllocError>
    ensures { IfOk result (λ line. line.items ≡ part_inputs_line part inputs) }
{
    numbered_line(
        alloc,
        &[(b"hsdec: part ", part as u64), (b" has ", inputs as u64)],
        b" inputs",
    )
}

/// The line of outputs whose machine has too many inputs, with their number.
pub fn outputs_inputs(alloc: Global, inputs: usize) -> Result<Vec<u8>, AllocError>
    ensures { IfOk result (λ line. line.items ≡ outputs_inputs_line inputs) }
{
    numbered_line(
        alloc,
        &[(b"hsdec: outputs have ", inputs as u64)],
        b" inputs",
    )
}

/// The line of a part whose machine has a name that is too long, with its length.
pub fn part_name(alloc: Global, part: usize, bytes: usize) -> Result<Vec<u8>, AllocError>
    ensures { IfOk result (λ line. line.items ≡ part_name_line part bytes) }
{
    numbered_line(
        alloc,
        &[
            (b"hsdec: part ", part as u64),
            (b" has a name of ", bytes as u64),
        ],
        b" bytes",
    )
}

/// The line of outputs whose machine has a name that is too long, with its length.
pub fn outputs_name(alloc: Global, bytes: usize) -> Result<Vec<u8>, AllocError>
    ensures { IfOk result (λ line. line.items ≡ outputs_name_line bytes) }
{
    numbered_line(
        alloc,
        &[(b"hsdec: outputs have a name of ", bytes as u64)],
        b" bytes",
    )
}

/// The line of a clock that is a signal of the network.
pub fn clock(alloc: Global, clock: &[u8]) -> Result<Vec<u8>, AllocError>
    ensures { IfOk result (λ line. line.items ≡ clock_line clock.now) }
{
    line_of(alloc, &[b"hsdec: clock ", clock, b" is a signal"])
}

/// A line of words, the number of a line, and what is wrong there.
fn fault_line(alloc: Global, words: &[u8], number: u32, fault: &[u8]) -> Result<Vec<u8>, AllocError>
    ensures { IfOk result (λ line. line.items ≡ as_line (words.now ++ decimal number ++ codes ": " ++ fault.now)) }
{
    let number = number.to_string(alloc)?;
    line_of(alloc, &[words, number.as_bytes(), b": ", fault])
}

/// Appends names, each after a space.
fn append_names(text: &mut Vec<u8>, names: &[Name]) -> Result<(), AllocError>
    ensures { OnOk result (text.new.items ≡ text.old.items ++ flat_map spaced names.now) }
{
    for name in names {
        append_name(text, name.bytes())?;
    }
    Ok(())
}

/// Appends a name after a space.
pub(crate) fn append_name(text: &mut Vec<u8>, name: &[u8]) -> Result<(), AllocError>
    ensures { OnOk result (text.new.items ≡ text.old.items ++ spaced name.now) }
{
    text.push(b' ')?;
    text.extend_from_slice(name)
}

/// Appends words and a number.
pub(crate) fn append_number(
    alloc: Global,
    line: &mut Vec<u8>,
    words: &[u8],
    number: u64,
) -> Result<(), AllocError>
    ensures { OnOk result (line.new.items ≡ line.old.items ++ words.now ++ decimal number) }
{
    line.extend_from_slice(words)?;
    line.extend_from_slice(number.to_string(alloc)?.as_bytes())
}

/// A line of numbers, each after its words, and of words that end it.
fn numbered_line(
    alloc: Global,
    numbers: &[(&[u8], u64)],
    rest: &[u8],
) -> Result<Vec<u8>, AllocError>
    ensures { IfOk result
        (λ line. line.items ≡ as_line (flat_map (λ pair. pair.0.now ++ decimal pair.1) numbers.now ++ rest.now)) }
{
    let mut line = Vec::new(alloc);
    for (words, number) in numbers {
        append_number(alloc, &mut line, words, *number)?;
    }
    line.extend_from_slice(rest)?;
    line.push(b'\n')?;
    Ok(line)
}

/// A line of pieces.
fn line_of(alloc: Global, pieces: &[&[u8]]) -> Result<Vec<u8>, AllocError>
    ensures { IfOk result (λ line. line.items ≡ as_line (flat_map (λ piece. piece.now) pieces.now)) }
{
    let mut text = Vec::new(alloc);
    for piece in pieces {
        text.extend_from_slice(piece)?;
    }
    text.push(b'\n')?;
    Ok(text)
}
