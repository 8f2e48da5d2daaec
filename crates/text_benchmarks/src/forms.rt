//! The texts, as forms: pieces that occur once and pieces that are repeated, in turn.

ghost use Rattle.std.specs.Prelude.{◌≤◌};

use bench_cases::drawn_index;
use std::alloc::{AllocError, Global};

/// A kind of text. Every second piece is repeated `size` times.
pub(crate) struct Form {
    subject: &'static str,
    kind: &'static str,
    pieces: &'static [&'static str],
}

/// The kinds of texts. A piece that is repeated has a number at each repetition, counted from 0. A piece that
/// occurs once has the size for its number. In a piece these characters stand for others:
///
/// - `%` for the number in five digits, and `^` for the next number;
/// - `@` for the remainder of the number by 256 in three digits, and `&` for that of its 256th part;
/// - `~` for the bit of the number at the character's place, modulo 16;
/// - `!` for a bit that the number and the place draw.
static FORMS: [Form; 26] = [
    // rows of fields of four bytes, as many as the kind says
    Form {
        subject: "lines",
        kind: "four",
        pieces: &["", "st01 st01 st01 st01 \n"],
    },
    Form {
        subject: "lines",
        kind: "five",
        pieces: &["", "st01 st01 st01 st01 st01 \n"],
    },
    Form {
        subject: "lines",
        kind: "twelve",
        pieces: &[
            "",
            "st01 st01 st01 st01 st01 st01 st01 st01 st01 st01 st01 st01 \n",
        ],
    },
    // rows of 256 states, and the same with names that have the same first 20 bytes
    Form {
        subject: "kiss2",
        kind: "rows",
        pieces: &[".i 16\n.o 8\n", "~~~~~~~~~~~~~~~~ s@ s& 0101--01\n"],
    },
    Form {
        subject: "kiss2",
        kind: "names",
        pieces: &[
            ".i 16\n.o 8\n",
            "~~~~~~~~~~~~~~~~ state_of_the_machine@ state_of_the_machine& 0101--01\n",
        ],
    },
    // comments or empty lines, and then the toggle
    Form {
        subject: "kiss2",
        kind: "comments",
        pieces: &["", "# \n", TOGGLE],
    },
    Form {
        subject: "kiss2",
        kind: "blanks",
        pieces: &["", "\n", TOGGLE],
    },
    // one field of `size` bytes, and one line with `size` names
    Form {
        subject: "kiss2",
        kind: "line",
        pieces: &["", "x"],
    },
    Form {
        subject: "kiss2",
        kind: "fields",
        pieces: &[".i 1\n.ilb", " a"],
    },
    // a fault on the first line, and then rows
    Form {
        subject: "kiss2",
        kind: "refused",
        pieces: &[".i 0\n", "0 a a 0\n"],
    },
    // gates with twelve inputs, and gates whose names have the same first 20 bytes
    Form {
        subject: "blif",
        kind: "gates",
        pieces: &[MODEL, ".names x x x x x x x x x x x x g%\n1-------0--- 1\n"],
    },
    Form {
        subject: "blif",
        kind: "names",
        pieces: &[MODEL, ".names state_of_the_machine%\n1\n"],
    },
    // gates that each read the gate after them, and a last gate that reads an input, or the first gate
    Form {
        subject: "blif",
        kind: "chain",
        pieces: &[MODEL, ".names g^ g%\n1 1\n", ".names x g%\n1 1\n"],
    },
    Form {
        subject: "blif",
        kind: "ring",
        pieces: &[MODEL, ".names g^ g%\n1 1\n", ".names g00000 g%\n1 1\n"],
    },
    // rows of one gate
    Form {
        subject: "blif",
        kind: "rows",
        pieces: &[".model m\n.inputs x\n.names x z\n", "1 1\n"],
    },
    // a line that is continued, with a field on each line and without fields
    Form {
        subject: "blif",
        kind: "continued",
        pieces: &[".model m\n.names \\\n", "a\\\n"],
    },
    Form {
        subject: "blif",
        kind: "blanks",
        pieces: &[".model m\n.names x\\\n", "\\\n"],
    },
    // one name of `size` bytes, and one line with `size` names
    Form {
        subject: "blif",
        kind: "line",
        pieces: &[".model m\n.inputs ", "x"],
    },
    Form {
        subject: "blif",
        kind: "fields",
        pieces: &[".model m\n.outputs", " a"],
    },
    // a fault on the first line, and then rows
    Form {
        subject: "blif",
        kind: "refused",
        pieces: &[".inputs x\n", "1 1\n"],
    },
    // a binary counter with an enable, whose two outputs read all latches
    Form {
        subject: "networks",
        kind: "counter",
        pieces: &[
            ".model m\n.inputs c00000\n.outputs all some\n",
            ".latch d% q% 0\n",
            "",
            ".names c% q% d%\n01 1\n10 1\n.names c% q% c^\n11 1\n",
            ".names",
            " q%",
            " all\n",
            "1",
            " 1\n.names",
            " q%",
            " some\n",
            "0",
            " 0\n",
        ],
    },
    // random gates over a code of `size` bits, each of which reads four inputs and all latches
    Form {
        subject: "networks",
        kind: "code",
        pieces: &[
            ".model m\n.inputs x0 x1 x2 x3\n.outputs d00000\n",
            ".latch d% q% 0\n",
        ],
    },
    // inverters, of which the first reads the input and each other reads the one before it
    Form {
        subject: "networks",
        kind: "chain",
        pieces: &[
            ".model m\n.inputs g00000\n.outputs g%\n",
            ".names g% g^\n0 1\n",
        ],
    },
    // the symbols that networks are run on
    Form {
        subject: "symbols",
        kind: "counter",
        pieces: &["", "!\n"],
    },
    Form {
        subject: "symbols",
        kind: "code",
        pieces: &["", "!!!!\n"],
    },
    Form {
        subject: "symbols",
        kind: "chain",
        pieces: &["", "!\n"],
    },
];

const TOGGLE: &str = ".i 1\n.o 1\n0 a a 0\n1 a b 1\n0 b b 1\n1 b a 0\n.e\n";

const MODEL: &str = ".model m\n.inputs x\n";

/// The form with this subject and kind, if there is one.
pub(crate) fn form_of(subject: &str, kind: &str) -> Option<&'static Form> {
    for form in &FORMS {
        if form.subject == subject && form.kind == kind {
            return Some(form);
        }
    }
    None
}

/// The text of a form in the given size.
pub(crate) fn text_of(alloc: Global, form: &Form, size: usize) -> Result<Vec<u8>, AllocError> {
    let mut text = Vec::new(alloc);
    add_pieces(&mut text, form.pieces, size)?;
    if form.subject == "networks" && form.kind == "code" {
        add_gates(&mut text, size)?;
    }
    Ok(text)
}

/// Adds pieces, every second one `size` times.
fn add_pieces(text: &mut Vec<u8>, pieces: &[&str], size: usize) -> Result<(), AllocError> {
    for (place, piece) in pieces.iter().enumerate() {
        if place % 2 == 0 {
            add_piece(text, piece, size)?;
        } else {
            add_each(text, piece, size)?;
        }
    }
    Ok(())
}

/// Adds a piece the given number of times, with the numbers from 0 on.
fn add_each(text: &mut Vec<u8>, piece: &str, times: usize) -> Result<(), AllocError> {
    for number in 0..times {
        add_piece(text, piece, number)?;
    }
    Ok(())
}

/// Adds a piece with the given number.
fn add_piece(text: &mut Vec<u8>, piece: &str, number: usize) -> Result<(), AllocError> {
    for (place, byte) in piece.as_bytes().iter().enumerate() {
        let (value, unsaid) = match *byte {
            b'%' => (number, 0),
            b'^' => (number.wrapping_add(1), 0),
            b'@' => (number % 256, 2),
            b'&' => (number / 256 % 256, 2),
            other => {
                text.push(character(other, number, place))?;
                continue;
            }
        };
        text.extend_from_slice(&digits(value)[unsaid..])?;
    }
    Ok(())
}

/// The lowest five decimal digits of a number.
fn digits(number: usize) -> [u8; 5] {
    [
        digit(number / 10_000),
        digit(number / 1_000),
        digit(number / 100),
        digit(number / 10),
        digit(number),
    ]
}

/// The last decimal digit of a number.
fn digit(number: usize) -> u8 {
    b'0' + (number % 10) as u8
}

/// The character that a byte stands for in a piece with this number, at this place.
fn character(byte: u8, number: usize, place: usize) -> u8 {
    match byte {
        b'~' => bit_character(number >> (place % 16)),
        b'!' => bit_character(drawn_index(number, place)),
        _ => byte,
    }
}

/// The lowest bit of a number.
fn bit_character(number: usize) -> u8 {
    if number % 2 == 1 { b'1' } else { b'0' }
}

/// Adds a gate for each latch, with one row for every six values of all inputs and latches.
fn add_gates(text: &mut Vec<u8>, latches: usize) -> Result<(), AllocError> {
    let latches = latches.min(16);
    for latch in 0..latches {
        add_pieces(text, &[".names x0 x1 x2 x3", " q%"], latches)?;
        add_piece(text, " d%\n", latch)?;
        add_rows(text, latches + 4, latch)?;
    }
    Ok(())
}

/// Adds the rows of a gate with `width` inputs.
fn add_rows(text: &mut Vec<u8>, width: usize, gate: usize) -> Result<(), AllocError>
    requires { width ≤ 20 }
{
    for row in 0..(1usize << width) / 6 {
        add_row(text, width, gate.wrapping_mul(1 << 20).wrapping_add(row))?;
    }
    Ok(())
}

/// Adds a row of bits that its number draws, with a dash one time in six.
fn add_row(text: &mut Vec<u8>, width: usize, number: usize) -> Result<(), AllocError> {
    for place in 0..width {
        let draw = drawn_index(number, place);
        text.push(if draw / 2 % 6 == 0 {
            b'-'
        } else {
            bit_character(draw)
        })?;
    }
    text.extend_from_slice(b" 1\n")
}
