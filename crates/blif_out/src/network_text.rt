//! The text of a network, statement by statement.

ghost use Rattle.std.specs.Prelude.{◌≡◌, [], ◌∷◌, ◌++◌, OnOk};
ghost use Rattle.std.specs.List.{flat_map};
ghost use Rattle.hs_io.specs.Spelling.{ended, line_text, spaced};
ghost use Rattle.net_core.specs.Words.{inputs_word, model_word, names_word, outputs_word};
ghost use Rattle.blif_out.specs.Design.{control_fields};
ghost use Rattle.blif_out.specs.NetText.{net_text};
ghost use Rattle.blif_out.specs.Inner.Pieces.{row_line, latch_line, gate_lines};

use crate::Design;
use crate::fields::{append_field, append_names};
use hs_io::Name;
use net_core::{Gate, Latch, Network};
use std::alloc::AllocError;

/// Appends the text of a network from `.model` on.
pub fn append_network(text: &mut Vec<u8>, design: &Design, net: &Network) -> Result<(), AllocError>
    ensures { OnOk result (text.new.items ≡ text.old.items ++ net_text design.now net.now) }
{
    append_model(text, design.model.bytes())?;
    append_signals(text, net)?;
    append_latches(text, design, net.latches.as_slice())?;
    append_gates(text, net.gates.as_slice())?;
    text.extend_from_slice(b".end\n")?;
    Ok(())
}

/// Appends the line of the model's name.
fn append_model(text: &mut Vec<u8>, name: &[u8]) -> Result<(), AllocError>
    ensures { OnOk result (text.new.items ≡ text.old.items ++ ended (line_text (model_word ∷ name.now ∷ []))) }
{
    text.extend_from_slice(b".model")?;
    append_field(text, name)?;
    text.push(b'\n')?;
    Ok(())
}

/// Appends the lines of the inputs and of the outputs.
fn append_signals(text: &mut Vec<u8>, net: &Network) -> Result<(), AllocError>
    ensures { OnOk result
        (text.new.items ≡ text.old.items ++
        (ended (line_text (inputs_word ∷ net.now.inputs)) ++ ended (line_text (outputs_word ∷ net.now.outputs)))) }
{
    text.extend_from_slice(b".inputs")?;
    append_names(text, net.inputs.as_slice())?;
    text.extend_from_slice(b"\n.outputs")?;
    append_names(text, net.outputs.as_slice())?;
    text.push(b'\n')?;
    Ok(())
}

/// Appends the lines of latches.
fn append_latches(text: &mut Vec<u8>, design: &Design, latches: &[Latch]) -> Result<(), AllocError>
    ensures { OnOk result (text.new.items ≡ text.old.items ++ flat_map (latch_line design.now) latches.now) }
{
    for latch in latches {
        append_latch(text, design, latch)?;
    }
    Ok(())
}

/// Appends the line of a latch.
fn append_latch(text: &mut Vec<u8>, design: &Design, latch: &Latch) -> Result<(), AllocError>
    ensures { OnOk result (text.new.items ≡ text.old.items ++ latch_line design.now latch.now) }
{
    text.extend_from_slice(b".latch")?;
    append_field(text, latch.input.bytes())?;
    append_field(text, latch.output.bytes())?;
    append_control(text, &design.clock)?;
    append_field(text, &[latch.start.digit()])?;
    text.push(b'\n')?;
    Ok(())
}

/// Appends the type of a latch and its clock, if there is a clock.
fn append_control(text: &mut Vec<u8>, clock: &Option<Name>) -> Result<(), AllocError>
    ensures { OnOk result (text.new.items ≡ text.old.items ++ flat_map spaced (control_fields clock.now)) }
{
    let Some(clock) = clock else {
        return Ok(());
    };
    append_field(text, b"re")?;
    append_field(text, clock.bytes())?;
    Ok(())
}

/// Appends the lines of gates.
fn append_gates(text: &mut Vec<u8>, gates: &[Gate]) -> Result<(), AllocError>
    ensures { OnOk result (text.new.items ≡ text.old.items ++ flat_map gate_lines gates.now) }
{
    for gate in gates {
        append_gate(text, gate)?;
    }
    Ok(())
}

/// Appends the lines of a gate.
fn append_gate(text: &mut Vec<u8>, gate: &Gate) -> Result<(), AllocError>
    ensures { OnOk result (text.new.items ≡ text.old.items ++ gate_lines gate.now) }
{
    append_gate_names(text, gate)?;
    append_rows(text, gate.rows.as_slice())?;
    Ok(())
}

/// Appends the line of a gate's names.
fn append_gate_names(text: &mut Vec<u8>, gate: &Gate) -> Result<(), AllocError>
    ensures { OnOk result
        (text.new.items ≡ text.old.items ++ ended
        (line_text (names_word ∷ (gate.now.inputs ++ gate.now.output ∷ [])))) }
{
    text.extend_from_slice(b".names")?;
    append_names(text, gate.inputs.as_slice())?;
    append_field(text, gate.output.bytes())?;
    text.push(b'\n')?;
    Ok(())
}

/// Appends the lines of rows.
fn append_rows(text: &mut Vec<u8>, rows: &[Name]) -> Result<(), AllocError>
    ensures { OnOk result (text.new.items ≡ text.old.items ++ flat_map row_line rows.now) }
{
    for row in rows {
        append_row(text, row.bytes())?;
    }
    Ok(())
}

/// Appends the line of a row.
fn append_row(text: &mut Vec<u8>, plane: &[u8]) -> Result<(), AllocError>
    ensures { OnOk result (text.new.items ≡ text.old.items ++ row_line plane.now) }
{
    if plane.is_empty() {
        return text.extend_from_slice(b"1\n");
    }
    text.extend_from_slice(plane)?;
    text.extend_from_slice(b" 1\n")
}
