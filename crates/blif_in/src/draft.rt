//! Builds the network, statement after statement.
ghost use Rattle.std.specs.Prelude.{◌≡◌, ℕ, ◌∷◌, ◌++◌, [], IfOk, List, None, OnOk};
ghost use Rattle.std.specs.Option.{option_to_list};
ghost use Rattle.net_core.specs.Statements as said;
ghost use Rattle.blif_in.specs.Text as text;
ghost use Rattle.blif_in.specs.Inner.Draft.{Adds, gate_by, gates_by, network_by};
ghost use Rattle.blif_in.specs.Inner.LineStatements.{said_by};

use crate::statement::{Statement, latch_parts, start_said};
use hs_io::{Name, Names};
use net_core::{Gate, Gates, Latch, Latches, Network, Start};
use std::alloc::{AllocError, Global};

/// A gate, as far as its rows were read.
#[derive(Drop)]
pub(crate) struct DraftGate {
    pub inputs: Names,
    pub output: Name,
    pub rows: Names,
    /// The output bit of its first row.
    pub bit: Option<bool>,
}

/// A network, as far as its statements were read.
#[derive(Drop)]
pub(crate) struct Draft {
    pub inputs: Names,
    pub outputs: Names,
    pub latches: Latches,
    pub gates: Gates,
    /// The gate to which a row belongs that comes next.
    pub open_gate: Option<DraftGate>,
}

impl Draft {
    /// Before the first statement.
    pub fn new(alloc: Global) -> Draft
        ensures { (statements : List said.Statement) → network_by result statements ≡ text.network_of statements }
    {
        Draft {
            inputs: Names::new(alloc),
            outputs: Names::new(alloc),
            latches: Latches::new(alloc),
            gates: Gates::new(alloc),
            open_gate: None,
        }
    }

    /// Adds what a statement says.
    pub fn add(&mut self, alloc: Global, statement: Statement<'_>) -> Result<(), AllocError>
        ensures { OnOk result (Adds (said_by statement.entry) self.old self.new) }
    {
        if let Statement::Row(fields) = statement {
            return add_row(alloc, &mut self.open_gate, fields);
        }
        add_gate(&mut self.gates, self.open_gate.take())?;
        self.begin(alloc, statement)
    }

    /// Adds what a statement says while no gate is open.
    fn begin(&mut self, alloc: Global, statement: Statement<'_>) -> Result<(), AllocError>
        requires { self.old.open_gate ≡ None }
        ensures { OnOk result (Adds (said_by statement.entry) self.old self.new) }
    {
        match statement {
            Statement::Inputs(names) => add_names(alloc, &mut self.inputs, names),
            Statement::Outputs(names) => add_names(alloc, &mut self.outputs, names),
            Statement::Latch(operands) => add_latch(alloc, &mut self.latches, operands),
            Statement::Names(names) => {
                self.open_gate = Some(gate_of(alloc, names)?);
                Ok(())
            }
            Statement::Row(_) | Statement::Model(_) | Statement::Clock(_) | Statement::Other => {
                Ok(())
            }
        }
    }

    /// The network of the statements.
    pub fn finish(self) -> Result<Network, AllocError>
        ensures { IfOk result (λ net. net ≡ network_by self []) }
    {
        let Draft {
            inputs,
            outputs,
            latches,
            mut gates,
            open_gate,
        } = self;
        add_gate(&mut gates, open_gate)?;
        Ok(Network {
            inputs,
            outputs,
            latches,
            gates,
        })
    }
}

/// Adds the gate whose rows were read, if there is one.
fn add_gate(gates: &mut Gates, open_gate: Option<DraftGate>) -> Result<(), AllocError>
    ensures { OnOk result (gates.new ≡ gates.old ++ gates_by open_gate []) }
{
    match open_gate {
        Some(gate) => gates.push(whole_gate(gate)),
        None => Ok(()),
    }
}

/// The gate of which all rows were read.
fn whole_gate(gate: DraftGate) -> Gate
    ensures { result ≡ gate_by gate [] }
{
    Gate {
        inputs: gate.inputs,
        output: gate.output,
        rows: gate.rows,
        on: gate.bit.unwrap_or(true),
    }
}

/// Adds a row to the open gate, if there is one.
fn add_row(
    alloc: Global,
    open_gate: &mut Option<DraftGate>,
    fields: &[Name],
) -> Result<(), AllocError>
    ensures { OnOk result
        ((rows : List (List (List ℕ))) → gates_by open_gate.new rows ≡ gates_by open_gate.old (fields.now ∷ rows)) }
{
    if let Some(gate) = open_gate {
        gate.rows.push(Name::new(alloc, plane_of(fields))?)?;
        gate.bit = Some(gate.bit.unwrap_or(has_bit_one(fields)));
    }
    Ok(())
}

/// Adds copies of names.
fn add_names(alloc: Global, into: &mut Names, names: &[Name]) -> Result<(), AllocError>
    ensures { OnOk result (into.new ≡ into.old ++ names.now) }
{
    for name in names {
        into.push(Name::new(alloc, name.bytes())?)?;
    }
    Ok(())
}

/// Adds a latch with these operands.
fn add_latch(alloc: Global, latches: &mut Latches, operands: &[Name]) -> Result<(), AllocError>
    ensures { OnOk result (latches.new ≡ latches.old ++ option_to_list (said.latch_in (said.LatchLine operands.now))) }
{
    let Some(parts) = latch_parts(operands) else {
        return Ok(());
    };
    let Some(start) = start_said(parts.start) else {
        return Ok(());
    };
    latches.push(latch_of(alloc, parts.input, parts.output, start)?)
}

/// The latch of copies of these names.
fn latch_of(alloc: Global, input: &Name, output: &Name, start: Start) -> Result<Latch, AllocError>
    ensures { IfOk result (λ latch. latch ≡ record { input = input.now; output = output.now; start = start }) }
{
    Ok(Latch {
        input: Name::new(alloc, input.bytes())?,
        output: Name::new(alloc, output.bytes())?,
        start,
    })
}

/// The gate of these names, before its first row.
fn gate_of(alloc: Global, names: &[Name]) -> Result<DraftGate, AllocError>
    ensures { IfOk result (λ gate. (rows : List (List (List ℕ))) → gate_by gate rows ≡ said.gate_from names.now rows) }
{
    let mut inputs = Names::new(alloc);
    let (front, output) = match names {
        [front @ .., last] => (front, last.bytes()),
        [] => (names, b"".as_slice()),
    };
    add_names(alloc, &mut inputs, front)?;
    Ok(DraftGate {
        inputs,
        output: Name::new(alloc, output)?,
        rows: Names::new(alloc),
        bit: None,
    })
}

/// The plane of a row.
fn plane_of(fields: &[Name]) -> &[u8]
    ensures { result.now ≡ said.plane_of fields.now }
{
    match fields {
        [plane, _] => plane.bytes(),
        _ => &[],
    }
}

/// Whether the output bit of a row is 1.
fn has_bit_one(fields: &[Name]) -> bool
    ensures { result ≡ said.bit_of fields.now }
{
    match fields {
        [bit] | [_, bit] => bit.bytes() == b"1".as_slice(),
        _ => false,
    }
}
