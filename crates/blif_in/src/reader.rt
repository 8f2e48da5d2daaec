//! Reads a BLIF text.
ghost use Rattle.std.specs.Prelude.{◌≡◌, ◌<◌, ◌^◌, ◌∷◌, [], Err, IfOk, List, MatchResult, None, OnOk, length, map};
ghost use Rattle.std.specs.List.{list_any};
ghost use Rattle.std.specs.Str.{bytes_eq};
ghost use Rattle.hs_io.specs.declared.lines.Line.{Line};
ghost use Rattle.net_core.specs.declared.Network.{Network};
ghost use Rattle.net_core.specs.Blif.{Blif};
ghost use Rattle.net_core.specs.Order.{IsOrderOf};
ghost use Rattle.net_core.specs.SoundNetwork.{Sound};
ghost use Rattle.net_core.specs.Statements as said;
ghost use Rattle.blif_in.specs.declared.fault.BlifFault.{BlifFault};
ghost use Rattle.blif_in.specs.Text.{IsBlifFault, IsFaultOf, IsStructureFault, TellsOf, driven_within, text_fault};
ghost use Rattle.blif_in.specs.Text as text;
ghost use Rattle.blif_in.specs.Inner.Draft.{Adds, network_by};
ghost use Rattle.blif_in.specs.Inner.JoinedLines.{lines_read};
ghost use Rattle.blif_in.specs.Inner.Standing.{IsSmall};
ghost use Rattle.blif_in.specs.Inner.ShortFields.{AreMeasurable};
ghost use Rattle.blif_in.specs.Inner.Progress.{IsReadTo, Tells, fault_of};
ghost use Rattle.blif_in.specs.Inner.LineStatements.{numbered, says};

use crate::draft::Draft;
use crate::fault::{BlifFail, BlifFault, BlifKind};
use crate::joined_lines::next_statement;
use crate::progress::{FirstClock, Progress};
use crate::statement::statement_of;
use hs_io::{Line, LineReader};
use net_core::{Gate, Latch, NetFail, Network, Order, check};
use std::alloc::Global;

/// A network, and an order in which its gates are evaluated.
#[derive(Drop)]
pub struct OrderedNetwork {
    pub net: Network,
    pub order: Order,
}

/// The network of a BLIF text, or the first fault of the text. Where the network has several cycles, the fault
/// may name any of them.
pub fn read(alloc: Global, bytes: &[u8]) -> Result<Network, BlifFail>
    requires { length bytes.now < 2 ^ 32 }
    ensures read { IfOk result (λ net. Blif bytes.now net) }
    ensures refused { (fault : BlifFault) → result ≡ Err (BlifFail.Refused fault) → IsBlifFault bytes.now fault }
    ensures never_refused { (net : Network) → Blif bytes.now net
        → MatchResult result (λ read. read ≡ net) (λ fail. fail ≡ BlifFail.NoMemory) }
    ensures never_read { (fault : BlifFault) → IsBlifFault bytes.now fault
        → MatchResult result (λ _. ⊥) (TellsOf fault) }
{
    read_ordered(alloc, bytes).map(|ordered| ordered.net)
}

/// The network that [`read`] gives, with an order of its gates, or the first fault of the text.
pub fn read_ordered(alloc: Global, bytes: &[u8]) -> Result<OrderedNetwork, BlifFail>
    requires { length bytes.now < 2 ^ 32 }
    ensures read { IfOk result (λ ordered. Blif bytes.now ordered.net) }
    ensures order { IfOk result (λ ordered. IsOrderOf ordered.net ordered.order) }
    ensures refused { (fault : BlifFault) → result ≡ Err (BlifFail.Refused fault) → IsBlifFault bytes.now fault }
    ensures never_refused { (net : Network) → Blif bytes.now net
        → MatchResult result (λ ordered. ordered.net ≡ net) (λ fail. fail ≡ BlifFail.NoMemory) }
    ensures never_read { (fault : BlifFault) → IsBlifFault bytes.now fault
        → MatchResult result (λ _. ⊥) (TellsOf fault) }
{
    read_statements(alloc, bytes)
}

/// The network of the statements of a text with an order of its gates, or their first fault.
fn read_statements(alloc: Global, bytes: &[u8]) -> Result<OrderedNetwork, BlifFail>
    requires { length bytes.now < 2 ^ 32 }
    ensures faultless { OnOk result (text_fault (numbered (lines_read bytes.now)) ≡ None) }
    ensures said { IfOk result (λ ordered. ordered.net ≡ text.network_of (map says (lines_read bytes.now))) }
    ensures sound { IfOk result (λ ordered. Sound ordered.net) }
    ensures order { IfOk result (λ ordered. IsOrderOf ordered.net ordered.order) }
    ensures refused { (fault : BlifFault) → result ≡ Err (BlifFail.Refused fault)
        → IsFaultOf (numbered (lines_read bytes.now)) fault }
{
    let mut progress = Progress::new();
    let net = network_said(alloc, bytes, &mut progress)?;
    if let Some(fault) = closing_fault(&progress, &net) {
        return Err(BlifFail::Refused(fault));
    }
    put_in_order(alloc, net)
}

/// Takes up the lines of a text, up to the first fault of a statement, and gives the network that they say.
fn network_said(alloc: Global, bytes: &[u8], progress: &mut Progress) -> Result<Network, BlifFail>
    requires short { length bytes.now < 2 ^ 32 }
    requires none { (lines : List Line) → IsReadTo lines lines progress.old }
    requires small { IsSmall progress.old.summary }
    ensures read { Tells result (text.first_fault [] (numbered (lines_read bytes.now)))
        (λ _. IsReadTo (lines_read bytes.now) [] progress.new) }
    ensures said { IfOk result (λ net. net ≡ text.network_of (map says (lines_read bytes.now))) }
{
    let mut draft = Draft::new(alloc);
    take_lines(alloc, bytes, progress, &mut draft)?;
    Ok(draft.finish()?)
}

/// Takes up the lines of a text, up to the first fault of a statement.
fn take_lines(
    alloc: Global,
    bytes: &[u8],
    progress: &mut Progress,
    draft: &mut Draft,
) -> Result<(), BlifFail>
    requires short { length bytes.now < 2 ^ 32 }
    requires none { (lines : List Line) → IsReadTo lines lines progress.old }
    requires small { IsSmall progress.old.summary }
    requires empty { (statements : List said.Statement) → network_by draft.old statements ≡ text.network_of statements }
    ensures read { Tells result (text.first_fault [] (numbered (lines_read bytes.now)))
        (λ _. IsReadTo (lines_read bytes.now) [] progress.new) }
    ensures said { OnOk result (network_by draft.new [] ≡ text.network_of (map says (lines_read bytes.now))) }
{
    let mut lines = LineReader::new(bytes);
    while let Some(line) = next_statement(alloc, &mut lines)? {
        take_line(alloc, &line, progress, draft)?;
    }
    Ok(())
}

/// Takes up one line more, or gives the fault of that line.
fn take_line(
    alloc: Global,
    line: &Line,
    progress: &mut Progress,
    draft: &mut Draft,
) -> Result<(), BlifFail>
    requires measurable { AreMeasurable line.now.fields }
    requires small { IsSmall progress.old.summary }
    ensures read { (lines rest : List Line) → IsReadTo lines (line.now ∷ rest) progress.old
        → Tells result (text.first_fault [] (numbered lines)) (λ _. IsReadTo lines rest progress.new) }
    ensures small { OnOk result (IsSmall progress.new.summary) }
    ensures adds { OnOk result (Adds (says line.now) draft.old draft.new) }
{
    progress.take(alloc, line)?;
    draft.add(alloc, statement_of(line))?;
    Ok(())
}

/// The network with an order of its gates, if it is sound.
fn put_in_order(alloc: Global, net: Network) -> Result<OrderedNetwork, BlifFail>
    ensures same { IfOk result (λ ordered. ordered.net ≡ net) }
    ensures sound { OnOk result (Sound net) }
    ensures order { IfOk result (λ ordered. IsOrderOf ordered.net ordered.order) }
    ensures refused { (fault : BlifFault) → result ≡ Err (BlifFail.Refused fault) → IsStructureFault net fault }
{
    let order = order_of(alloc, &net)?;
    Ok(OrderedNetwork { net, order })
}

/// An order of the gates of a network, if it is sound.
fn order_of(alloc: Global, net: &Network) -> Result<Order, BlifFail>
    ensures sound { OnOk result (Sound net.now) }
    ensures order { IfOk result (IsOrderOf net.now) }
    ensures refused { (fault : BlifFault) → result ≡ Err (BlifFail.Refused fault) → IsStructureFault net.now fault }
{
    match check(alloc, net) {
        Ok(order) => Ok(order),
        Err(NetFail::NoMemory) => Err(BlifFail::NoMemory),
        Err(fail) => Err(BlifFail::Refused(BlifFault {
            line: 0,
            kind: BlifKind::Structure(fail),
        })),
    }
}

/// The fault of the statements as a whole, if none of them has a fault of its own.
fn closing_fault(progress: &Progress, net: &Network) -> Option<BlifFault>
    ensures { (lines : List Line) → IsReadTo lines [] progress.now → net.now ≡ text.network_of (map says lines)
        → result ≡ text.closing_fault (numbered lines) }
{
    if !progress.summary.begun {
        return Some(BlifFault {
            line: 0,
            kind: BlifKind::NoModel,
        });
    }
    match &progress.clock {
        Some(clock) => clock_fault(net, clock),
        None => None,
    }
}

/// The fault of a driven clock, at the line that first names it.
fn clock_fault(net: &Network, clock: &FirstClock) -> Option<BlifFault>
    ensures { result ≡ fault_of net.now clock.now }
{
    if drives(net, clock.name.bytes()) {
        return Some(BlifFault {
            line: clock.line,
            kind: BlifKind::Clocks,
        });
    }
    None
}

/// Whether a latch or a gate drives the name.
fn drives(net: &Network, name: &[u8]) -> bool
    ensures { result ≡ list_any (bytes_eq name.now) (driven_within net.now) }
{
    latch_drives(net.latches.as_slice(), name) || gate_drives(net.gates.as_slice(), name)
}

/// Whether a latch drives the name.
fn latch_drives(latches: &[Latch], name: &[u8]) -> bool
    ensures { result ≡ list_any (λ latch. bytes_eq name.now latch.output) latches.now }
{
    latches.iter().any(|latch| name == latch.output.bytes())
}

/// Whether a gate drives the name.
fn gate_drives(gates: &[Gate], name: &[u8]) -> bool
    ensures { result ≡ list_any (λ gate. bytes_eq name.now gate.output) gates.now }
{
    gates.iter().any(|gate| name == gate.output.bytes())
}
