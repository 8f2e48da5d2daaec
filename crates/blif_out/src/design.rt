//! How a network is written, and which names its signals have.

ghost use Rattle.std.specs.Prelude.{◌≡◌, ◌||◌, ◌↔◌, Contains, IfOk, IsTrue};
ghost use Rattle.std.specs.List.{list_any};
ghost use Rattle.std.specs.Str.{bytes_eq};
ghost use Rattle.blif_out.specs.Design.{plain_design, signals_of};
ghost use Rattle.blif_out.specs.Inner.Signals.{is_of_gate, is_of_latch};

use hs_io::Name;
use net_core::{Gate, Latch, Network};
use std::alloc::{AllocError, Global};

/// How a network is written: the name of its model, and the clock of its latches, if it has one.
#[derive(Drop)]
pub struct Design {
    pub model: Name,
    pub clock: Option<Name>,
}

impl Design {
    /// The design of a network for which nothing is asked: a model `hsdec` without a clock.
    pub fn plain(alloc: Global) -> Result<Design, AllocError>
        ensures { IfOk result (λ design. design ≡ plain_design) }
    {
        let model = Name::new(alloc, b"hsdec")?;
        Ok(Design { model, clock: None })
    }
}

/// Whether a network has a signal of this name: an input, an output, or a signal of a latch or a gate.
pub fn is_signal(net: &Network, name: &[u8]) -> bool
    ensures { IsTrue result ↔ Contains (signals_of net.now) name.now }
{
    is_end(net, name) || is_within(net, name)
}

/// Whether an input or an output has this name.
fn is_end(net: &Network, name: &[u8]) -> bool
    ensures { result ≡ (list_any (bytes_eq name.now) net.now.inputs || list_any (bytes_eq name.now) net.now.outputs) }
{
    is_among(net.inputs.as_slice(), name) || is_among(net.outputs.as_slice(), name)
}

/// Whether a signal of a latch or of a gate has this name.
fn is_within(net: &Network, name: &[u8]) -> bool
    ensures { result ≡
        (list_any (is_of_latch name.now) net.now.latches || list_any (is_of_gate name.now) net.now.gates) }
{
    is_latch_signal(net.latches.as_slice(), name) || is_gate_signal(net.gates.as_slice(), name)
}

/// Whether one of the names is this one.
fn is_among(names: &[Name], name: &[u8]) -> bool
    ensures { result ≡ list_any (bytes_eq name.now) names.now }
{
    names.iter().any(|other| name == other.bytes())
}

/// Whether a latch has an input or an output of this name.
fn is_latch_signal(latches: &[Latch], name: &[u8]) -> bool
    ensures { result ≡ list_any (is_of_latch name.now) latches.now }
{
    latches.iter().any(|latch| name == latch.input.bytes() || name == latch.output.bytes())
}

/// Whether a gate has an output of this name.
fn is_gate_signal(gates: &[Gate], name: &[u8]) -> bool
    ensures { result ≡ list_any (is_of_gate name.now) gates.now }
{
    gates.iter().any(|gate| name == gate.output.bytes())
}
