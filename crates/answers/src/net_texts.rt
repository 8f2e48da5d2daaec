//! The text of each fault of a BLIF text.

ghost use Rattle.std.specs.Prelude.{◌≡◌, IfOk};
ghost use Rattle.answers.specs.NetTexts.{fault_line, net_limit_text, structure_line};

use crate::limit_texts::over_limit;
use blif_in::{BlifFault, BlifKind, NetLimit};
use hs_texts::err_lines;
use net_core::NetFail;
use std::alloc::{AllocError, Global};

/// The line of a fault.
pub fn line_of_fault(alloc: Global, fault: &BlifFault) -> Result<Vec<u8>, AllocError>
    ensures { IfOk result (λ line. line.items ≡ fault_line fault.now) }
{
    let words: &[u8] = match &fault.kind {
        BlifKind::BadByte => b"bad byte",
        BlifKind::Unsupported => b"unsupported",
        BlifKind::BadFields => b"bad fields",
        BlifKind::BadRow => b"bad row",
        BlifKind::MixedCover => b"mixed cover",
        BlifKind::LatchKind => b"latch kind",
        BlifKind::Clocks => b"clocks",
        BlifKind::NoModel => b"no model",
        BlifKind::OverLimit { what, found } => {
            let text = over_limit(alloc, word_of_limit(*what), *found)?;
            return err_lines::net(alloc, fault.line, text.as_slice());
        }
        BlifKind::Structure(fail) => return line_of_structure(alloc, fail),
    };
    err_lines::net(alloc, fault.line, words)
}

/// The line of a network that is not sound.
fn line_of_structure(alloc: Global, fail: &NetFail) -> Result<Vec<u8>, AllocError>
    ensures { IfOk result (λ line. line.items ≡ structure_line fail.now) }
{
    match fail {
        NetFail::TwoDrivers { name } => err_lines::two_drivers(alloc, name.bytes()),
        NetFail::Undriven { name } => err_lines::undriven(alloc, name.bytes()),
        NetFail::Cycle { names } => err_lines::cycle(alloc, names.as_slice()),
        NetFail::NoMemory => Err(AllocError),
    }
}

/// What there is too much of.
fn word_of_limit(what: NetLimit) -> &'static [u8]
    ensures { result.now ≡ net_limit_text what }
{
    match what {
        NetLimit::Inputs => b"inputs",
        NetLimit::Outputs => b"outputs",
        NetLimit::Latches => b"latches",
        NetLimit::Gates => b"gates",
        NetLimit::GateInputs => b"gate inputs",
        NetLimit::NameBytes => b"name",
    }
}
