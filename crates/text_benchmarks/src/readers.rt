//! Reading of texts of machines and networks. A text that is refused gives 0 and the line of its fault.

ghost use Rattle.std.specs.Prelude.{◌<◌, ◌^◌, length};

use blif_in::BlifFail;
use kiss2::KissFail;
use std::alloc::{AllocError, Global};

/// The numbers of states and of rows of a text of KISS2.
pub(crate) fn read_kiss2(alloc: Global, text: &[u8]) -> Result<(usize, usize), AllocError>
    requires { length text.now < 2 ^ 32 }
{
    match kiss2::read(alloc, text) {
        Ok(file) => Ok((file.states.count(), file.rows.as_slice().len())),
        Err(KissFail::Refused(fault)) => Ok((0, fault.line as usize)),
        Err(KissFail::NoMemory) => Err(AllocError),
    }
}

/// The numbers of inputs and of gates of a text of BLIF.
pub(crate) fn read_blif(alloc: Global, text: &[u8]) -> Result<(usize, usize), AllocError>
    requires { length text.now < 2 ^ 32 }
{
    match blif_in::read(alloc, text) {
        Ok(net) => Ok((net.inputs.as_slice().len(), net.gates.as_slice().len())),
        Err(BlifFail::Refused(fault)) => Ok((0, fault.line as usize)),
        Err(BlifFail::NoMemory) => Err(AllocError),
    }
}
