//! Words of cases, and names in answers.

ghost use Rattle.std.specs.Prelude.{◌≤◌, IfSome, length};

use case_lines::{Answer, unescaped};
use hs_io::Name;
use net_core::NetFail;
use std::alloc::Global;

/// The bytes of a text with escapes, if they are no more than a file can have.
pub(crate) fn bytes(alloc: Global, text: &str) -> Option<Vec<u8>>
    ensures { IfSome result (λ bytes. length bytes.items ≤ 4194304) }
{
    let bytes = unescaped(alloc, text).ok()?;
    if bytes.len() <= 4_194_304 {
        Some(bytes)
    } else {
        None
    }
}

/// Puts names, with the same piece behind each.
pub(crate) fn put_names(names: &[Name], behind: &[u8], answer: &mut Answer) {
    for name in names {
        answer.add_all(&[name.bytes(), behind]);
    }
}

/// Puts why a network is not sound, with the same piece behind each name.
pub(crate) fn put_unsound(fail: &NetFail, behind: &[u8], answer: &mut Answer) {
    match fail {
        NetFail::TwoDrivers { name } => put_cause(b"two drivers ", name, behind, answer),
        NetFail::Undriven { name } => put_cause(b"undriven ", name, behind, answer),
        NetFail::Cycle { names } => {
            answer.add(b"cycle ");
            put_names(names.as_slice(), behind, answer);
        }
        NetFail::NoMemory => answer.fail(),
    }
}

/// Puts a cause that has a name.
fn put_cause(cause: &[u8], name: &Name, behind: &[u8], answer: &mut Answer) {
    answer.add_all(&[cause, name.bytes(), behind]);
}
