//! The calls of `blif_out` on designs, for one network with two latches.

ghost use Rattle.std.specs.Prelude.{◌≡◌, IfSome};
ghost use Rattle.blif_out.specs.Design.{IsDesignOf};
ghost use Rattle.blif_out.specs.NetworkText.{CanBeText};
ghost use Rattle.blif_out.specs.Worked.{started_network};

use crate::net_texts::put_bytes;
use blif_in::read;
use blif_out::{CommentedNetwork, Design, is_signal, text_of_network};
use case_lines::Answer;
use hs_io::Name;
use hs_list::Items;
use std::alloc::Global;

/// The network: its first latch starts at 1, and its second one at 0.
const STARTED: &[u8] =
    b".model .m-2\n.inputs up hold\n.outputs last\n.latch d0 q0 1\n.latch d1 q1 0\n.names hold q1 d0\n0- 1\n11 1\n.names up q0 d1\n10 1\n.names q1 last\n0 1\n.end\n";

/// Puts what a call answers.
pub(crate) fn put_answer(alloc: Global, call: &str, word: &str, answer: &mut Answer) {
    let Some(made) = started(alloc) else {
        return answer.fail();
    };
    if call == "is_signal" {
        put_signal(is_signal(&made.network, word.as_bytes()), answer);
    } else {
        put_design(alloc, word, &made, answer);
    }
}

/// The network, without comments.
fn started(alloc: Global) -> Option<CommentedNetwork>
    ensures text { IfSome result CanBeText }
    ensures network { IfSome result (λ made. made.network ≡ started_network) }
{
    match read(alloc, STARTED) {
        Ok(network) => Some(CommentedNetwork {
            comments: Items::new(alloc),
            network,
        }),
        Err(_) => None,
    }
}

/// Puts whether a name is a signal.
fn put_signal(is: bool, answer: &mut Answer) {
    answer.add(if is {
        b"signal".as_slice()
    } else {
        b"no signal"
    });
}

/// Puts the text of the network in a design, and then the network that this text says.
fn put_design(alloc: Global, word: &str, made: &CommentedNetwork, answer: &mut Answer)
    requires text { CanBeText made.now }
    requires network { made.now.network ≡ started_network }
{
    let Some(design) = design(alloc, word) else {
        return answer.fail();
    };
    match text_of_network(alloc, &design, made) {
        Ok(text) => {
            answer.add(text.as_slice());
            put_bytes(alloc, text.as_slice(), answer);
        }
        Err(_) => answer.fail(),
    }
}

/// The design of a word: with a clock, under another name, or the plain one.
fn design(alloc: Global, word: &str) -> Option<Design>
    ensures { IfSome result (IsDesignOf started_network) }
{
    match word {
        "clocked" => clocked(alloc),
        "named" => named(alloc),
        _ => plain(alloc),
    }
}

/// A design with a clock, under another name.
fn clocked(alloc: Global) -> Option<Design>
    ensures { IfSome result (IsDesignOf started_network) }
{
    let model = Name::new(alloc, b"counter").ok()?;
    let clock = Name::new(alloc, b"clk").ok()?;
    Some(Design {
        model,
        clock: Some(clock),
    })
}

/// A design under another name, without a clock.
fn named(alloc: Global) -> Option<Design>
    ensures { IfSome result (IsDesignOf started_network) }
{
    let model = Name::new(alloc, b"up.down").ok()?;
    Some(Design { model, clock: None })
}

/// The plain design.
fn plain(alloc: Global) -> Option<Design>
    ensures { IfSome result (IsDesignOf started_network) }
{
    Design::plain(alloc).ok()
}
