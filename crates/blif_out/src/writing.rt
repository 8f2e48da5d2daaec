//! The text of a network after its comments or its header, and the text of the network alone.

ghost use Rattle.std.specs.Prelude.{◌≡◌, ◌≤◌, ◌++◌, IfOk, OnErr, OnOk, length};
ghost use Rattle.hs_io.specs.Spelling.{ArePlainFields};
ghost use Rattle.net_core.specs.Denotation.{Denotes};
ghost use Rattle.blif_out.specs.Comments.{IsPrintable};
ghost use Rattle.blif_out.specs.Design.{IsDesignOf, plain_design};
ghost use Rattle.blif_out.specs.Head.{Head, header_text, net_text_of};
ghost use Rattle.blif_out.specs.NetText.{net_text};
ghost use Rattle.blif_out.specs.NetworkText.{IsNetworkText, CanBeText};
ghost use Rattle.blif_out.specs.Order.{HasKnownStarts, HasRowsInOrder};
ghost use Rattle.blif_out.specs.Writable.{IsWritable};

use crate::header_text::append_header;
use crate::network_text::append_network;
use crate::{CommentedNetwork, Design, Header};
use net_core::Network;
use std::alloc::{AllocError, Global};

/// The text of a network after the comments of its header, in the plain design.
pub fn text(alloc: Global, net: &Network, header: &Header) -> Result<Vec<u8>, AllocError>
    requires writable { IsWritable net.now }
    requires starts { HasKnownStarts net.now }
    requires rows { HasRowsInOrder net.now }
    requires latches { length net.now.latches ≤ 64 }
    requires notes { length header.now.latches ≡ length net.now.latches }
    requires words { length header.now.words ≡ length header.now.states }
    requires states { ArePlainFields header.now.states }
    ensures whole { IfOk result (λ text. text.items ≡ net_text_of plain_design header.now net.now) }
    ensures denotes { IfOk result (λ text. Denotes text.items net.now) }
    ensures head { IfOk result (λ text. Head plain_design text.items header.now) }
{
    whole_text(alloc, net, header)
}

/// The lines of a header, and then those of a network in the plain design.
pub(crate) fn whole_text(
    alloc: Global,
    net: &Network,
    header: &Header,
) -> Result<Vec<u8>, AllocError>
    requires { IsPrintable header.now }
    ensures { IfOk result (λ text. text.items ≡ net_text_of plain_design header.now net.now) }
{
    let design = Design::plain(alloc)?;
    let mut text = header_comments(alloc, header)?;
    append_network(&mut text, &design, net)?;
    Ok(text)
}

/// The comments of a header.
pub fn header_comments(alloc: Global, header: &Header) -> Result<Vec<u8>, AllocError>
    requires { IsPrintable header.now }
    ensures { IfOk result (λ comments. comments.items ≡ header_text header.now) }
{
    let mut comments = Vec::new(alloc);
    append_header(alloc, &mut comments, header)?;
    Ok(comments)
}

/// The text of a network after its comments, in a design.
pub fn text_of_network(
    alloc: Global,
    design: &Design,
    made: &CommentedNetwork,
) -> Result<Vec<u8>, AllocError>
    requires made { CanBeText made.now }
    requires design { IsDesignOf made.now.network design.now }
    ensures { IfOk result (λ text. IsNetworkText design.now made.now.comments made.now.network text.items) }
{
    let mut text = Vec::from_slice(alloc, made.comments.as_slice())?;
    append_network(&mut text, design, &made.network)?;
    Ok(text)
}

/// Appends the text of a network without a header, in the plain design. If memory runs out, nothing is appended.
pub fn append(alloc: Global, net: &Network, into: &mut Vec<u8>) -> Result<(), AllocError>
    requires writable { IsWritable net.now }
    requires starts { HasKnownStarts net.now }
    requires rows { HasRowsInOrder net.now }
    ensures ok { OnOk result (into.new.items ≡ into.old.items ++ net_text plain_design net.now) }
    ensures err { OnErr result (into.new.items ≡ into.old.items) }
{
    let design = Design::plain(alloc)?;
    let mut text = Vec::new(alloc);
    append_network(&mut text, &design, net)?;
    into.extend_from_slice(text.as_slice())
}
