//! Writes networks as BLIF.
//!
//! [`text_of_network`] gives the text of a network after its comments, whatever they say. `specs/NetworkText` says
//! all that holds of such a text: it is whole, denotes the network, also after further comments, and the network is
//! sound and starts at known values. `specs/Writable` and `specs/Order` say which networks can be written.
//!
//! A [`Design`] gives the name of the model and the clock of the latches, if they have one. `specs/Design` says which
//! designs a network has: in each of them its text denotes the same network. [`is_signal`] finds the names that a
//! designer must not take for a clock, since they are signals of the network.
//!
//! [`header_comments`] gives the comments that say how a network was made, which `specs/Head` lays out line by
//! line; [`text`] gives them and the network in one call, and [`append`] gives only the network. [`append_field`] and
//! the calls beside it give single fields of a comment, for texts with other comments.
//!
//! `specs/Worked` has worked texts, and the laws whose names begin with `worked` say that they are as written.
//!
//! Why the text denotes the network: each line of the header begins with the mark of a comment and otherwise
//! has only visible bytes and spaces, so a reader skips it. Each statement is read as the fields that spell it.
#![tactic(auto)]

ghost use Rattle.blif_out.specs.Comments.{CommentsJoin, HeaderIsComments};
ghost use Rattle.blif_out.specs.Design.{PlainDesignIsLawful};
ghost use Rattle.blif_out.specs.HeadLaw.{HeadIsComments, HeadOnce};
ghost use Rattle.blif_out.specs.Law.{NetTextDenotes};
ghost use Rattle.blif_out.specs.NetworkText.{NetworkHasText, TextHasHead};

mod design;
mod fields;
mod header;
mod header_text;
mod network_text;
mod networks;
mod worked;
mod writing;

pub use design::{Design, is_signal};
pub use fields::{
    append_code_field, append_field, append_number, append_number_field, append_numbers_field,
};
pub use header::{Header, LatchNote, LatchNotes};
pub use header_text::{append_notes, word_of_kind};
pub use networks::{CommentedNetwork, HeadedNetwork};
pub use worked::{worked_clocks, worked_comments, worked_designs, worked_lines, worked_texts};
pub use writing::{append, header_comments, text, text_of_network};

/// The text of a network in each of its designs denotes it, whatever comments are before it.
pub fn net_text_denotes()
    ensures { NetTextDenotes }
{}

/// The plain design is a design of every network.
pub fn plain_design_is_lawful()
    ensures { PlainDesignIsLawful }
{}

/// A text begins with only one lawful header: no other header can be read from it.
pub fn head_once()
    ensures { HeadOnce }
{}

/// The lines of a header are comments: a reader of the network skips them.
pub fn head_is_comments()
    ensures { HeadIsComments }
{}

/// The text of a header consists of comments.
pub fn header_is_comments()
    ensures { HeaderIsComments }
{}

/// Comments after comments are comments.
pub fn comments_join()
    ensures { CommentsJoin }
{}

/// A network that can be written has a text after all comments.
pub fn network_has_text()
    ensures { NetworkHasText }
{}

/// A text whose comments are those of a header begins with this header.
pub fn text_has_head()
    ensures { TextHasHead }
{}
