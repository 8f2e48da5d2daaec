//! Lines and their fields.

mod fields;
mod line_list;
mod line_reader;
mod line_text;

pub use fields::Fields;
pub use line_list::cut_lines;
pub use line_reader::LineReader;
pub use line_text::{content_of, first_field, first_line, is_clean};

/// A line of a text.
#[derive(Drop)]
pub struct Line {
    /// The number of the line, from 1.
    pub number: u32,
    /// The longest runs of bytes other than space and tab, before a comment.
    pub fields: Fields,
    /// Whether the line has a byte that is neither a tab nor printable ASCII, outside a comment.
    pub bad: bool,
}
