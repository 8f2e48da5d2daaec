//! A pattern of 0, 1 and dash.

/// At most 64 places, each with a 0, a 1 or a dash. Place k has a dash where bit k of `care` is 0, and otherwise bit k
/// of `value`.
#[derive(Clone, Copy, PartialEq, Eq)]
pub struct Pattern {
    /// The places without a dash.
    pub care: u64,
    /// The bits at those places. Bits at other places mean nothing.
    pub value: u64,
}
