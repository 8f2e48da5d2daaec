/// What becomes of a next state or an output that no row specifies.
#[derive(Clone, Copy, PartialEq, Eq)]
pub enum Fill {
    /// The file is refused.
    Refuse,
    /// The machine holds its state, and the output is 0.
    Hold,
}
