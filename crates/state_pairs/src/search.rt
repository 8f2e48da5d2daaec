//! What a search for symbols looks for.

/// A search for symbols at which two states answer a question in different ways, or both leave it open.
#[derive_where(Clone, Copy)]
pub struct Search<'a, Q> {
    /// The question.
    pub question: &'a Q,
    /// The first state.
    pub s: usize,
    /// The second state.
    pub t: usize,
    /// If set, the least such symbol is looked for, and otherwise any.
    pub least: bool,
}
