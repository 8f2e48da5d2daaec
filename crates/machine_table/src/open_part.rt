/// What a file may leave open at a state and a symbol.
#[derive(Clone, Copy, Debug, PartialEq, Eq)]
pub enum Missing {
    /// The next state.
    Next,
    /// The output with that number.
    Output(u8),
}
