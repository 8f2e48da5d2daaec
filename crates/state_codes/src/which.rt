//! Which machine of a split is meant.

/// One of the machines of a split: that of the part with a number, or that of the outputs.
#[derive(Clone, Copy, Debug, PartialEq, Eq)]
pub enum Which {
    Part(usize),
    Outputs,
}
