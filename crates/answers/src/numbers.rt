//! The answers of the program.

ghost use Rattle.std.specs.Prelude.{◌≡◌};
ghost use Rattle.answers.specs.Answer.{answer_code};

/// What the program answers.
#[derive(Clone, Copy, PartialEq, Eq)]
pub enum Answer {
    /// The command's text was put whole.
    Done,
    /// There is no decomposition of that kind.
    NoSplit,
    /// The words are not a job.
    Usage,
    /// The text of a machine is refused.
    KissRefused,
    /// Two rows of a machine conflict.
    Conflict,
    /// A machine leaves something open.
    Unspecified,
    /// There are more to be listed than the limit.
    More,
    /// The text of a partition is refused, or two states are together in all partitions.
    PartRefused,
    /// The codes have too many bits.
    CodeTooLong,
    /// The text of a network is refused.
    NetRefused,
    /// A start or a symbol is refused.
    SymbolRefused,
    /// A file could not be read.
    ReadFault,
    /// A file is longer than a text may be.
    TooLong,
    /// The text could not be put whole.
    WriteFault,
    /// Memory ran out.
    NoMemory,
    /// The machine has too few or too many states.
    StateCount,
    /// The blocks of a cover are refused.
    CoverRefused,
    /// The machine is not definite.
    NotDefinite,
    /// No word of as many symbols as the order of a definite machine ends in the reset state.
    NotReached,
    /// The machine has too many inputs.
    TooManyInputs,
    /// Too many outputs occur.
    TooManyOutputs,
    /// A split has no such part, or the part has no machine.
    NoPart,
    /// The clock that is asked for is a signal of the network.
    ClockIsSignal,
}

impl Answer {
    /// The exit status of the answer.
    pub fn code(&self) -> u8
        ensures { result ≡ answer_code self.now }
    {
        match self {
            Answer::Done => 0,
            Answer::NoSplit => 1,
            Answer::Usage => 2,
            Answer::KissRefused => 3,
            Answer::Conflict => 4,
            Answer::Unspecified => 5,
            Answer::More => 7,
            Answer::PartRefused => 8,
            Answer::CodeTooLong => 9,
            Answer::NetRefused => 10,
            Answer::SymbolRefused => 11,
            Answer::ReadFault => 12,
            Answer::TooLong => 13,
            Answer::WriteFault => 14,
            Answer::NoMemory => 15,
            Answer::StateCount => 17,
            Answer::CoverRefused => 18,
            Answer::NotDefinite => 19,
            Answer::NotReached => 20,
            Answer::TooManyInputs => 21,
            Answer::TooManyOutputs => 22,
            Answer::NoPart => 23,
            Answer::ClockIsSignal => 24,
        }
    }
}
