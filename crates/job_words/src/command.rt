//! The commands and their words.

ghost use Rattle.std.specs.Prelude.{◌≡◌};
ghost use Rattle.job_words.specs.Command.{command_word};

/// The commands of the program.
#[derive(Clone, Copy, Debug, PartialEq, Eq)]
pub enum Command {
    /// Prints the counts of a machine.
    Check,
    /// Prints the quotient by alike states.
    Reduce,
    /// Lists the closed partitions.
    Closed,
    /// Lists the closed partitions that are output-consistent.
    Output,
    /// Lists the Mm pairs.
    Pairs,
    /// Prints m of a partition.
    Low,
    /// Prints M of a partition.
    High,
    /// Writes a network with the natural code.
    Code,
    /// Writes a network from given partitions.
    Assign,
    /// Writes the parallel decomposition.
    Parallel,
    /// Writes the serial decomposition.
    Serial,
    /// Writes the cascade.
    Cascade,
    /// Writes the feedback decomposition.
    Feedback,
    /// Prints a machine's answers to symbols.
    Walk,
    /// Prints a network's answers to symbols.
    Sim,
    /// Prints a generated machine.
    Gen,
    /// Makes a generated machine, and prints its parallel decomposition with a summary.
    Trial,
    /// Writes the network of the least code.
    Least,
    /// Writes the network of a closed cover.
    Cover,
    /// Prints the chain of a definite machine.
    Definite,
    /// Writes a definite machine as a shift register.
    Shift,
    /// Lists the input-state Mm pairs.
    Ispairs,
    /// Lists the state-output Mm pairs.
    Sopairs,
    /// Prints for each kind of network its counts, or why there is none.
    Compare,
    /// Prints one of the smaller machines of a split.
    Part,
}

impl Command {
    /// The word of the command.
    pub fn word(&self) -> &'static [u8]
        ensures { result.now ≡ command_word self.now }
    {
        match self {
            Command::Check => b"check",
            Command::Reduce => b"reduce",
            Command::Closed => b"closed",
            Command::Output => b"output",
            Command::Pairs => b"pairs",
            Command::Low => b"low",
            Command::High => b"high",
            Command::Code => b"code",
            Command::Assign => b"assign",
            Command::Parallel => b"parallel",
            Command::Serial => b"serial",
            Command::Cascade => b"cascade",
            Command::Feedback => b"feedback",
            Command::Walk => b"walk",
            Command::Sim => b"sim",
            Command::Gen => b"gen",
            Command::Trial => b"trial",
            Command::Least => b"least",
            Command::Cover => b"cover",
            Command::Definite => b"definite",
            Command::Shift => b"shift",
            Command::Ispairs => b"ispairs",
            Command::Sopairs => b"sopairs",
            Command::Compare => b"compare",
            Command::Part => b"part",
        }
    }
}
