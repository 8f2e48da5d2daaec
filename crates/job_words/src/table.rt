//! The table of the commands that are built.

ghost use Rattle.std.specs.Prelude.{◌≡◌, map};
ghost use Rattle.job_words.specs.Table.{built, row_of};

use crate::Command;

/// What an operand is.
#[derive(Clone, Copy, Debug, PartialEq, Eq)]
pub enum OperandKind {
    /// A file with a machine.
    File,
    /// A file with a network.
    Net,
    /// A partition.
    Part,
    /// Partitions, joined by `/`.
    Parts,
    /// A file of symbols.
    Symbols,
    /// The blocks of a cover.
    Cover,
    /// A kind of split by its word, or partitions.
    Split,
    /// The number of a part, or `outputs`.
    J,
    /// The number that a generator starts from.
    Seed,
    /// The number of states of the first factor of a generated machine.
    A,
    /// The number of states of the second factor.
    B,
    /// The number of inputs of a generated machine.
    K,
}

/// An option of a command.
#[derive(Clone, Copy, Debug, PartialEq, Eq)]
pub enum CommandOption {
    /// `--limit N`, the greatest number of members of a listing.
    Limit,
    /// `--reduce`, to work on the quotient by alike states.
    Reduce,
    /// `--start BITS`, the first values of the latches.
    Start,
    /// `--fill hold`, to stay in the state where no next state is given.
    Fill,
    /// `--names`, to print a partition by the names of its states.
    Names,
    /// `--clock NAME`, the clock of the latches.
    Clock,
    /// `--model NAME`, the name of the network's model.
    Model,
}

/// A row of the table: a command with its operands in order and its options.
#[derive(Clone, Copy)]
pub struct Form {
    pub command: Command,
    pub operands: &'static [OperandKind],
    pub options: &'static [CommandOption],
}

/// The operands of a command that makes a machine.
const NUMBERS: &[OperandKind] = &[
    OperandKind::Seed,
    OperandKind::A,
    OperandKind::B,
    OperandKind::K,
];

/// The options of a command that writes a network of a machine or of its quotient.
const OF_NETWORKS: &[CommandOption] = &[
    CommandOption::Reduce,
    CommandOption::Fill,
    CommandOption::Clock,
    CommandOption::Model,
];

/// The commands that are built.
const BUILT: [Form; 25] = [
    Form {
        command: Command::Check,
        operands: &[OperandKind::File],
        options: &[CommandOption::Fill],
    },
    Form {
        command: Command::Reduce,
        operands: &[OperandKind::File],
        options: &[CommandOption::Fill],
    },
    Form {
        command: Command::Closed,
        operands: &[OperandKind::File],
        options: &[
            CommandOption::Limit,
            CommandOption::Fill,
            CommandOption::Names,
        ],
    },
    Form {
        command: Command::Output,
        operands: &[OperandKind::File],
        options: &[
            CommandOption::Limit,
            CommandOption::Fill,
            CommandOption::Names,
        ],
    },
    Form {
        command: Command::Pairs,
        operands: &[OperandKind::File],
        options: &[
            CommandOption::Limit,
            CommandOption::Fill,
            CommandOption::Names,
        ],
    },
    Form {
        command: Command::Low,
        operands: &[OperandKind::File, OperandKind::Part],
        options: &[CommandOption::Fill, CommandOption::Names],
    },
    Form {
        command: Command::High,
        operands: &[OperandKind::File, OperandKind::Part],
        options: &[CommandOption::Fill, CommandOption::Names],
    },
    Form {
        command: Command::Code,
        operands: &[OperandKind::File],
        options: OF_NETWORKS,
    },
    Form {
        command: Command::Assign,
        operands: &[OperandKind::File, OperandKind::Parts],
        options: OF_NETWORKS,
    },
    Form {
        command: Command::Parallel,
        operands: &[OperandKind::File],
        options: OF_NETWORKS,
    },
    Form {
        command: Command::Serial,
        operands: &[OperandKind::File],
        options: OF_NETWORKS,
    },
    Form {
        command: Command::Cascade,
        operands: &[OperandKind::File],
        options: OF_NETWORKS,
    },
    Form {
        command: Command::Feedback,
        operands: &[OperandKind::File],
        options: OF_NETWORKS,
    },
    Form {
        command: Command::Walk,
        operands: &[OperandKind::File, OperandKind::Symbols],
        options: &[CommandOption::Fill],
    },
    Form {
        command: Command::Sim,
        operands: &[OperandKind::Net, OperandKind::Symbols],
        options: &[CommandOption::Start],
    },
    Form {
        command: Command::Gen,
        operands: NUMBERS,
        options: &[],
    },
    Form {
        command: Command::Trial,
        operands: NUMBERS,
        options: &[],
    },
    Form {
        command: Command::Least,
        operands: &[OperandKind::File],
        options: OF_NETWORKS,
    },
    Form {
        command: Command::Cover,
        operands: &[OperandKind::File, OperandKind::Cover],
        options: &[
            CommandOption::Fill,
            CommandOption::Clock,
            CommandOption::Model,
        ],
    },
    Form {
        command: Command::Definite,
        operands: &[OperandKind::File],
        options: &[
            CommandOption::Reduce,
            CommandOption::Fill,
            CommandOption::Names,
        ],
    },
    Form {
        command: Command::Shift,
        operands: &[OperandKind::File],
        options: OF_NETWORKS,
    },
    Form {
        command: Command::Ispairs,
        operands: &[OperandKind::File],
        options: &[CommandOption::Limit, CommandOption::Fill],
    },
    Form {
        command: Command::Sopairs,
        operands: &[OperandKind::File],
        options: &[CommandOption::Limit, CommandOption::Fill],
    },
    Form {
        command: Command::Compare,
        operands: &[OperandKind::File],
        options: &[CommandOption::Reduce, CommandOption::Fill],
    },
    Form {
        command: Command::Part,
        operands: &[OperandKind::File, OperandKind::Split, OperandKind::J],
        options: &[CommandOption::Reduce, CommandOption::Fill],
    },
];

/// The commands that are built.
pub fn built_forms() -> &'static [Form]
    ensures { map row_of result.now ≡ built }
{
    &BUILT
}
