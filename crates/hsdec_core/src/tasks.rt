//! What a command works on.

ghost use Rattle.std.specs.Prelude.{◌≡◌};
ghost use Rattle.hsdec_core.specs.Task.{task_of};

use job_words::Command;
use state_codes::Kind;

/// What a command works on, and what it does there.
#[derive(Clone, Copy)]
pub enum Task {
    /// The machine of FILE.
    OnMachine(MachineTask),
    /// The machine of FILE, and then SYMBOLS.
    Walk,
    /// The network of NET, and then SYMBOLS.
    Sim,
    /// Numbers: the machine that is made from them.
    Gen,
    /// Numbers: the machine that is made from them, and its parallel decomposition.
    Trial,
}

/// What a command does with the machine of FILE.
#[derive(Clone, Copy)]
pub enum MachineTask {
    /// A list of partitions or of pairs of them, up to a limit.
    Listing(ListTask),
    /// A text on the machine of FILE itself.
    OfFile(FileTask),
    /// A text on the machine that the job works on: that of FILE, or with `--reduce` that of its classes.
    OfWork(WorkTask),
}

/// What a command lists.
#[derive(Clone, Copy)]
pub enum ListTask {
    /// The closed partitions.
    Closed,
    /// The closed partitions that are output-consistent.
    Output,
    /// The Mm pairs.
    Pairs,
    /// The Mm pairs of inputs and states.
    InputPairs,
    /// The Mm pairs of states and outputs.
    OutputPairs,
}

/// What a command tells of the machine of FILE itself.
#[derive(Clone, Copy)]
pub enum FileTask {
    Check,
    Reduce,
    Low,
    High,
    /// The network of a closed cover.
    Cover,
}

/// What a command tells of the machine that the job works on.
#[derive(Clone, Copy)]
pub enum WorkTask {
    Definite,
    /// The counts of the networks of all kinds.
    Compare,
    /// The shift register of a definite machine.
    Shift,
    /// One of the smaller machines of a split.
    Part,
    /// A decomposition of that kind.
    Decompose(Kind),
}

/// The task of a command.
pub fn task_of_command(command: Command) -> Task
    ensures { result ≡ task_of command }
{
    let on_machine = match command {
        Command::Walk => return Task::Walk,
        Command::Sim => return Task::Sim,
        Command::Gen => return Task::Gen,
        Command::Trial => return Task::Trial,
        Command::Check => MachineTask::OfFile(FileTask::Check),
        Command::Reduce => MachineTask::OfFile(FileTask::Reduce),
        Command::Closed => MachineTask::Listing(ListTask::Closed),
        Command::Output => MachineTask::Listing(ListTask::Output),
        Command::Pairs => MachineTask::Listing(ListTask::Pairs),
        Command::Low => MachineTask::OfFile(FileTask::Low),
        Command::High => MachineTask::OfFile(FileTask::High),
        Command::Code => MachineTask::OfWork(WorkTask::Decompose(Kind::Code)),
        Command::Assign => MachineTask::OfWork(WorkTask::Decompose(Kind::Assign)),
        Command::Parallel => MachineTask::OfWork(WorkTask::Decompose(Kind::Parallel)),
        Command::Serial => MachineTask::OfWork(WorkTask::Decompose(Kind::Serial)),
        Command::Cascade => MachineTask::OfWork(WorkTask::Decompose(Kind::Cascade)),
        Command::Feedback => MachineTask::OfWork(WorkTask::Decompose(Kind::Feedback)),
        Command::Least => MachineTask::OfWork(WorkTask::Decompose(Kind::Least)),
        Command::Cover => MachineTask::OfFile(FileTask::Cover),
        Command::Definite => MachineTask::OfWork(WorkTask::Definite),
        Command::Shift => MachineTask::OfWork(WorkTask::Shift),
        Command::Ispairs => MachineTask::Listing(ListTask::InputPairs),
        Command::Sopairs => MachineTask::Listing(ListTask::OutputPairs),
        Command::Compare => MachineTask::OfWork(WorkTask::Compare),
        Command::Part => MachineTask::OfWork(WorkTask::Part),
    };
    Task::OnMachine(on_machine)
}
