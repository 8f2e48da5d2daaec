//! The groups in which the page of `--help` lists the commands.

ghost use Rattle.std.specs.Prelude.{◌≡◌};
ghost use Rattle.hsdec_program.specs.Groups.{group_of, heading_of, same_group};

use job_words::Command;

/// What the commands of a group are for.
#[derive(Clone, Copy, PartialEq, Eq)]
pub enum Group {
    /// They say what a machine is, and list its partitions.
    Look,
    /// They split a machine.
    Split,
    /// They choose a code for the states.
    Code,
    /// They run a machine or a network.
    Run,
    /// They make a machine.
    Make,
}

/// The group of a command.
pub fn command_group(command: Command) -> Group
    ensures { result ≡ group_of command }
{
    match command {
        Command::Check
        | Command::Closed
        | Command::Output
        | Command::Pairs
        | Command::Low
        | Command::High
        | Command::Definite
        | Command::Ispairs
        | Command::Sopairs => Group::Look,
        Command::Parallel
        | Command::Serial
        | Command::Cascade
        | Command::Feedback
        | Command::Compare
        | Command::Part => Group::Split,
        Command::Code | Command::Assign | Command::Least | Command::Cover | Command::Shift =>
            Group::Code,
        Command::Walk | Command::Sim => Group::Run,
        Command::Reduce | Command::Gen | Command::Trial => Group::Make,
    }
}

/// The heading of a group.
pub fn heading(group: Group) -> &'static [u8]
    ensures { result.now ≡ heading_of group }
{
    match group {
        Group::Look => b"Look at a machine:",
        Group::Split => b"Split a machine into smaller ones:",
        Group::Code => b"Choose a code for its states:",
        Group::Run => b"Run a machine or its network:",
        Group::Make => b"Make a machine:",
    }
}

/// Whether two groups are one.
pub fn is_same(group: Group, other: Group) -> bool
    ensures { result ≡ same_group group other }
{
    group == other
}
