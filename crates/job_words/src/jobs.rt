//! The job of a command line.

ghost use Rattle.std.specs.Prelude.{◌≡◌};
ghost use Rattle.job_words.specs.declared.jobs.JobFail.TheVariants.{NoMemory};

use crate::Command;
use hs_io::Name;
use std::alloc::AllocError;

/// What the words ask for. A field that the command does not have is empty, `None`, false or 0; `limit` is then
/// 1,000.
#[derive(Drop)]
pub struct Job {
    /// The command.
    pub command: Command,
    /// The operand FILE or NET.
    pub file: Name,
    /// The operand PART, PARTS, SYMBOLS, COVER or SPLIT.
    pub second: Name,
    /// The greatest number of members of a listing.
    pub limit: usize,
    /// Whether to work on the quotient by alike states.
    pub reduce: bool,
    /// The first values of the latches.
    pub start: Option<Name>,
    /// The operand SEED.
    pub seed: u64,
    /// The operand A.
    pub a: u16,
    /// The operand B.
    pub b: u16,
    /// The operand K.
    pub k: u8,
    /// The operand J: the number of a part, or `None` for the outputs.
    pub part: Option<u32>,
    /// Whether open entries are filled, by `--fill hold`.
    pub hold: bool,
    /// Whether partitions are printed by the names of their states.
    pub names: bool,
    /// The clock of the latches.
    pub clock: Option<Name>,
    /// The name of the network's model.
    pub model: Option<Name>,
}

/// Why words give no job.
#[derive(Clone, Copy, Debug, PartialEq, Eq)]
pub enum JobFail {
    /// The words are not a job: the number of the refused word, counted from 1. If a word is missing, it is one
    /// more than the number of words.
    Usage { word: u32 },
    /// Memory ran out.
    NoMemory,
}

impl From<AllocError> for JobFail {
    ghost from_gives = { λ _ fail. fail ≡ NoMemory };

    fn from(_wanting: AllocError) -> JobFail {
        JobFail::NoMemory
    }
}
