//! The operands of `part`.

ghost use Rattle.std.specs.Prelude.{◌≡◌};
ghost use Rattle.hsdec_core.specs.SplitOperands.{split_kind, which_of};

use blif_out::word_of_kind;
use job_words::Job;
use state_codes::{Kind, Which};

/// The kind of split that the operand SPLIT names.
pub fn kind_of_split(word: &[u8]) -> Kind
    ensures { result ≡ split_kind word.now }
{
    if word == word_of_kind(Kind::Code) {
        Kind::Code
    } else if word == word_of_kind(Kind::Parallel) {
        Kind::Parallel
    } else if word == word_of_kind(Kind::Serial) {
        Kind::Serial
    } else if word == word_of_kind(Kind::Cascade) {
        Kind::Cascade
    } else if word == word_of_kind(Kind::Feedback) {
        Kind::Feedback
    } else if word == word_of_kind(Kind::Least) {
        Kind::Least
    } else {
        Kind::Assign
    }
}

/// The machine that the operand J names.
pub fn which(job: &Job) -> Which
    ensures { result ≡ which_of job.now.part }
{
    match job.part {
        Some(part) => Which::Part(part as usize),
        None => Which::Outputs,
    }
}
