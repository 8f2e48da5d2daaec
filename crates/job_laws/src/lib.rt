//! Laws of jobs: what the words of a command, and what the shelf holds under their names, determine of the text that is
//! written. Each law is the contract of a function that only calls other laws, and so does nothing.
//!
//! [`reports_are_one`] says for which commands the definition of the text determines it:
//!
//! - A list has all values with a property in ascending order, so there is only one.
//! - `low` and `high` print the least and the greatest partition of a pair, and there is one of each.
//! - `definite` prints the chain of the machine that the job works on, and each member determines the next.
//! - `reduce` writes the machine of the classes of alike states, and the classes are determined.
//! - `gen` writes the machine of its numbers.
//! - `walk` and `sim` print answers, which the symbols and the start determine.
//! - `part` writes the machine of a part. Where the file leaves something open, its rows are not determined, so the law
//!   speaks of jobs without `--fill hold`.
//!
//! Ten commands write a network: `code`, `assign`, `parallel`, `serial`, `cascade`, `feedback`, `least`, `cover`,
//! `shift` and `trial`. [`jobs_differ_in_rows`] says that two texts of one such job differ only in the rows of gates.
//! For a cover and for a trial this is said of the networks and their comments too ([`covers_differ_in_rows`],
//! [`trials_differ_in_rows`]); for the others, `text_laws` says it.
//!
//! `compare` counts the rows and the literals of networks. Two texts of it differ only there
//! ([`comparisons_differ_in_row_counts`]).
#![tactic(auto)]

ghost use Rattle.job_laws.specs.Comparisons.{ComparisonsDifferInRowCounts};
ghost use Rattle.job_laws.specs.Networks.{CoversDifferInRows, JobsDifferInRows, TrialsDifferInRows};
ghost use Rattle.job_laws.specs.Reports.{ReportsAreOne};

use comparisons::{counts_are_one, never_both, reasons_are_one};
use job_words::sizes_are_sizes;
use kiss2::read_once;
use net_core::blif_once;
use part_laws::part_is_one;
use text_laws::{networks_differ_in_rows, rows_alone_differ, shift_rows_alone_differ};

/// A job of a command whose definition determines the text has one text.
pub fn reports_are_one()
    ensures { ReportsAreOne }
{
    read_once();
    blif_once();
    part_is_one();
    sizes_are_sizes();
}

/// Two networks of one cover have the same comments, and are equal but for the rows of their gates.
pub fn covers_differ_in_rows()
    ensures { CoversDifferInRows }
{}

/// Two networks of one trial have the same comments, and are equal but for the rows of their gates.
pub fn trials_differ_in_rows()
    ensures { TrialsDifferInRows }
{
    networks_differ_in_rows();
}

/// Two texts of one job that writes a network have the same comments, and networks that are equal but for the rows of
/// their gates.
pub fn jobs_differ_in_rows()
    ensures { JobsDifferInRows }
{
    read_once();
    rows_alone_differ();
    shift_rows_alone_differ();
    networks_differ_in_rows();
    covers_differ_in_rows();
    sizes_are_sizes();
}

/// Two texts of one job of `compare` differ only in the numbers of rows and of literals.
pub fn comparisons_differ_in_row_counts()
    ensures { ComparisonsDifferInRowCounts }
{
    read_once();
    counts_are_one();
    never_both();
    reasons_are_one();
}
