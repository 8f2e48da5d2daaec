//! A law of the reports, stated as the contract of a function that does nothing.

ghost use Rattle.hs_texts.specs.Reports.{TrialLinesAreComments};

/// Each line of the summary of a trial is a comment, so a reader of networks skips it.
pub fn trial_lines_are_comments()
    ensures { TrialLinesAreComments }
{}
