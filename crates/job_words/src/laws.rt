//! Worked examples of the definitions, and laws of jobs. Each is the contract of a function that does nothing.

ghost use Rattle.job_words.specs.Examples.{
  ReadsNumbers,
  ReadsSymbols,
  RefusesWords,
  TakesNames,
  TakesOptions,
  TakesSizes,
  TakesSplits,
};
ghost use Rattle.job_words.specs.Job.{LimitsAreLimits, NamesAreNames, PartsAreFew, SizesAreSizes};

/// The results of some lines by a table, and by the commands that are built.
pub fn judged_lines()
    ensures words { RefusesWords }
    ensures options { TakesOptions }
    ensures numbers { ReadsNumbers }
    ensures symbols { ReadsSymbols }
    ensures sizes { TakesSizes }
    ensures names { TakesNames }
    ensures splits { TakesSplits }
{}

/// The operand PARTS of `assign` and of `part` has at most 255 slashes.
pub fn parts_are_few()
    ensures { PartsAreFew }
{}

/// The limit of a job is from 1 to 10,000.
pub fn limits_are_limits()
    ensures { LimitsAreLimits }
{}

/// The numbers A, B and K of a job of `gen` or `trial` are in their ranges, and A times B is at most 256.
pub fn sizes_are_sizes()
    ensures { SizesAreSizes }
{}

/// The clock and the model of a job are names.
pub fn names_are_names()
    ensures { NamesAreNames }
{}
