//! What follows from the definitions. Each law is the contract of a function that does nothing.

ghost use Rattle.std.specs.Prelude.{ℕ, Bool, List};
ghost use Rattle.answers.specs.Laws.Causes.{HasOneAnswer};
ghost use Rattle.kiss_file.specs.declared.file.KissFile.{KissFile};
ghost use Rattle.part_texts.specs.PartCauses.{HasNoPart};
ghost use Rattle.part_texts.specs.SplitMachine.{SplitIsOne};
ghost use Rattle.state_codes.specs.declared.split.Kind.{Kind};
ghost use Rattle.state_codes.specs.declared.which.Which.{Which};

/// All refusals that a job calls for have one answer.
pub fn part_has_one_answer()
    ensures { (kind : Kind) (text : List ℕ) (which : Which) (reduce : Bool) (F : KissFile)
        → HasOneAnswer (HasNoPart kind text which reduce F) }
{}

/// A job has one split: one machine that it works on, and of it the same parts, codes, read sets and names.
pub fn split_is_one()
    ensures { SplitIsOne }
{}
