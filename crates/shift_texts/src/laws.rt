//! What follows from the definitions. Each law is the contract of a function that does nothing.

ghost use Rattle.std.specs.Prelude.{Bool};
ghost use Rattle.answers.specs.Laws.Causes.{HasOneAnswer};
ghost use Rattle.kiss_file.specs.declared.file.KissFile.{KissFile};
ghost use Rattle.shift_texts.specs.Causes.{RefusesShift};

/// All refusals that `shift` calls for have one answer.
pub fn shift_has_one_answer()
    ensures { (reduce : Bool) (F : KissFile) → HasOneAnswer (RefusesShift reduce F) }
{}
