//! What follows from the definitions, for the crates above. Each law is the contract of a function that does
//! nothing.

ghost use Rattle.std.specs.Prelude.{ℕ, ◌↔◌, List};
ghost use Rattle.feedback_split.specs.Carrier.{Suffices};
ghost use Rattle.feedback_split.specs.Laws.{FeedbackChoiceIsOne};
ghost use Rattle.kiss_file.specs.declared.file.KissFile.{KissFile};
ghost use Rattle.pair_operators.specs.Pair.{Pair};
ghost use Rattle.partition.specs.MeetAndJoin.{IsMeet};

/// A carrier suffices for a part exactly where the meet of the two makes a pair with the part.
pub fn suffices_by_meet()
    ensures { (F : KissFile) (own c meet : List ℕ) → IsMeet own c meet → Suffices F own c ↔ Pair F meet own }
{}

/// There is at most one feedback split that is chosen.
pub fn choice_is_one()
    ensures { FeedbackChoiceIsOne }
{}
