//! What follows from the definitions.

ghost use Rattle.parallel_split.specs.Laws.{ChoiceIsOne};

/// The machine decides which parallel split is chosen, with its carriers and what its parts read.
pub fn choice_is_one()
    ensures { ChoiceIsOne }
{}
