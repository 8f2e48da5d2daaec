//! What follows from the definitions.

ghost use Rattle.serial_split.specs.Laws.{CascadeChoiceIsOne, SerialChoiceIsOne};

/// The machine decides which serial split is chosen, with its carriers and what its parts read.
pub fn serial_choice_is_one()
    ensures { SerialChoiceIsOne }
{}

/// The machine decides which cascade is chosen, with its carriers and what its parts read.
pub fn cascade_choice_is_one()
    ensures { CascadeChoiceIsOne }
{}
