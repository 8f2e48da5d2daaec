//! What follows from the definitions, each the contract of a function that does nothing.

ghost use Rattle.realise.specs.CarriedMachine.{CarriedAnswers};
ghost use Rattle.realise.specs.Laws.{EqualReads, NamesAreApart, RealisedCarries, RealisedIsFlat};

/// A network that carries each step of a machine answers every word as the machine does, if the machine never
/// leaves its states.
pub fn carried_answers()
    ensures { CarriedAnswers }
{}

/// The names for a lawful file are pairwise distinct, and there is one for each input, output, latch input and
/// latch output.
pub fn names_apart()
    ensures { NamesAreApart }
{}

/// A gate that reads enough gives the same value wherever it reads the same.
pub fn equal_reads()
    ensures { EqualReads }
{}

/// The network of codes is flat, and so sound, if its names are pairwise distinct.
pub fn realised_is_flat()
    ensures { RealisedIsFlat }
{}

/// The network of codes carries the machine, if its names are pairwise distinct.
pub fn realised_carries()
    ensures { RealisedCarries }
{}
