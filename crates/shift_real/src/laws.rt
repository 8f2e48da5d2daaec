//! What follows from the definitions.

ghost use Rattle.shift_real.specs.Laws.{ContentsTellStates, LatchesFollow, StatesFollow};

/// A register of as many symbols as the order keeps what is needed. Its content determines the state. At each
/// symbol the next content determines the next state, as the symbol comes in and the other symbols move on.
pub fn contents_follow()
    ensures tell { ContentsTellStates }
    ensures states { StatesFollow }
    ensures latches { LatchesFollow }
{}
