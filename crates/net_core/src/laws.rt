//! Laws of networks, each the contract of a function that does nothing.

ghost use Rattle.net_core.specs.Blif.{BlifOnce};
ghost use Rattle.net_core.specs.Causes.{CausesAreAlike, SoundHasNoCause};
ghost use Rattle.net_core.specs.Denotation.{DenotesOnce};
ghost use Rattle.net_core.specs.Limits.{LimitsByStatement};
ghost use Rattle.net_core.specs.FlatNetwork.{FlatIsSound, GivenIsAStep};
ghost use Rattle.net_core.specs.Step.{AnswersAreDetermined};
ghost use Rattle.net_core.specs.SoundNetwork.{SoundIsDetermined};

/// A text denotes at most one network.
pub fn denotes_once()
    ensures { DenotesOnce }
{}

/// A text is a BLIF text of at most one network.
pub fn blif_once()
    ensures { BlifOnce }
{}

/// A text that denotes a network is within the limits exactly where none of its statements goes over one.
pub fn limits_by_statement()
    ensures { LimitsByStatement }
{}

/// A network has at most one list of answers to a word.
pub fn answers_are_determined()
    ensures { AnswersAreDetermined }
{}

/// In a sound network the latch values and a symbol give each driven name one bit.
pub fn sound_is_determined()
    ensures { SoundIsDetermined }
{}

/// A network without helper gates, in which no name is driven twice and gates drive the outputs and the
/// latch inputs, is sound.
pub fn flat_is_sound()
    ensures { FlatIsSound }
{}

/// In a sound network what every valuation gives is a step.
pub fn given_is_a_step()
    ensures { GivenIsAStep }
{}

/// A sound network has no cause of a refusal.
pub fn sound_has_no_cause()
    ensures { SoundHasNoCause }
{}

/// The causes of one network are of one kind, and but for cycles they name one name.
pub fn causes_are_alike()
    ensures { CausesAreAlike }
{}
