//! Laws of alike states, each the contract of a function that does nothing.
ghost use Rattle.state_reduce.specs.Cause.{AlikeHasQuotient};
ghost use Rattle.state_reduce.specs.WorkMachine.{ClassesAnswerAlike};

/// The partition of alike states is closed and consistent: `quotient` refuses it only if memory runs out.
pub fn alike_has_quotient()
    ensures { AlikeHasQuotient }
{}

/// From the class of a state, the machine that a job works on answers every word as the file's machine does
/// from the state, with `--reduce` and without.
pub fn classes_answer_alike()
    ensures { ClassesAnswerAlike }
{}
