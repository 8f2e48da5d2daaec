//! What the file determines of a comparison. Each law is the contract of a function that does nothing.

ghost use Rattle.comparisons.specs.CountLaws.{
  CountsAreOne,
  NeverBoth,
  NeverBothOfRegister,
  ReasonsAreOne,
  RefusalsHaveReasons,
  RegisterCountsAreOne,
  RegisterReasonsAreOne,
  RegisterRefusalsHaveReasons,
};

/// All texts of one job have the same parts or the same order, the same latches, and the same reads.
pub fn counts_are_one()
    ensures kinds { CountsAreOne }
    ensures register { RegisterCountsAreOne }
{}

/// What has counts has no reason.
pub fn never_both()
    ensures kinds { NeverBoth }
    ensures register { NeverBothOfRegister }
{}

/// The machine determines the reason.
pub fn reasons_are_one()
    ensures kinds { ReasonsAreOne }
    ensures register { RegisterReasonsAreOne }
{}

/// Each refusal of a command has a line.
pub fn refusals_have_reasons()
    ensures kinds { RefusalsHaveReasons }
    ensures register { RegisterRefusalsHaveReasons }
{}
