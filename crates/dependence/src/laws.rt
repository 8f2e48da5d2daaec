//! Laws of what gates read, each the contract of a function that does nothing.
ghost use Rattle.dependence.specs.ReadRule.{LatchRuleIsIrredundant, OutputRuleIsIrredundant, RuleIsIrredundant};

/// Where the candidates of a gate permit what it gives, the bits that it reads permit it too, and none of them
/// can be left out. This holds of any candidates given by a test, and of those of latches and outputs.
pub fn rule_is_irredundant()
    ensures tests { RuleIsIrredundant }
    ensures latches { LatchRuleIsIrredundant }
    ensures outputs { OutputRuleIsIrredundant }
{}
