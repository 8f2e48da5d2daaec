//! What follows from the definitions. Each law is the contract of a function that does nothing.

ghost use Rattle.least_codes.specs.Laws.{
  AllBitsPermit,
  GivenCodesAreLeast,
  LeastCodeExists,
  LeastCodeHasZeros,
  LeastCodeIsOne,
  LeastCodeReadsLeast,
  LeastReadsAreOne,
  LeastReadsExist,
  LeastSplitExists,
  LeastSplitIsOne,
  PartsTellAll,
  RuleGivesLeast,
  RuleGivesLeastSet,
};

/// The machine determines its least code, and the split that gives it. Any codes that this split gives are that
/// code.
pub fn choice_is_one()
    ensures code { LeastCodeIsOne }
    ensures split { LeastSplitIsOne }
    ensures given { GivenCodesAreLeast }
{}

/// There is a least code, in which the bits of state 0 are 0. For 3 to 8 states there is a split that gives it.
pub fn least_code_exists()
    ensures code { LeastCodeExists }
    ensures zeros { LeastCodeHasZeros }
    ensures split { LeastSplitExists }
{}

/// What a gate gives determines its least reads, and there are least reads where the candidates permit what it
/// gives.
pub fn least_reads_are_one()
    ensures one { LeastReadsAreOne }
    ensures exist { LeastReadsExist }
{}

/// A part and the parts that it reads distinguish all states, so the next block of each part follows from what
/// it reads.
pub fn parts_tell_all()
    ensures { PartsTellAll }
{}

/// Codes that are different for different states determine the state, so all bits permit whatever a gate gives.
pub fn all_bits_permit()
    ensures { AllBitsPermit }
{}

/// The rule that leaves out one bit after another, the highest first, ends at a least set if codes are as short
/// as 3 to 8 states allow. With longer codes it may not.
pub fn rule_gives_least()
    ensures rule { RuleGivesLeast }
    ensures set { RuleGivesLeastSet }
    ensures gates { LeastCodeReadsLeast }
{}
