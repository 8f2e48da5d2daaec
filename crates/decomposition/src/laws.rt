//! What follows from the definitions.

ghost use Rattle.decomposition.specs.Flow.{FlowPermits};
ghost use Rattle.decomposition.specs.Network.{ReadsAreEnough};
ghost use Rattle.decomposition.specs.OwnPairs.{OwnPairsPermit};

use dependence::rule_is_irredundant;

/// If information flows as the parts say, the candidates of each latch permit its bit.
pub fn flow_permits()
    ensures { FlowPermits }
{}

/// If information flows as the parts say, what the gates read by the rule is enough for what they give.
pub fn reads_are_enough()
    ensures { ReadsAreEnough }
{
    rule_is_irredundant();
}

/// The bits that the gate of a latch reads permit the latch's bit.
pub fn own_pairs_permit()
    ensures { OwnPairsPermit }
{}
