//! What follows from the definitions, for the crates above. Each law is the contract of a function that does
//! nothing.

ghost use Rattle.std.specs.Prelude.{ℕ, ◌≡◌, ◌<◌, All, Contains, List, length};
ghost use Rattle.hs_lattice.specs.JoinWorld.{HaveJoins, IsGenerated};
ghost use Rattle.kiss_file.specs.declared.file.KissFile.{KissFile};
ghost use Rattle.machine_table.specs.NextStates.{NeverLeaves};
ghost use Rattle.partition.specs.MeetAndJoin.{IsJoin};
ghost use Rattle.partition.specs.Partition.{IsStateCount, zero_of};
ghost use Rattle.closed_lattice.specs.ClosedPartitions.{IsClosedPartition, IsPrincipal};

/// There is at most one least closed partition that holds two states together.
pub fn one_is_principal()
    ensures { (F : KissFile) (s t : ℕ) (p q : List ℕ) → IsPrincipal F s t p → IsPrincipal F s t q → p ≡ q }
{}

/// Joins of closed partitions are closed. Where the least closed partition of each two states is among
/// the generators, and these have joins, each closed partition is a join of generators.
pub fn closed_are_joins()
    ensures closed { (F : KissFile) (generators : List (List ℕ)) (p : List ℕ) → NeverLeaves F
        → IsStateCount (length F.states)
        → All (IsClosedPartition F) generators
        → IsGenerated (λ q. q ≡ zero_of (length F.states)) IsJoin generators p → IsClosedPartition F p }
    ensures joins { (F : KissFile) (generators : List (List ℕ)) (p : List ℕ)
        → ((s t : ℕ) → s < t → t < length F.states → (g : List ℕ) × Contains generators g × IsPrincipal F s t g)
        → HaveJoins (λ q. q ≡ zero_of (length F.states)) IsJoin generators
        → IsClosedPartition F p → IsGenerated (λ q. q ≡ zero_of (length F.states)) IsJoin generators p }
{}
