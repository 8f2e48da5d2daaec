//! What follows from the definitions, for the crates above. Each law is the contract of a function that does
//! nothing.
ghost use Rattle.std.specs.Prelude.{ℕ, ◌≡◌, ◌↔◌, List, length};
ghost use Rattle.kiss_file.specs.declared.file.KissFile.{KissFile};
ghost use Rattle.machine_table.specs.NextStates.{NeverLeaves};
ghost use Rattle.partition.specs.MeetAndJoin.{IsJoin, IsMeet};
ghost use Rattle.partition.specs.Partition.{IsOne, IsPartition, IsZero, Le};
ghost use Rattle.pair_operators.specs.Extremes.{IsHigh, IsLow, MmPair};
ghost use Rattle.pair_operators.specs.Pair.{Closed, Pair};

/// A pair remains a pair with a smaller left side and a greater right side. Zero makes a pair with each
/// partition, and each partition makes a pair with one; so zero and one are closed.
pub fn pairs_of_sides()
    ensures monotone { (F : KissFile) (p q smaller greater : List ℕ) → Le smaller p → Le q greater → Pair F p q
        → Pair F smaller greater }
    ensures zero { (F : KissFile) (p q : List ℕ) → NeverLeaves F → IsPartition (length F.states) p
        → IsPartition (length F.states) q → IsZero p → Pair F p q }
    ensures one { (F : KissFile) (p q : List ℕ) → NeverLeaves F → IsPartition (length F.states) p
        → IsPartition (length F.states) q → IsOne q → Pair F p q }
{}

/// The joins of both sides of two pairs are a pair, and so are the meets. So joins and meets of closed
/// partitions are closed.
pub fn pairs_of_bounds()
    ensures joins { (F : KissFile) (p q a b r o : List ℕ) → length a ≡ length p → length b ≡ length q → Pair F p q
        → Pair F a b → IsJoin p a r → IsJoin q b o → Pair F r o }
    ensures meets { (F : KissFile) (p q a b r o : List ℕ) → Pair F p q → Pair F a b → IsMeet p a r → IsMeet q b o
        → Pair F r o }
    ensures closed_join { (F : KissFile) (p q r : List ℕ) → length q ≡ length p → Closed F p → Closed F q → IsJoin p q r
        → Closed F r }
    ensures closed_meet { (F : KissFile) (p q r : List ℕ) → Closed F p → Closed F q → IsMeet p q r → Closed F r }
{}

/// There is at most one m(p) and one M(q). p is below M(q) exactly where m(p) is below q, and both say that
/// (p, q) is a pair.
pub fn least_and_greatest()
    ensures one_low { (F : KissFile) (p q other : List ℕ) → IsLow F p q → IsLow F p other → q ≡ other }
    ensures one_high { (F : KissFile) (q p other : List ℕ) → IsHigh F q p → IsHigh F q other → p ≡ other }
    ensures below_high { (F : KissFile) (p q high : List ℕ) → IsPartition (length F.states) p → IsHigh F q high
        → Le p high ↔ Pair F p q }
    ensures above_low { (F : KissFile) (p q low : List ℕ) → IsPartition (length F.states) q → IsLow F p low → Le low q
        ↔ Pair F p q }
    ensures each_decides { (F : KissFile) (p q low high : List ℕ) → IsPartition (length F.states) p
        → IsPartition (length F.states) q → IsLow F p low → IsHigh F q high → Le p high ↔ Le low q }
{}

/// m and M are monotone. m of a join is the join of both m's, and M of a meet is the meet of both M's.
pub fn operators_grow()
    ensures low { (F : KissFile) (p a q b : List ℕ) → Le p a → IsLow F p q → IsLow F a b → Le q b }
    ensures high { (F : KissFile) (q b p a : List ℕ) → Le q b → IsHigh F q p → IsHigh F b a → Le p a }
    ensures low_of_join { (F : KissFile) (p a q b r o : List ℕ) → length a ≡ length p → IsLow F p q → IsLow F a b
        → IsJoin p a r → IsJoin q b o → IsLow F r o }
    ensures high_of_meet { (F : KissFile) (q b p a r o : List ℕ) → IsHigh F q p → IsHigh F b a → IsMeet q b r
        → IsMeet p a o → IsHigh F r o }
{}

/// M(m(M(q))) is M(q), and m(M(m(p))) is m(p).
pub fn chains_of_operators()
    ensures high { (F : KissFile) (q p low again : List ℕ) → IsPartition (length F.states) q → IsHigh F q p
        → IsLow F p low → IsHigh F low again → again ≡ p }
    ensures low { (F : KissFile) (p q high again : List ℕ) → IsPartition (length F.states) p → IsLow F p q
        → IsHigh F q high → IsLow F high again → again ≡ q }
{}

/// M(q) with m(M(q)) is an Mm pair, and so is M(m(p)) with m(p).
pub fn mm_pairs()
    ensures from_high { (F : KissFile) (q p low : List ℕ) → IsPartition (length F.states) q → IsHigh F q p
        → IsLow F p low → MmPair F p low }
    ensures from_low { (F : KissFile) (p q high : List ℕ) → IsPartition (length F.states) p → IsLow F p q
        → IsHigh F q high → MmPair F high q }
{}
