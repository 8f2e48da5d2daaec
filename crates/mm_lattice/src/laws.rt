//! What follows from the definitions, for the crates above. Each law is the contract of a function that does
//! nothing.

ghost use Rattle.std.specs.Prelude.{ℕ, ◌≡◌, ◌<◌, All, Contains, List, length};
ghost use Rattle.hs_lattice.specs.JoinWorld.{HaveJoins, IsGenerated};
ghost use Rattle.kiss_file.specs.declared.file.KissFile.{KissFile};
ghost use Rattle.mm_lattice.specs.Generators.{IsRightOf};
ghost use Rattle.mm_lattice.specs.MmPairs.{IsLeastMmPair, IsMmJoin, IsMmPair};
ghost use Rattle.partition.specs.Sides.{Sides};

/// An Mm pair is decided by its right side, and joins of Mm pairs are Mm pairs. Suppose that the generators are
/// Mm pairs that have joins, and that for each two states s and t one of them has the right side m(hold(s, t)).
/// Then each Mm pair is a join of generators.
pub fn mm_pairs_are_joins()
    ensures decided { (F : KissFile) (x y : Sides) → IsMmPair F x → IsMmPair F y → x.1 ≡ y.1 → x ≡ y }
    ensures pairs { (F : KissFile) (generators : List Sides) (x : Sides) → All (IsMmPair F) generators
        → IsGenerated (IsLeastMmPair F) (IsMmJoin F) generators x → IsMmPair F x }
    ensures joins { (F : KissFile) (generators : List Sides) (x : Sides) → All (IsMmPair F) generators
        → ((s t : ℕ) → s < t → t < length F.states → (g : Sides) × Contains generators g × IsRightOf F s t g.1)
        → HaveJoins (IsLeastMmPair F) (IsMmJoin F) generators
        → IsMmPair F x → IsGenerated (IsLeastMmPair F) (IsMmJoin F) generators x }
{}
