//! What follows from the definitions, for the crates above. Each law is the contract of a function that does
//! nothing.

ghost use Rattle.std.specs.Prelude.{ℕ, ◌≡◌, ◌<◌, ◌^◌, All, List, map, ◌↔◌, Contains, length};
ghost use Rattle.cubes.specs.Symbol.{symbol_of, lowest_bits};
ghost use Rattle.hs_lattice.specs.JoinWorld.{IsGenerated, HaveJoins};
ghost use Rattle.io_pairs.specs.Inputs.{IsInJoin, IsInMmPair, IsLeastInPair, IsInHigh, IsInLow, IsInRightOf};
ghost use Rattle.io_pairs.specs.Outputs.{
  IsLeastOutPair,
  IsOutJoin,
  IsOutMmPair,
  output_word,
  IsOutHigh,
  IsOutLow,
  IsOutRightOf,
  occurring,
};
ghost use Rattle.kiss_file.specs.Machine.{out};
ghost use Rattle.kiss_file.specs.declared.file.KissFile.{KissFile};
ghost use Rattle.partition.specs.Partition.{IsPartition, Le};
ghost use Rattle.partition.specs.Sides.{Sides};

/// An Mm pair of either kind is decided by its right side, and joins of Mm pairs are Mm pairs. Suppose that the
/// generators are Mm pairs that have joins, and that for each two members of the left side one of them has as its right
/// side the least partition in which the two go together. Then each Mm pair is a join of generators.
pub fn mm_pairs_are_joins()
    ensures input_decided { (F : KissFile) (x y : Sides) → IsInMmPair F x → IsInMmPair F y → x.1 ≡ y.1 → x ≡ y }
    ensures output_decided { (F : KissFile) (x y : Sides) → IsOutMmPair F x → IsOutMmPair F y → x.1 ≡ y.1 → x ≡ y }
    ensures input_pairs { (F : KissFile) (generators : List Sides) (x : Sides) → All (IsInMmPair F) generators
        → IsGenerated (IsLeastInPair F) (IsInJoin F) generators x → IsInMmPair F x }
    ensures output_pairs { (F : KissFile) (generators : List Sides) (x : Sides) → All (IsOutMmPair F) generators
        → IsGenerated (IsLeastOutPair F) (IsOutJoin F) generators x → IsOutMmPair F x }
    ensures input_joins { (F : KissFile) (generators : List Sides) (x : Sides) → All (IsInMmPair F) generators
        → ((y z : ℕ) → y < z → z < 2 ^ F.inputs → (g : Sides) × Contains generators g × IsInRightOf F y z g.1)
        → HaveJoins (IsLeastInPair F) (IsInJoin F) generators
        → IsInMmPair F x → IsGenerated (IsLeastInPair F) (IsInJoin F) generators x }
    ensures output_joins { (F : KissFile) (generators : List Sides) (x : Sides) → All (IsOutMmPair F) generators
        → ((s t : ℕ) → s < t → t < length F.states → (g : Sides) × Contains generators g × IsOutRightOf F s t g.1)
        → HaveJoins (IsLeastOutPair F) (IsOutJoin F) generators
        → IsOutMmPair F x → IsGenerated (IsLeastOutPair F) (IsOutJoin F) generators x }
{}

/// For both kinds, p is below the greatest partner of q exactly where the least partner of p is below q.
pub fn partners_decide()
    ensures inputs { (F : KissFile) (p q low high : List ℕ) → IsPartition (2 ^ F.inputs) p
        → IsPartition (length F.states) q
        → IsInLow F p low → IsInHigh F q high → Le p high ↔ Le low q }
    ensures outputs { (F : KissFile) (p q low high : List ℕ) → IsPartition (length F.states) p
        → IsPartition (length (occurring F)) q
        → IsOutLow F p low → IsOutHigh F q high → Le p high ↔ Le low q }
{}

/// The number of an output has the outputs as its bits, output b at 2^b.
pub fn words_write_outputs()
    ensures outputs { (F : KissFile) (s x : ℕ)
        → lowest_bits F.outputs (output_word F s x) ≡ out F s (symbol_of F.inputs x) }
    ensures below { (F : KissFile) (s x : ℕ) → output_word F s x < 2 ^ F.outputs }
{}
