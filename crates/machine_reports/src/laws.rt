//! What follows from the definitions, for the crates above. Each law is stated as the contract of a function
//! that does nothing.

ghost use Rattle.std.specs.Prelude.{◌≡◌, ℕ, ◌-◌, Bool, List, length, map};
ghost use Rattle.answers.specs.Laws.Causes.{HasOneAnswer};
ghost use Rattle.answers.specs.declared.refusals.Refusal.{Refusal};
ghost use Rattle.closed_lattice.specs.ClosedPartitions.{IsClosedPartition};
ghost use Rattle.cubes.specs.Symbol.{digit, symbol_of};
ghost use Rattle.io_pairs.specs.Outputs.{output_word};
ghost use Rattle.kiss_file.specs.Machine.{out};
ghost use Rattle.kiss_file.specs.declared.file.KissFile.{KissFile};
ghost use Rattle.mm_lattice.specs.MmPairs.{IsMmPair};
ghost use Rattle.partition.specs.Sides.{RightBefore};
ghost use Rattle.output_consistent.specs.Outputs.{IsClosedAndConsistent};
ghost use Rattle.operands.specs.PartFaults.{BadPart};
ghost use Rattle.partition.specs.Order.{Before};
ghost use Rattle.shift_real.specs.DefiniteMachine.{Definite};
ghost use Rattle.machine_reports.specs.Causes.{
  KeepsApart,
  MoreThan,
  NotDefiniteRow,
  RefusesInputPairs,
  RefusesOutputPairs,
};
ghost use Rattle.machine_reports.specs.DefiniteText.{IsWholeChain};
ghost use Rattle.machine_reports.specs.OutputTexts.{output_digits};
ghost use Rattle.machine_reports.specs.StateTexts.{ShowsStates};

/// All refusals that a command calls for have one answer.
pub fn commands_have_one_answer()
    ensures closed { (F : KissFile) (limit : ℕ) → HasOneAnswer (MoreThan Before (IsClosedPartition F) limit) }
    ensures output { (F : KissFile) (limit : ℕ) → HasOneAnswer (MoreThan Before (IsClosedAndConsistent F) limit) }
    ensures pairs { (F : KissFile) (limit : ℕ) → HasOneAnswer (MoreThan RightBefore (IsMmPair F) limit) }
    ensures part { (states : ℕ) (text : List ℕ) → HasOneAnswer (BadPart states text) }
    ensures definite { (reduce : Bool) (F : KissFile) → HasOneAnswer (NotDefiniteRow reduce F) }
    ensures ispairs { (F : KissFile) (limit : ℕ) → HasOneAnswer (RefusesInputPairs F limit) }
    ensures sopairs { (F : KissFile) (limit : ℕ) → HasOneAnswer (RefusesOutputPairs F limit) }
{}

/// A machine whose chain is whole is definite, and one that keeps two states apart is not.
pub fn chains_tell_definite_machines()
    ensures whole { (W : KissFile) (members : List (List ℕ)) → IsWholeChain W members
        → Definite W (length members - 1) }
    ensures apart { (W : KissFile) (refusal : Refusal) (k : ℕ) → KeepsApart W refusal → Definite W k → ⊥ }
{}

/// Texts of partitions of four states, by their labels and by the names of the states.
pub fn texts_show_states()
    ensures { ShowsStates }
{}

/// The digits of the number of an output are the digits of its bits, output 0 first.
pub fn lines_show_outputs()
    ensures { (F : KissFile) (s x : ℕ)
        → output_digits F.outputs (output_word F s x) ≡ map digit (out F s (symbol_of F.inputs x)) }
{
    io_pairs::words_write_outputs();
}
