//! Laws about files that have machines, each the contract of a function that does nothing.
ghost use Rattle.std.specs.Prelude.{ℕ, ◌≡◌, [], ◌∷◌, false, true};
ghost use Rattle.cubes.specs.Symbol.{symbol_of};
ghost use Rattle.kiss_file.specs.declared.file.KissFile.{KissFile};
ghost use Rattle.kiss_file.specs.LawfulFile.{IsLawful};
ghost use Rattle.kiss_file.specs.Machine.{next, out};
ghost use Rattle.machine_table.specs.Conflict.{IsFirstConflict};
ghost use Rattle.machine_table.specs.OpenEntries.{IsFirstOpen};
ghost use Rattle.machine_table.specs.Worked.{three_row_file};
ghost use Rattle.machine_table.specs.declared.open_part.Missing.TheVariants.{Output};
ghost use Rattle.state_pairs.specs.Table.{IsTable};

/// `Machine::build` accepts every lawful file.
pub fn lawful_is_a_table()
    ensures { (F : KissFile) → IsLawful F → IsTable F }
{}

/// A file with three rows: its first and only conflict, the first entry that it leaves open, and what the machine has
/// there. The conflict counts rows from 1. State 1 has no row, so that it stays where it is and its outputs are 0.
pub fn worked_file()
    ensures conflict { IsFirstConflict three_row_file 1 3 }
    ensures no_other { (a b : ℕ) → IsFirstConflict three_row_file a b → (a ≡ 1) × (b ≡ 3) }
    ensures entry { IsFirstOpen three_row_file 0 2 (Output 1) }
    ensures next_state { next three_row_file 0 (symbol_of 2 2) ≡ 1 }
    ensures outputs { out three_row_file 0 (symbol_of 2 2) ≡ true ∷ false ∷ [] }
    ensures open_next_state { next three_row_file 1 (symbol_of 2 2) ≡ 1 }
    ensures open_outputs { out three_row_file 1 (symbol_of 2 2) ≡ false ∷ false ∷ [] }
{}
