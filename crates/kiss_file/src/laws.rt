//! Laws of the machines of files, each the contract of a function that does nothing.

ghost use Rattle.std.specs.Prelude.{◌≡◌, [], ◌∷◌, false, true, IsNone, IsSome};
ghost use Rattle.cubes.specs.declared.cube.Cube.{Cube};
ghost use Rattle.kiss_file.specs.declared.file.KissRow.{KissRow};
ghost use Rattle.kiss_file.specs.Machine.{
  Conflicting,
  IsRowAt,
  IsSpecifiedAt,
  NextIsAState,
  RowsDecide,
  answers,
  given_bit,
  next,
  out,
};
ghost use Rattle.kiss_file.specs.Worked.{
  AreCubes,
  ForCubes,
  file,
  first_row,
  second_row,
  symbol_0,
  symbol_1,
  symbol_2,
  third_row,
  whole,
};

/// What rows say of a state and a symbol is the machine's next state and output, whichever of them is
/// asked.
pub fn rows_decide()
    ensures { RowsDecide }
{}

/// The machine of a lawful file never leaves its states.
pub fn next_is_a_state()
    ensures { NextIsAState }
{}

/// A file of three rows. Its first row and its third contradict one another, and no other two do. All is said of
/// the first state at the first two symbols, and at the next one all but the second output. There, and where no
/// row says anything, these are the next state, the outputs and the answers.
pub fn worked_machine()
    ensures some { (first : Cube) × (second : Cube) × (third : Cube) × AreCubes first second third }
    ensures first_and_third { ForCubes
        (λ first second third. Conflicting (file (first_row first ∷ third_row third ∷ []))) }
    ensures not_first_and_second { ForCubes
        (λ first second third. ¬ Conflicting (file (first_row first ∷ second_row second ∷ []))) }
    ensures not_second_and_third { ForCubes
        (λ first second third. ¬ Conflicting (file (second_row second ∷ third_row third ∷ []))) }
    ensures said_at_0 { ForCubes (λ first second third. IsSpecifiedAt (whole first second third) 0 symbol_0) }
    ensures said_at_1 { ForCubes (λ first second third. IsSpecifiedAt (whole first second third) 0 symbol_1) }
    ensures next_said_at_2 { ForCubes
        (λ first second third. (row : KissRow) × IsRowAt (whole first second third) 0 symbol_2 row × IsSome row.to) }
    ensures output_0_said_at_2 { ForCubes
        (λ first second third. (row : KissRow) × IsRowAt (whole first second third) 0 symbol_2 row
        × IsSome (given_bit 0 row)) }
    ensures output_1_open_at_2 { ForCubes
        (λ first second third. (row : KissRow) → IsRowAt (whole first second third) 0 symbol_2 row
        → IsNone (given_bit 1 row)) }
    ensures next_at_2 { ForCubes (λ first second third. next (whole first second third) 0 symbol_2 ≡ 1) }
    ensures outputs_at_2 { ForCubes
        (λ first second third. out (whole first second third) 0 symbol_2 ≡ true ∷ false ∷ []) }
    ensures next_of_no_row { ForCubes (λ first second third. next (whole first second third) 1 symbol_1 ≡ 1) }
    ensures outputs_of_no_row { ForCubes
        (λ first second third. out (whole first second third) 1 symbol_1 ≡ false ∷ false ∷ []) }
    ensures answered { ForCubes
        (λ first second third. answers (whole first second third) 0 (symbol_2 ∷ symbol_0 ∷ []) ≡ (true ∷ false ∷ []) ∷
        (false ∷ false ∷ []) ∷ []) }
{}
