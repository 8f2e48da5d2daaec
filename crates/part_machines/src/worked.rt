//! Small cases of cells and fields, as the contracts of functions that do nothing.

ghost use Rattle.std.specs.Prelude.{[], ◌∷◌, Contains};
ghost use Rattle.part_machines.specs.Cells.{AreCells, IsCellField};
ghost use Rattle.part_machines.specs.Fields.{IsFieldOf};
ghost use Rattle.part_machines.specs.Worked.{
  counter_words,
  dash,
  first_blocks,
  first_reads,
  one_at,
  second_blocks,
  second_reads,
  shown,
  word_1,
  word_4,
  word_5,
  zero_at,
};

/// The fields of the words 001, 100 and 101 where these are shown: `0--`, `1-0` and `1-1`.
pub fn worked_fields()
    ensures first { IsFieldOf (Contains shown) word_1 (zero_at ∷ dash ∷ dash ∷ []) }
    ensures second { IsFieldOf (Contains shown) word_4 (one_at ∷ dash ∷ zero_at ∷ []) }
    ensures third { IsFieldOf (Contains shown) word_5 (one_at ∷ dash ∷ one_at ∷ []) }
    ensures not_whole { ¬ IsFieldOf (Contains shown) word_1 (zero_at ∷ zero_at ∷ one_at ∷ []) }
    ensures not_from_the_end { ¬ IsFieldOf (Contains shown) word_5 (one_at ∷ dash ∷ dash ∷ []) }
{}

/// The cells of both parts of the counter modulo 4 that `feedback` splits, and their fields. In the first part, states
/// 0 and 1 are in one cell. In its second block, and in two blocks of the second part, one value is shown.
pub fn worked_cells()
    ensures first_part { AreCells first_blocks counter_words first_reads (0 ∷ 2 ∷ 3 ∷ []) }
    ensures first_field { IsCellField first_blocks counter_words first_reads 0 (zero_at ∷ []) }
    ensures other_field { IsCellField first_blocks counter_words first_reads 2 (one_at ∷ []) }
    ensures lone_field { IsCellField first_blocks counter_words first_reads 3 (dash ∷ []) }
    ensures second_part { AreCells second_blocks counter_words second_reads (0 ∷ 1 ∷ 2 ∷ 3 ∷ []) }
    ensures zero_shown { IsCellField second_blocks counter_words second_reads 0 (zero_at ∷ []) }
    ensures one_shown { IsCellField second_blocks counter_words second_reads 3 (one_at ∷ []) }
    ensures alone { IsCellField second_blocks counter_words second_reads 1 (dash ∷ []) }
{}
