//! Worked texts: what they say, and what they are refused for.
ghost use Rattle.hs_io.specs.declared.lines.Line.{Line};
ghost use Rattle.kiss2.specs.Faults.{fault_in, row_fault};
ghost use Rattle.kiss2.specs.Kiss.{Kiss};
ghost use Rattle.std.specs.Prelude.{◌≡◌, ◌<◌, ◌≤◌, ◌++◌, ℕ, List, [], ◌∷◌, None, Some, codes, length, map, replicate};
ghost use Rattle.cubes.specs.declared.cube.Cube.{Cube};
ghost use Rattle.cubes.specs.Cube.{text_of};
ghost use Rattle.kiss_file.specs.declared.file.KissFile.{KissFile};
ghost use Rattle.kiss2.specs.declared.fault.KissKind.TheVariants.{
  AnyState,
  BadByte,
  BadCube,
  BadFields,
  BadNumber,
  BadOutput,
  MissingCounts,
  NoRows,
  OverLimit,
  Repeated,
  ResetUnknown,
  UnknownWord,
};
ghost use Rattle.kiss2.specs.declared.fault.KissLimit.TheVariants.{Inputs, NameBytes, Outputs, Rows, States};
ghost use Rattle.kiss2.specs.Standing.{inputs_said, outputs_said, row_lines};
ghost use Rattle.kiss2.specs.KissText.{kiss_text};
ghost use Rattle.kiss2_laws.specs.Worked.{
  AreWritten,
  lines_with_all_names,
  lines_with_input_names,
  lines_with_output_names,
  written_file,
  IsRefused,
  bad_cube_line,
  bad_output_line,
  lines_of_256_states,
  long_state_line,
  passing_lines,
  row_to,
  state_line,
  text,
  three_fields_line,
  unset_lines,
  words_last_lines,
  worked_lines,
};

/// Texts that are refused, each with the line and the kind of its first fault.
pub fn worked_faults()
    ensures nothing { IsRefused [] 0 NoRows }
    ensures reset_unknown { IsRefused
        (codes ".i 1" ∷ codes ".o 1" ∷ codes ".r b" ∷ codes "0 a a 0" ∷ codes "1 a a 0" ∷ []) 3 ResetUnknown }
    ensures no_inputs { IsRefused (codes ".i 0" ∷ []) 1 BadNumber }
    ensures many_inputs { IsRefused (codes ".i 33" ∷ []) 1 (OverLimit Inputs 33) }
    ensures again { IsRefused (codes ".i 1" ∷ codes ".i 1" ∷ []) 2 Repeated }
    ensures counts_missing { IsRefused (codes ".i 1" ∷ codes "0 a a 0" ∷ []) 2 MissingCounts }
    ensures any_state { IsRefused (codes ".i 1" ∷ codes ".o 1" ∷ codes "- * a 0" ∷ []) 3 AnyState }
    ensures bad_cube { IsRefused (codes ".i 1" ∷ codes ".o 1" ∷ codes "2 a a 0" ∷ []) 3 BadCube }
    ensures bad_output { IsRefused (codes ".i 1" ∷ codes ".o 1" ∷ codes "0 a a 00" ∷ []) 3 BadOutput }
    ensures unknown_word { IsRefused (codes ".i 1" ∷ codes ".o 1" ∷ codes ".type fr" ∷ []) 3 UnknownWord }
    ensures bad_fields { IsRefused (codes ".i 1" ∷ codes ".o 1" ∷ codes "0 a a 0" ∷ codes "1 a" ∷ []) 4 BadFields }
    ensures bad_byte { IsRefused ((0 ∷ []) ∷ []) 1 BadByte }
    ensures byte_order_mark { IsRefused ((239 ∷ 187 ∷ 191 ∷ codes ".i 1") ∷ codes ".o 1" ∷ []) 1 BadByte }
    ensures end_of_file_byte { IsRefused (codes ".i 1" ∷ codes ".o 1" ∷ codes "0 a a 0" ∷ (26 ∷ []) ∷ []) 4 BadByte }
{}

/// Lines with several faults, and words before what they need: the first fault of the line's entry is named.
pub fn worked_orders()
    ensures cube_before_state { IsRefused (codes ".i 2" ∷ codes ".o 2" ∷ codes "0 * a 0" ∷ []) 3 BadCube }
    ensures state_before_output { IsRefused (codes ".i 2" ∷ codes ".o 2" ∷ codes "00 * a 0" ∷ []) 3 AnyState }
    ensures fields_before_cube { IsRefused (codes ".i 2" ∷ codes ".o 2" ∷ codes "0 * a" ∷ []) 3 BadFields }
    ensures counts_before_fields { IsRefused (codes ".i 2" ∷ codes "0 * a" ∷ []) 2 MissingCounts }
    ensures again_before_form { IsRefused (codes ".i 2" ∷ codes ".i" ∷ []) 2 Repeated }
    ensures byte_before_again { IsRefused (codes ".i 2" ∷ (codes ".i " ++ 0 ∷ []) ∷ []) 2 BadByte }
    ensures few_inputs { IsRefused (codes ".i 1" ∷ codes ".ilb a b" ∷ []) 2 BadFields }
    ensures names_need_counts { IsRefused (codes ".ob a" ∷ codes ".i 1" ∷ codes ".o 1" ∷ []) 1 MissingCounts }
    ensures shared_name { IsRefused (codes ".i 1" ∷ codes ".o 1" ∷ codes ".ob a" ∷ codes ".ilb a" ∷ []) 4 Repeated }
    ensures rows_past_their_count { IsRefused
        (codes ".i 1" ∷ codes ".o 1" ∷ codes ".p 1" ∷ codes "0 a a 0" ∷ codes "1 a a 2" ∷ []) 5 BadOutput }
    ensures outputs_again_before_form { IsRefused (codes ".o 2" ∷ codes ".o" ∷ []) 2 Repeated }
    ensures row_count_again_before_form { IsRefused (codes ".i 1" ∷ codes ".p 2" ∷ codes ".p 1 1" ∷ []) 3 Repeated }
    ensures state_count_again_before_number { IsRefused (codes ".s 2" ∷ codes ".s x" ∷ []) 2 Repeated }
    ensures reset_again_before_form { IsRefused (codes ".r a" ∷ codes ".r" ∷ []) 2 Repeated }
{}

/// Limits, each reached and gone over, and what is named first beside them.
pub fn worked_limits()
    ensures inputs { IsRefused (codes ".i 32" ∷ []) 0 NoRows }
    ensures outputs { IsRefused (codes ".i 1" ∷ codes ".o 64" ∷ []) 0 NoRows }
    ensures many_outputs { IsRefused (codes ".i 1" ∷ codes ".o 65" ∷ []) 2 (OverLimit Outputs 65) }
    ensures long_name { IsRefused (codes ".i 1" ∷ codes ".o 1" ∷ row_to (replicate 64 97) ∷ []) 3 BadOutput }
    ensures longer_name { IsRefused (codes ".i 1" ∷ codes ".o 1" ∷ row_to (replicate 65 97) ∷ []) 3
        (OverLimit NameBytes 65) }
    ensures long_current_name { IsRefused
        (codes ".i 1" ∷ codes ".o 1" ∷ (codes "0 " ++ (replicate 64 97 ++ codes " a 2")) ∷ []) 3 BadOutput }
    ensures long_input_name { IsRefused (codes ".i 1" ∷ (codes ".ilb " ++ replicate 64 97) ∷ []) 0 NoRows }
    ensures longer_reset { IsRefused ((codes ".r " ++ replicate 65 97) ∷ []) 1 (OverLimit NameBytes 65) }
    ensures longer_before_shared { IsRefused (codes ".i 3" ∷ (codes ".ilb a a a" ++ replicate 64 97) ∷ []) 2
        (OverLimit NameBytes 65) }
    ensures rows { (states : List (List ℕ)) → length states ≤ 256
        → row_fault (Some 1) (Some 1) 65535 states bad_output_line ≡ Some BadOutput }
    ensures many_rows { (states : List (List ℕ))
        → row_fault (Some 1) (Some 1) 65536 states bad_cube_line ≡ Some (OverLimit Rows 65537) }
    ensures many_states { (states : List (List ℕ)) → 256 < length states
        → row_fault (Some 1) (Some 1) 0 states bad_output_line ≡ Some (OverLimit States 257) }
{}

/// The forms of the words of one number or name, words that are not read, and what ends a text.
pub fn worked_words()
    ensures no_count { IsRefused (codes ".i" ∷ []) 1 BadFields }
    ensures fields_before_number { IsRefused (codes ".o 0 1" ∷ []) 1 BadFields }
    ensures no_outputs { IsRefused (codes ".o 0" ∷ []) 1 BadNumber }
    ensures no_number { IsRefused (codes ".i x" ∷ []) 1 BadNumber }
    ensures ten_digits { IsRefused (codes ".i 0000000001" ∷ []) 1 BadNumber }
    ensures nine_digits { IsRefused (codes ".i 000000001" ∷ []) 0 NoRows }
    ensures whole_count { IsRefused (codes ".i 999999999" ∷ []) 1 (OverLimit Inputs 999999999) }
    ensures row_count_of_no_digits { IsRefused (codes ".p -1" ∷ []) 1 BadNumber }
    ensures row_count_alone { IsRefused (codes ".p" ∷ []) 1 BadFields }
    ensures row_counts { IsRefused (codes ".p x y" ∷ []) 1 BadFields }
    ensures state_counts { IsRefused (codes ".s 1 2" ∷ []) 1 BadFields }
    ensures state_count_of_ten_digits { IsRefused (codes ".s 0000000001" ∷ []) 1 BadNumber }
    ensures counts_of_nine_digits { IsRefused (codes ".p 999999999" ∷ codes ".s 999999999" ∷ []) 0 NoRows }
    ensures counts_of_none { IsRefused (codes ".p 0" ∷ codes ".s 0" ∷ []) 0 NoRows }
    ensures outputs_again { IsRefused (codes ".o 1" ∷ codes ".o 1" ∷ []) 2 Repeated }
    ensures row_count_again { IsRefused (codes ".p 1" ∷ codes ".p 1" ∷ []) 2 Repeated }
    ensures state_count_again { IsRefused (codes ".s 1" ∷ codes ".s 1" ∷ []) 2 Repeated }
    ensures reset_again { IsRefused (codes ".r a" ∷ codes ".r b" ∷ []) 2 Repeated }
    ensures two_resets { IsRefused (codes ".r a b" ∷ []) 1 BadFields }
    ensures fields_before_long_reset { IsRefused ((codes ".r a " ++ replicate 65 97) ∷ []) 1 BadFields }
    ensures long_reset { IsRefused ((codes ".r " ++ replicate 64 97) ∷ []) 0 NoRows }
    ensures open_reset { IsRefused (codes ".i 1" ∷ codes ".o 1" ∷ codes ".r *" ∷ codes "0 a * 0" ∷ []) 3 ResetUnknown }
    ensures no_rows_before_reset { IsRefused (codes ".r a" ∷ []) 0 NoRows }
    ensures capital_word { IsRefused (codes ".I 1" ∷ []) 1 UnknownWord }
    ensures longer_word { IsRefused (codes ".ends" ∷ []) 1 UnknownWord }
    ensures dot_alone { IsRefused (codes ". 1" ∷ []) 1 UnknownWord }
    ensures byte_before_word { IsRefused (codes ".type \u{1}" ∷ []) 1 BadByte }
    ensures bad_end { IsRefused (codes ".end \u{1}" ∷ []) 1 BadByte }
    ensures short_end { IsRefused (codes ".i 1" ∷ codes ".e x" ∷ codes ".type" ∷ []) 0 NoRows }
    ensures bytes_after_end { IsRefused (codes ".i 1" ∷ codes ".e" ∷ codes "\u{1}" ∷ []) 0 NoRows }
    ensures blank_lines_are_numbered { IsRefused (codes "# a" ∷ [] ∷ codes "  # b" ∷ codes ".i 0" ∷ []) 4 BadNumber }
    ensures sign { IsRefused (codes ".i +1" ∷ []) 1 BadNumber }
    ensures zeros { IsRefused (codes ".i 00" ∷ []) 1 BadNumber }
    ensures zero_before_many { IsRefused (codes ".i 041" ∷ []) 1 (OverLimit Inputs 41) }
    ensures whole_count_of_outputs { IsRefused (codes ".o 999999999" ∷ []) 1 (OverLimit Outputs 999999999) }
    ensures dash_reset { IsRefused (codes ".i 1" ∷ codes ".o 1" ∷ codes ".r -" ∷ codes "0 a - 0" ∷ []) 3 ResetUnknown }
    ensures start_word { IsRefused (codes ".start_kiss" ∷ codes ".i 1" ∷ []) 1 UnknownWord }
    ensures model_word { IsRefused (codes ".i 1" ∷ codes ".model m" ∷ []) 2 UnknownWord }
    ensures bad_short_end { IsRefused (codes ".i 1" ∷ codes ".e \u{1}" ∷ []) 2 BadByte }
{}

/// The names of inputs and outputs.
pub fn worked_names()
    ensures input_names_need_inputs { IsRefused (codes ".o 1" ∷ codes ".ilb a" ∷ []) 2 MissingCounts }
    ensures output_names_need_outputs { IsRefused (codes ".i 1" ∷ codes ".ob a" ∷ []) 2 MissingCounts }
    ensures input_names_alone { IsRefused (codes ".i 1" ∷ codes ".ilb a" ∷ []) 0 NoRows }
    ensures output_names_alone { IsRefused (codes ".o 1" ∷ codes ".ob a" ∷ []) 0 NoRows }
    ensures counts_before_fields { IsRefused (codes ".ilb" ∷ []) 1 MissingCounts }
    ensures few_outputs { IsRefused (codes ".o 1" ∷ codes ".ob a b" ∷ []) 2 BadFields }
    ensures many_outputs { IsRefused (codes ".o 2" ∷ codes ".ob a" ∷ []) 2 BadFields }
    ensures backslash { IsRefused (codes ".i 1" ∷ codes ".ilb a\\" ∷ []) 2 BadFields }
    ensures output_backslash { IsRefused (codes ".o 1" ∷ codes ".ob \\a" ∷ []) 2 BadFields }
    ensures fields_before_long { IsRefused (codes ".i 2" ∷ (codes ".ilb " ++ replicate 65 97) ∷ []) 2 BadFields }
    ensures backslash_before_long { IsRefused
        (codes ".i 2" ∷ (codes ".ilb " ++ (replicate 65 97 ++ codes " \\")) ∷ []) 2 BadFields }
    ensures long_name { IsRefused (codes ".o 1" ∷ (codes ".ob " ++ replicate 64 97) ∷ []) 0 NoRows }
    ensures longer_name { IsRefused (codes ".o 1" ∷ (codes ".ob " ++ replicate 65 97) ∷ []) 2 (OverLimit NameBytes 65) }
    ensures first_longer_name { IsRefused
        (codes ".i 2" ∷ (codes ".ilb " ++ (replicate 66 97 ++ codes " " ++ replicate 65 97)) ∷ []) 2
        (OverLimit NameBytes 66) }
    ensures marks_are_names { IsRefused (codes ".i 3" ∷ codes ".ilb * - .e" ∷ []) 0 NoRows }
    ensures twice { IsRefused (codes ".i 2" ∷ codes ".ilb a a" ∷ []) 2 Repeated }
    ensures output_twice { IsRefused (codes ".o 2" ∷ codes ".ob a a" ∷ []) 2 Repeated }
    ensures shared_name { IsRefused (codes ".i 1" ∷ codes ".o 1" ∷ codes ".ilb a" ∷ codes ".ob a" ∷ []) 4 Repeated }
    ensures again_before_fields { IsRefused (codes ".i 1" ∷ codes ".ilb a" ∷ codes ".ilb" ∷ []) 3 Repeated }
    ensures outputs_again_before_fields { IsRefused (codes ".o 1" ∷ codes ".ob a" ∷ codes ".ob" ∷ []) 3 Repeated }
{}

/// Rows, and which of two faults of a row is named.
pub fn worked_rows()
    ensures inputs_missing { IsRefused (codes ".o 1" ∷ codes "0 a a 0" ∷ []) 2 MissingCounts }
    ensures five_fields { IsRefused (codes ".i 1" ∷ codes ".o 1" ∷ codes "0 a a 0 0" ∷ []) 3 BadFields }
    ensures wide_cube { IsRefused (codes ".i 1" ∷ codes ".o 1" ∷ codes "00 a a 0" ∷ []) 3 BadCube }
    ensures narrow_output { IsRefused (codes ".i 1" ∷ codes ".o 2" ∷ codes "0 a a 0" ∷ []) 3 BadOutput }
    ensures marks_in_names { IsRefused (codes ".i 1" ∷ codes ".o 1" ∷ codes "0 .a a\\ 2" ∷ []) 3 BadOutput }
    ensures marks_twice { IsRefused (codes ".i 1" ∷ codes ".o 1" ∷ codes "0 -- ** 2" ∷ []) 3 BadOutput }
    ensures counts_after_a_row { IsRefused (codes "0 a a 0" ∷ codes ".i 1" ∷ codes ".o 1" ∷ []) 1 MissingCounts }
    ensures again_after_a_row { IsRefused
        (codes ".i 1" ∷ codes ".o 1" ∷ codes "0 a a 0" ∷ codes ".i 1" ∷ []) 4 Repeated }
    ensures number_after_a_row { IsRefused
        (codes ".i 1" ∷ codes ".o 1" ∷ codes "0 a a 0" ∷ codes ".p x" ∷ []) 4 BadNumber }
    ensures dash_state { IsRefused (codes ".i 1" ∷ codes ".o 1" ∷ codes "0 - a 0" ∷ []) 3 AnyState }
    ensures state_before_long { IsRefused
        (codes ".i 1" ∷ codes ".o 1" ∷ (codes "0 * " ++ (replicate 65 97 ++ codes " 0")) ∷ []) 3 AnyState }
    ensures longer_state { IsRefused
        (codes ".i 1" ∷ codes ".o 1" ∷ (codes "0 " ++ (replicate 65 97 ++ codes " a 0")) ∷ []) 3
        (OverLimit NameBytes 65) }
    ensures current_before_next { IsRefused
        (codes ".i 1" ∷ codes ".o 1" ∷ (codes "0 " ++ (replicate 66 97 ++ codes " " ++ replicate 65 97 ++ codes " 0"))
        ∷ []) 3 (OverLimit NameBytes 66) }
    ensures fields_before_rows { (states : List (List ℕ))
        → row_fault (Some 1) (Some 1) 65536 states three_fields_line ≡ Some BadFields }
    ensures long_before_states { (states : List (List ℕ)) → 256 < length states
        → row_fault (Some 1) (Some 1) 0 states long_state_line ≡ Some (OverLimit NameBytes 65) }
    ensures rows_counted { (before : List Line) → inputs_said before ≡ Some 1 → outputs_said before ≡ Some 1
        → length (row_lines before) ≡ 65536
        → fault_in before bad_cube_line ≡ Some (OverLimit Rows 65537) }
    ensures states_reached { fault_in lines_of_256_states (state_line (codes "aA") (codes "Hp")) ≡ None }
    ensures states_counted { fault_in lines_of_256_states (state_line (codes "aA") (codes "a")) ≡ Some
        (OverLimit States 257) }
    ensures letter_in_an_input { IsRefused (codes ".i 1" ∷ codes ".o 1" ∷ codes "x a a 0" ∷ []) 3 BadCube }
    ensures tilde_in_an_output { IsRefused (codes ".i 1" ∷ codes ".o 1" ∷ codes "0 a a ~" ∷ []) 3 BadOutput }
{}

/// Rows and states past the numbers that a text gives, and the order of states: those that are no current state come last.
pub fn worked_counts()
    ensures said { (F : KissFile) × Kiss (text passing_lines) F }
    ensures states { (F : KissFile) → Kiss (text passing_lines) F
        → F.states ≡ codes "a" ∷ codes "b" ∷ codes "c" ∷ codes "d" ∷ [] }
    ensures reset { (F : KissFile) → Kiss (text passing_lines) F → F.reset ≡ 3 }
    ensures from { (F : KissFile) → Kiss (text passing_lines) F → map (λ row. row.from) F.rows ≡ 0 ∷ 1 ∷ 2 ∷ [] }
    ensures to { (F : KissFile) → Kiss (text passing_lines) F
        → map (λ row. row.to) F.rows ≡ Some 2 ∷ None ∷ Some 3 ∷ [] }
{}

/// A text without `.r`: its first row's current state is the reset state. It gives more rows and states than it
/// has, and a row that stands twice is two rows.
pub fn worked_start()
    ensures said { (F : KissFile) × Kiss (text unset_lines) F }
    ensures states { (F : KissFile) → Kiss (text unset_lines) F → F.states ≡ codes "b" ∷ codes "a" ∷ codes "--" ∷ [] }
    ensures reset { (F : KissFile) → Kiss (text unset_lines) F → F.reset ≡ 0 }
    ensures from { (F : KissFile) → Kiss (text unset_lines) F → map (λ row. row.from) F.rows ≡ 0 ∷ 0 ∷ 1 ∷ [] }
    ensures to { (F : KissFile) → Kiss (text unset_lines) F
        → map (λ row. row.to) F.rows ≡ Some 1 ∷ Some 1 ∷ Some 2 ∷ [] }
{}

/// Words after rows, and names of inputs and outputs that are names of states too.
pub fn worked_ends()
    ensures said { (F : KissFile) × Kiss (text words_last_lines) F }
    ensures states { (F : KissFile) → Kiss (text words_last_lines) F → F.states ≡ codes "a" ∷ codes "b" ∷ [] }
    ensures reset { (F : KissFile) → Kiss (text words_last_lines) F → F.reset ≡ 1 }
    ensures names { (F : KissFile) → Kiss (text words_last_lines) F → (F.input_names ≡ Some (codes "b" ∷ []))
        × (F.output_names ≡ Some (codes "a" ∷ [])) }
{}

/// What a text says.
pub fn worked_text()
    ensures said { (F : KissFile) × Kiss (text worked_lines) F }
    ensures counts { (F : KissFile) → Kiss (text worked_lines) F → (F.inputs ≡ 2) × (F.outputs ≡ 2) }
    ensures states { (F : KissFile) → Kiss (text worked_lines) F → F.states ≡ codes "a" ∷ codes "b" ∷ [] }
    ensures reset { (F : KissFile) → Kiss (text worked_lines) F → F.reset ≡ 1 }
    ensures names { (F : KissFile) → Kiss (text worked_lines) F → (F.input_names ≡ Some (codes "x" ∷ codes "y" ∷ []))
        × (F.output_names ≡ None) }
    ensures cubes { (F : KissFile) → Kiss (text worked_lines) F
        → map (λ row. text_of row.cube) F.rows ≡ codes "1-" ∷ codes "--" ∷ codes "00" ∷ [] }
    ensures from { (F : KissFile) → Kiss (text worked_lines) F → map (λ row. row.from) F.rows ≡ 0 ∷ 1 ∷ 0 ∷ [] }
    ensures to { (F : KissFile) → Kiss (text worked_lines) F
        → map (λ row. row.to) F.rows ≡ Some 1 ∷ None ∷ Some 1 ∷ [] }
    ensures care { (F : KissFile) → Kiss (text worked_lines) F → map (λ row. row.care) F.rows ≡ 1 ∷ 3 ∷ 2 ∷ [] }
    ensures value { (F : KissFile) → Kiss (text worked_lines) F → map (λ row. row.value) F.rows ≡ 0 ∷ 3 ∷ 2 ∷ [] }
{}

/// The nine lines of a record of two rows and three states. It has names of its inputs, and then instead of its
/// outputs. A next state is open, an input and an output are dashes, and the last state is the reset state.
pub fn worked_writing()
    ensures input_names { (first second : Cube) → AreWritten first second
        → kiss_text (written_file first second (Some (codes "x" ∷ codes "y" ∷ [])) None) ≡ text lines_with_input_names }
    ensures output_names { (first second : Cube) → AreWritten first second
        → kiss_text (written_file first second None (Some (codes "u" ∷ codes "v" ∷ [])))
        ≡ text lines_with_output_names }
    ensures all_names { (first second : Cube) → AreWritten first second
        → kiss_text (written_file first second (Some (codes "x" ∷ codes "y" ∷ [])) (Some (codes "u" ∷ codes "v" ∷ [])))
        ≡ text lines_with_all_names }
    ensures some { (first : Cube) × (second : Cube) × AreWritten first second }
{}
