//! Worked texts, and the faults for which they are refused.

ghost use Rattle.std.specs.Prelude.{◌≡◌, List, [], ◌∷◌, ◌++◌, None, Some, codes, count_by, replicate, true};
ghost use Rattle.net_core.specs.Limits.{is_names};
ghost use Rattle.net_core.specs.Statements.{Names, Statement};
ghost use Rattle.blif_in.specs.Faults.{form_fault};
ghost use Rattle.blif_laws.specs.Worked.{IsRead, IsRefused, cycle_lines, long, many};
ghost use Rattle.net_core.specs.Blif.{Blif};
ghost use Rattle.net_core.specs.Worked.{gate, latch, network};
ghost use Rattle.net_core.specs.declared.Start.TheVariants.{Free, One, Zero};
ghost use Rattle.net_core.specs.declared.causes.NetFail.TheVariants.{Cycle, TwoDrivers, Undriven};
ghost use Rattle.blif_in.specs.declared.fault.BlifKind.TheVariants.{
  BadByte,
  BadFields,
  BadRow,
  Clocks,
  LatchKind,
  MixedCover,
  NoModel,
  OverLimit,
  Structure,
  Unsupported,
};
ghost use Rattle.blif_in.specs.declared.fault.NetLimit.TheVariants.{
  GateInputs,
  Gates,
  Inputs,
  Latches,
  NameBytes,
  Outputs,
};

/// Texts that do not begin with a model, and lines with a bad byte.
pub fn worked_beginnings()
    ensures nothing { IsRefused [] 0 NoModel }
    ensures ended_first { IsRefused (codes ".end" ∷ codes ".model m" ∷ []) 0 NoModel }
    ensures comments_alone { IsRefused (codes "# .model m" ∷ [] ∷ codes "  # a" ∷ []) 0 NoModel }
    ensures inputs_first { IsRefused (codes "# a" ∷ codes ".inputs a" ∷ codes ".model m" ∷ []) 2 NoModel }
    ensures row_first { IsRefused (codes "1 1" ∷ []) 1 NoModel }
    ensures other_word_first { IsRefused (codes ".subckt n" ∷ []) 1 NoModel }
    ensures bad_end_first { IsRefused (codes ".end \u{1}" ∷ []) 1 BadByte }
    ensures bad_before_no_model { IsRefused (codes ".inputs \u{1}" ∷ []) 1 BadByte }
    ensures bad_end { IsRefused (codes ".model m" ∷ codes ".end \u{1}" ∷ []) 2 BadByte }
    ensures bad_before_unsupported { IsRefused (codes ".model m" ∷ codes ".gate \u{7f}" ∷ []) 2 BadByte }
    ensures backslash_within { IsRefused (codes ".model m" ∷ codes ".inputs a" ∷ codes ".outputs z\\a" ∷ []) 3 BadByte }
{}

/// Words that are not supported, and lines of the wrong form.
pub fn worked_forms()
    ensures unsupported { IsRefused (codes ".model m" ∷ codes ".subckt n a=b" ∷ codes ".end" ∷ []) 2 Unsupported }
    ensures arrival { IsRefused (codes ".model m" ∷ codes ".default_input_arrival 0 0" ∷ []) 2 Unsupported }
    ensures second_model { IsRefused (codes ".model m" ∷ codes ".inputs a" ∷ codes ".model m n" ∷ []) 3 Unsupported }
    ensures model_names { IsRefused (codes ".model m n" ∷ []) 1 BadFields }
    ensures clock_names { IsRefused (codes ".model m" ∷ codes ".clock c" ∷ codes ".clock c d" ∷ []) 3 BadFields }
    ensures clock_names_before_long { IsRefused (codes ".model m" ∷ (codes ".clock c " ++ long 65) ∷ []) 2 BadFields }
    ensures latch_fields { IsRefused (codes ".model m" ∷ codes ".latch a" ∷ codes ".latch a b" ∷ []) 2 BadFields }
    ensures start_before_kind { IsRefused (codes ".model m" ∷ codes ".latch a b fe c 4" ∷ []) 2 BadFields }
    ensures row_alone { IsRefused (codes ".model m" ∷ codes "1 1" ∷ codes ".end" ∷ []) 2 BadFields }
    ensures row_after_inputs { IsRefused
        (codes ".model m" ∷ codes ".names z" ∷ codes "1" ∷ codes ".inputs a" ∷ codes "1" ∷ []) 5 BadFields }
    ensures latch_kind { IsRefused (codes ".model m" ∷ codes ".latch a b fe c 0" ∷ []) 2 LatchKind }
    ensures kind_before_name { IsRefused
        (codes ".model m" ∷ (codes ".latch a " ++ (long 65 ++ codes " fe c 0")) ∷ []) 2 LatchKind }
    ensures capital_word { IsRefused (codes ".model m" ∷ codes ".INPUTS a" ∷ []) 2 Unsupported }
    ensures dot_alone { IsRefused (codes ".model m" ∷ codes ".names a z" ∷ codes ". 1" ∷ []) 3 Unsupported }
    ensures shorter_word { IsRefused (codes ".model m" ∷ codes ".input a" ∷ []) 2 Unsupported }
    ensures no_names { IsRefused (codes ".model m" ∷ codes ".names" ∷ []) 2 BadFields }
    ensures two_digits { IsRefused (codes ".model m" ∷ codes ".latch a b 00" ∷ []) 2 BadFields }
    ensures type_alone { IsRefused (codes ".model m" ∷ codes ".latch a b re" ∷ []) 2 BadFields }
    ensures active_high { IsRefused (codes ".model m" ∷ codes ".latch a b ah c" ∷ []) 2 LatchKind }
    ensures long_word { IsRefused (codes ".model m" ∷ (codes "." ++ long 64) ∷ []) 2 Unsupported }
    ensures long_type { IsRefused
        (codes ".model m" ∷ (codes ".latch a b " ++ (long 65 ++ codes " c 0")) ∷ []) 2 LatchKind }
    ensures latch_fields_before_long { IsRefused (codes ".model m" ∷ (codes ".latch " ++ long 65) ∷ []) 2 BadFields }
    ensures start_before_long { IsRefused
        (codes ".model m" ∷ (codes ".latch " ++ (long 65 ++ codes " b 4")) ∷ []) 2 BadFields }
    ensures kind_before_clocks { IsRefused
        (codes ".model m" ∷ codes ".clock c" ∷ codes ".latch a b fe d" ∷ []) 3 LatchKind }
{}

/// Rows that do not fit their gate.
pub fn worked_rows()
    ensures bad_row { IsRefused (codes ".model m" ∷ codes ".names a z" ∷ codes "11 1" ∷ []) 3 BadRow }
    ensures bit_two { IsRefused (codes ".model m" ∷ codes ".names a z" ∷ codes "1 1" ∷ codes "1 2" ∷ []) 4 BadRow }
    ensures row_before_cover { IsRefused
        (codes ".model m" ∷ codes ".names a z" ∷ codes "1 1" ∷ codes "00 0" ∷ []) 4 BadRow }
    ensures gate_before { IsRefused
        (codes ".model m" ∷ codes ".names a b u" ∷ codes "11 1" ∷ codes ".names a v" ∷ codes "11 1" ∷ []) 5 BadRow }
    ensures mixed_cover { IsRefused
        (codes ".model m" ∷ codes ".names a z" ∷ codes "1 1" ∷ codes "0 0" ∷ []) 4 MixedCover }
    ensures mixed_joined { IsRefused
        (codes ".model m" ∷ codes ".names \\" ∷ codes "a z" ∷ codes "1 1" ∷ codes "0\\" ∷ codes "0" ∷ []) 5 MixedCover }
    ensures skipped_between { IsRefused
        (codes ".model m" ∷ codes ".names a z" ∷ [] ∷ codes "# rows" ∷ codes "11 1" ∷ []) 5 BadRow }
    ensures row_after_clock { IsRefused
        (codes ".model m" ∷ codes ".names a z" ∷ codes ".clock c" ∷ codes "11 1" ∷ []) 4 BadFields }
    ensures few_characters { IsRefused (codes ".model m" ∷ codes ".names a b z" ∷ codes "1 1" ∷ []) 3 BadRow }
    ensures letter_in_a_plane { IsRefused (codes ".model m" ∷ codes ".names a z" ∷ codes "x 1" ∷ []) 3 BadRow }
    ensures two_output_bits { IsRefused (codes ".model m" ∷ codes ".names a z" ∷ codes "1 11" ∷ []) 3 BadRow }
    ensures dash_of_a_constant { IsRefused (codes ".model m" ∷ codes ".names z" ∷ codes "-" ∷ []) 3 BadRow }
    ensures two_bits_of_a_constant { IsRefused (codes ".model m" ∷ codes ".names z" ∷ codes "11" ∷ []) 3 BadRow }
{}

/// Clocks, and lines that are joined.
pub fn worked_clocks()
    ensures second_control { IsRefused
        (codes ".model m" ∷ codes ".latch a b re c 0" ∷ codes ".latch a d re e 0" ∷ []) 3 Clocks }
    ensures second_clock { IsRefused (codes ".model m" ∷ codes ".clock c" ∷ codes ".clock c" ∷ []) 3 Clocks }
    ensures control_beside_nil { IsRefused
        (codes ".model m" ∷ codes ".clock NIL" ∷ codes ".latch a b re c 0" ∷ []) 3 Clocks }
    ensures driven_clock { IsRefused
        (codes ".model m" ∷ codes ".inputs a" ∷ codes ".clock c" ∷ codes ".names c" ∷ codes "1" ∷ []) 3 Clocks }
    ensures driven_before_it_is_named { IsRefused
        (codes ".model m" ∷ codes ".names c" ∷ codes ".clock c" ∷ []) 3 Clocks }
    ensures latch_drives_clock { IsRefused
        (codes ".model m" ∷ codes ".latch a c 0" ∷ codes ".latch a b re c 0" ∷ []) 3 Clocks }
    ensures joined_number { IsRefused
        (codes ".model m" ∷ codes ".inputs a \\" ∷ codes "b\\" ∷ codes "c" ∷ codes ".gate x" ∷ []) 5 Unsupported }
    ensures joined_word { IsRefused (codes ".model m\\" ∷ [] ∷ codes ".subckt\\" ∷ codes " n" ∷ []) 3 Unsupported }
    ensures joined_bad { IsRefused
        (codes ".model m" ∷ codes ".inputs a \\" ∷ codes "\u{1}" ∷ codes ".gate x" ∷ []) 2 BadByte }
    ensures joined_bad_first { IsRefused
        (codes ".model m" ∷ codes ".inputs \u{1} \\" ∷ codes "a" ∷ codes ".gate x" ∷ []) 2 BadByte }
    ensures joined_backslash { IsRefused
        (codes ".model m" ∷ codes ".inputs a \\" ∷ codes "b\\c" ∷ codes ".gate x" ∷ []) 2 BadByte }
    ensures joined_word_of_end { IsRefused
        (codes ".model m" ∷ codes ".inputs a \\" ∷ codes ".end" ∷ codes ".gate x" ∷ []) 4 Unsupported }
    ensures joined_comment { IsRefused
        (codes ".model m" ∷ codes ".inputs a \\" ∷ codes "# b" ∷ codes ".gate x" ∷ []) 4 Unsupported }
    ensures joined_end { IsRefused (codes ".model m" ∷ codes ".gate\\" ∷ []) 2 Unsupported }
    ensures first_named_by_word { IsRefused
        (codes ".model m" ∷ codes ".clock c" ∷ codes ".latch a c re c" ∷ []) 2 Clocks }
    ensures line_before_driven_clock { IsRefused
        (codes ".model m" ∷ codes ".clock c" ∷ codes ".names c" ∷ codes "1" ∷ codes ".gate x" ∷ []) 5 Unsupported }
    ensures driven_before_structure { IsRefused
        (codes ".model m" ∷ codes ".outputs z" ∷ codes ".clock c" ∷ codes ".names c" ∷ []) 3 Clocks }
    ensures comment_backslash { IsRefused (codes ".model m" ∷ codes "# \\" ∷ codes ".gate x" ∷ []) 3 Unsupported }
    ensures joined_past_a_tab { IsRefused
        (codes ".model m" ∷ codes ".inputs a\\\t" ∷ codes ".gate x" ∷ codes ".gate y" ∷ []) 4 Unsupported }
    ensures backslash_before_a_tab { IsRefused
        (codes ".model m" ∷ codes ".inputs a\\\tb" ∷ codes ".gate x" ∷ []) 2 BadByte }
{}

/// Limits, and which fault of a line comes first.
pub fn worked_limits()
    ensures long_name { IsRefused (codes ".model m" ∷ (codes ".inputs " ++ long 65) ∷ []) 2 (OverLimit NameBytes 65) }
    ensures first_long_name { IsRefused
        (codes ".model m" ∷ (codes ".names " ++ (long 66 ++ (codes " " ++ long 65))) ∷ []) 2 (OverLimit NameBytes 66) }
    ensures long_control { IsRefused (codes ".model m" ∷ codes ".clock c" ∷ (codes ".latch a b re " ++ long 65) ∷ []) 3
        (OverLimit NameBytes 65) }
    ensures many_inputs { IsRefused (codes ".model m" ∷ codes ".inputs a" ∷ (codes ".inputs" ++ many 256) ∷ []) 3
        (OverLimit Inputs 257) }
    ensures long_before_many { IsRefused
        (codes ".model m" ∷ (codes ".inputs" ++ (many 257 ++ (codes " " ++ long 65))) ∷ []) 2 (OverLimit NameBytes 65) }
    ensures many_outputs { IsRefused (codes ".model m" ∷ codes ".outputs a" ∷ (codes ".outputs" ++ many 256) ∷ []) 3
        (OverLimit Outputs 257) }
    ensures many_latches { IsRefused (codes ".model m" ∷ replicate 257 (codes ".latch a b")) 258
        (OverLimit Latches 257) }
    ensures many_gate_inputs { IsRefused (codes ".model m" ∷ (codes ".names" ++ many 258) ∷ []) 2
        (OverLimit GateInputs 257) }
    ensures inputs_one_by_one { IsRefused (codes ".model m" ∷ (codes ".inputs" ++ many 300) ∷ []) 2
        (OverLimit Inputs 257) }
    ensures outputs_one_by_one { IsRefused (codes ".model m" ∷ (codes ".outputs" ++ many 300) ∷ []) 2
        (OverLimit Outputs 257) }
    ensures gate_inputs_one_by_one { IsRefused (codes ".model m" ∷ (codes ".names" ++ many 300) ∷ []) 2
        (OverLimit GateInputs 257) }
    ensures first_of_two_long_names { IsRefused
        (codes ".model m" ∷ (codes ".names " ++ (long 65 ++ (codes " " ++ long 66))) ∷ []) 2 (OverLimit NameBytes 65) }
    ensures longer_name { IsRefused (codes ".model m" ∷ (codes ".inputs " ++ long 300) ∷ []) 2
        (OverLimit NameBytes 300) }
{}

/// Lines with several faults: which of them is named, and where.
pub fn worked_orders()
    ensures clocks_before_latches { IsRefused
        (codes ".model m" ∷ (replicate 256 (codes ".latch a b re c") ++ codes ".latch a b re e" ∷ [])) 258 Clocks }
    ensures long_before_latches { IsRefused
        (codes ".model m" ∷ (replicate 256 (codes ".latch a b") ++ (codes ".latch a " ++ long 65) ∷ [])) 258
        (OverLimit NameBytes 65) }
    ensures long_before_gate_inputs { IsRefused
        (codes ".model m" ∷ (codes ".names" ++ (many 258 ++ (codes " " ++ long 65))) ∷ []) 2 (OverLimit NameBytes 65) }
    ensures first_named_clock { IsRefused
        (codes ".model m" ∷ codes ".latch a b re c" ∷ codes ".latch a d re c" ∷ codes ".clock c" ∷ codes ".names c"
        ∷ []) 2 Clocks }
    ensures input_before_control { IsRefused
        (codes ".model m" ∷ (codes ".latch " ++ (long 66 ++ (codes " b re " ++ long 65))) ∷ []) 2
        (OverLimit NameBytes 66) }
    ensures long_latch_output { IsRefused (codes ".model m" ∷ (codes ".latch a " ++ long 65) ∷ []) 2
        (OverLimit NameBytes 65) }
    ensures long_output { IsRefused (codes ".model m" ∷ (codes ".outputs " ++ long 65) ∷ []) 2
        (OverLimit NameBytes 65) }
    ensures long_clock { IsRefused (codes ".model m" ∷ (codes ".clock " ++ long 65) ∷ []) 2 (OverLimit NameBytes 65) }
    ensures input_before_output { IsRefused
        (codes ".model m" ∷ (codes ".latch " ++ (long 66 ++ (codes " " ++ long 65))) ∷ []) 2 (OverLimit NameBytes 66) }
    ensures output_before_control { IsRefused
        (codes ".model m" ∷ (codes ".latch a " ++ (long 66 ++ (codes " re " ++ long 65))) ∷ []) 2
        (OverLimit NameBytes 66) }
    ensures long_before_clocks { IsRefused (codes ".model m" ∷ codes ".clock c" ∷ (codes ".clock " ++ long 65) ∷ []) 3
        (OverLimit NameBytes 65) }
    ensures long_before_outputs { IsRefused
        (codes ".model m" ∷ (codes ".outputs" ++ (many 257 ++ (codes " " ++ long 65))) ∷ []) 2
        (OverLimit NameBytes 65) }
{}

/// Texts that reach a limit and do not go over it: their first fault is on the line after.
pub fn worked_reaches()
    ensures model_name { IsRefused ((codes ".model " ++ long 65) ∷ codes ".gate x" ∷ []) 2 Unsupported }
    ensures name { IsRefused (codes ".model m" ∷ (codes ".inputs " ++ long 64) ∷ codes ".gate x" ∷ []) 3 Unsupported }
    ensures inputs_and_outputs { IsRefused
        (codes ".model m" ∷ (codes ".inputs" ++ many 256) ∷ (codes ".outputs" ++ many 256) ∷ codes ".gate x"
        ∷ []) 4 Unsupported }
    ensures latches { IsRefused
        (codes ".model m" ∷ (replicate 256 (codes ".latch a b") ++ codes ".gate x" ∷ [])) 258 Unsupported }
    ensures gate_inputs { IsRefused
        (codes ".model m" ∷ (codes ".names" ++ many 257) ∷ codes ".gate x" ∷ []) 3 Unsupported }
    ensures names_of_each_word { IsRefused
        (codes ".model m" ∷ (codes ".outputs " ++ long 64) ∷ (codes ".clock " ++ long 64) ∷
        (codes ".latch " ++ (long 64 ++ (codes " " ++ (long 64 ++ (codes " re " ++ long 64))))) ∷
        (codes ".names " ++ (long 64 ++ (codes " " ++ long 64))) ∷ codes ".gate x" ∷ []) 6 Unsupported }
    ensures row_of_65_characters { IsRefused
        (codes ".model m" ∷ (codes ".names" ++ many 66) ∷ (replicate 65 49 ++ codes " 1") ∷ codes ".gate x"
        ∷ []) 4 Unsupported }
{}

/// The limit of gates, and that a fault of the names of a gate comes before it.
pub fn worked_gate_limit()
    ensures reached { (earlier : List Statement) → count_by is_names earlier ≡ 65535
        → form_fault earlier (Names (codes "z" ∷ [])) ≡ None }
    ensures gone_over { (earlier : List Statement) → count_by is_names earlier ≡ 65536
        → form_fault earlier (Names (codes "z" ∷ [])) ≡ Some (OverLimit Gates 65537) }
    ensures inputs_before_gates { (earlier : List Statement) → count_by is_names earlier ≡ 65536
        → form_fault earlier (Names (replicate 258 (codes "a"))) ≡ Some (OverLimit GateInputs 257) }
    ensures long_before_gates { (earlier : List Statement) → count_by is_names earlier ≡ 65536
        → form_fault earlier (Names (long 65 ∷ [])) ≡ Some (OverLimit NameBytes 65) }
{}

/// Networks that are not sound, though each statement is right: which cause comes first, which name it names,
/// and where a cycle begins.
pub fn worked_structures()
    ensures undriven { IsRefused (codes ".model m" ∷ codes ".outputs z" ∷ []) 0 (Structure (Undriven (codes "z"))) }
    ensures two_drivers { IsRefused
        (codes ".model m" ∷ codes ".inputs z" ∷ codes ".outputs z" ∷ codes ".names z" ∷ codes "1" ∷ []) 0
        (Structure (TwoDrivers (codes "z"))) }
    ensures two_drivers_before_undriven { IsRefused
        (codes ".model m" ∷ codes ".outputs y" ∷ codes ".names z" ∷ codes ".names z" ∷ []) 0
        (Structure (TwoDrivers (codes "z"))) }
    ensures second_time_first { IsRefused (codes ".model m" ∷ codes ".inputs a b b a" ∷ []) 0
        (Structure (TwoDrivers (codes "b"))) }
    ensures inputs_drive_first { IsRefused
        (codes ".model m" ∷ codes ".latch a p" ∷ codes ".latch a p" ∷ codes ".inputs c c" ∷ []) 0
        (Structure (TwoDrivers (codes "c"))) }
    ensures latches_drive_before_gates { IsRefused
        (codes ".model m" ∷ codes ".names y" ∷ codes ".names y" ∷ codes ".latch a p" ∷ codes ".latch a p" ∷ []) 0
        (Structure (TwoDrivers (codes "p"))) }
    ensures outputs_use_first { IsRefused (codes ".model m" ∷ codes ".latch a p" ∷ codes ".outputs z x" ∷ []) 0
        (Structure (Undriven (codes "z"))) }
    ensures latches_use_before_gates { IsRefused (codes ".model m" ∷ codes ".names b y" ∷ codes ".latch a p" ∷ []) 0
        (Structure (Undriven (codes "a"))) }
    ensures gates_use_in_order { IsRefused
        (codes ".model m" ∷ codes ".inputs a" ∷ codes ".names a c z" ∷ codes ".names b y" ∷ []) 0
        (Structure (Undriven (codes "c"))) }
    ensures undriven_before_cycle { IsRefused (codes ".model m" ∷ codes ".outputs z" ∷ codes ".names y y" ∷ []) 0
        (Structure (Undriven (codes "z"))) }
    ensures cycle { IsRefused cycle_lines 0 (Structure (Cycle (codes "a" ∷ codes "b" ∷ codes "c" ∷ []))) }
    ensures cycle_from_later_gate { ¬ IsRefused cycle_lines 0
        (Structure (Cycle (codes "b" ∷ codes "c" ∷ codes "a" ∷ []))) }
{}

/// Texts that are read whole. An output may be an input, and stand twice. A latch may take an input or its own
/// value, and its clock may be driven by nothing. What comes after the end is not looked at.
pub fn worked_texts()
    ensures output_of_an_input { IsRead (codes ".model m" ∷ codes ".inputs a b" ∷ codes ".outputs b" ∷ [])
        (network (codes "ab") (codes "b") [] []) }
    ensures two_outputs_of_one_name { IsRead (codes ".model m" ∷ codes ".inputs a" ∷ codes ".outputs a a" ∷ [])
        (network (codes "a") (codes "aa") [] []) }
    ensures latch_of_an_input { IsRead
        (codes ".model m" ∷ codes ".inputs a b" ∷ codes ".outputs p" ∷ codes ".latch b p 0" ∷ [])
        (network (codes "ab") (codes "p") (latch (codes "b") (codes "p") Zero ∷ []) []) }
    ensures latch_of_itself { IsRead (codes ".model m" ∷ codes ".outputs p" ∷ codes ".latch p p 1" ∷ [])
        (network [] (codes "p") (latch (codes "p") (codes "p") One ∷ []) []) }
    ensures clock_of_nothing { IsRead (codes ".model m" ∷ codes ".inputs a" ∷ codes ".latch a p re c 2" ∷ [])
        (network (codes "a") [] (latch (codes "a") (codes "p") Free ∷ []) []) }
    ensures equal_rows { IsRead
        (codes ".model m" ∷ codes ".inputs a b" ∷ codes ".outputs z" ∷ codes ".names b a z" ∷ codes "10 1"
        ∷ codes "10 1" ∷ codes ".end" ∷ [])
        (network (codes "ab") (codes "z") [] (gate (codes "ba") (codes "z") (codes "10" ∷ codes "10" ∷ []) true ∷ [])) }
    ensures bad_byte_after_the_end { IsRead (codes ".model m" ∷ codes ".inputs a" ∷ codes ".end" ∷ codes "\u{1}" ∷ [])
        (network (codes "a") [] [] []) }
    ensures end_joined_with_nothing { Blif (codes ".model m\n.inputs a\n.end\\") (network (codes "a") [] [] []) }
{}
