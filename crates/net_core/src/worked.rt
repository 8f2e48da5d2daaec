//! Small texts with what they denote, texts that denote nothing, and small networks with their steps, as the
//! contracts of functions that do nothing.

ghost use Rattle.std.specs.Prelude.{◌≡◌, true, false, [], ◌∷◌, ◌++◌, map, codes};
ghost use Rattle.net_core.specs.declared.Start.TheVariants.{Zero};
ghost use Rattle.net_core.specs.Denotation.{Denotes};
ghost use Rattle.net_core.specs.Statements.{statements_of};
ghost use Rattle.net_core.specs.Step.{NetAnswers, Step, gate_value};
ghost use Rattle.net_core.specs.Worked.{
  DenotesNothing,
  HasNoStep,
  empty_network,
  gate,
  network,
  toggle,
  unlike,
  reads_later,
  own_contrary,
  own_value,
  joined_text,
  joined_network,
  starts_text,
  starts_network,
  controls_text,
  controls_network,
  gates_text,
  gates_network,
  latch,
  long_name,
  one_input,
};

/// Lines that are joined, skipped, bad, or after the end of the text.
pub fn worked_lines()
    ensures joined { Denotes joined_text joined_network }
    ensures numbers { map (λ s. s.number) (statements_of joined_text) ≡ 3 ∷ 4 ∷ 7 ∷ 9 ∷ 10 ∷ 11 ∷ [] }
    ensures ended { Denotes (codes ".model\n.end x\n.model m") empty_network }
    ensures two_backslashes { DenotesNothing (codes ".model m\n.inputs a\\\\\n") }
    ensures backslash_within { DenotesNothing (codes ".model m\n.inputs a\\b\n") }
    ensures bad_byte { DenotesNothing (codes ".model m\n.inputs \u{1}\n") }
    ensures bad_end { DenotesNothing (codes ".model m\n.end \u{1}\n") }
    ensures bad_part_after_end { DenotesNothing (codes ".model m\n.end \\\n\u{1}\n") }
    ensures bad_first_part { DenotesNothing (codes ".model m\n.inputs \u{1}\\\na\n") }
    ensures backslash_in_first_part { DenotesNothing (codes ".model m\n.inputs a\\b\\\nc\n") }
    ensures ended_by_joined_line { Denotes (codes ".model m\n\\\n.end\n.model n\n") empty_network }
    ensures joined_line_skipped { Denotes (codes "\\\n\n.model m\n") empty_network }
{}

/// The first statement, words that are not supported, and a name that is longer than the limit.
pub fn worked_models()
    ensures alone { Denotes (codes ".model m") empty_network }
    ensures added_up { Denotes (codes ".model m\n.inputs a\n.outputs b\n.inputs c\n.outputs a c\n")
        (network (codes "ac") (codes "bac") [] []) }
    ensures empty { DenotesNothing [] }
    ensures ended_first { DenotesNothing (codes ".end\n.model m\n") }
    ensures inputs_first { DenotesNothing (codes ".inputs a\n.model m\n") }
    ensures second_model { DenotesNothing (codes ".model m\n.model m\n") }
    ensures two_names { DenotesNothing (codes ".model m n\n") }
    ensures other_word { DenotesNothing (codes ".model m\n.subckt n a=b\n") }
    ensures longer_word { DenotesNothing (codes ".model m\n.ends\n") }
    ensures no_names { Denotes (codes ".model\n.inputs\n.outputs\n") empty_network }
    ensures long { Denotes (codes ".model m\n.inputs " ++ long_name) (one_input long_name) }
{}

/// Latches, and clocks.
pub fn worked_latches()
    ensures starts { Denotes starts_text starts_network }
    ensures controls { Denotes controls_text controls_network }
    ensures clock_named_nil { DenotesNothing (codes ".model m\n.clock NIL\n.latch a p re c 0\n") }
    ensures falling_edge { DenotesNothing (codes ".model m\n.latch a p fe c 0\n") }
    ensures falling_edge_alone { DenotesNothing (codes ".model m\n.latch a p fe c\n") }
    ensures other_start { DenotesNothing (codes ".model m\n.latch a p 4\n") }
    ensures no_control { DenotesNothing (codes ".model m\n.latch a p re\n") }
    ensures no_output { DenotesNothing (codes ".model m\n.latch a\n") }
    ensures too_many { DenotesNothing (codes ".model m\n.latch a p re c 0 0\n") }
    ensures two_controls { DenotesNothing (codes ".model m\n.latch a p re c 0\n.latch a q re d 0\n") }
    ensures other_clock { DenotesNothing (codes ".model m\n.latch a p re c 0\n.clock d\n") }
    ensures second_clock { DenotesNothing (codes ".model m\n.clock c\n.clock c\n") }
    ensures two_clocks { DenotesNothing (codes ".model m\n.clock c d\n") }
    ensures no_clock_name { DenotesNothing (codes ".model m\n.clock\n") }
    ensures small_nil { DenotesNothing (codes ".model m\n.latch a p re nil 0\n.latch a q re c 0\n") }
    ensures capital_type { DenotesNothing (codes ".model m\n.latch a p RE c 0\n") }
    ensures clock_of_gate { DenotesNothing (codes ".model m\n.clock c\n.names c\n1\n") }
    ensures clock_of_latch { DenotesNothing (codes ".model m\n.latch a p re p 0\n") }
{}

/// Gates and their rows.
pub fn worked_gates()
    ensures gates { Denotes gates_text gates_network }
    ensures mixed { DenotesNothing (codes ".model m\n.names a z\n1 1\n0 0\n") }
    ensures too_wide { DenotesNothing (codes ".model m\n.names a z\n11 1\n") }
    ensures other_character { DenotesNothing (codes ".model m\n.names a z\n2 1\n") }
    ensures other_bit { DenotesNothing (codes ".model m\n.names a z\n1 -\n") }
    ensures no_bit { DenotesNothing (codes ".model m\n.names a z\n1\n") }
    ensures plane_of_none { DenotesNothing (codes ".model m\n.names z\n1 1\n") }
    ensures three_fields { DenotesNothing (codes ".model m\n.names a z\n1 1 1\n") }
    ensures row_alone { DenotesNothing (codes ".model m\n1 1\n") }
    ensures row_after_outputs { DenotesNothing (codes ".model m\n.names a z\n1 1\n.outputs z\n0 1\n") }
    ensures no_names { DenotesNothing (codes ".model m\n.names\n") }
    ensures mixed_constant { DenotesNothing (codes ".model m\n.names z\n1\n1\n0\n") }
    ensures dash_of_none { DenotesNothing (codes ".model m\n.names z\n- 1\n") }
{}

/// Places where another reading comes to mind. A clock need not be an input. The only type of latch is the
/// rising edge. A start is one digit. A blank line or a comment may come between the rows of a gate, and any
/// other statement ends them.
pub fn worked_readings()
    ensures clock_beside_inputs { Denotes (codes ".model m\n.inputs a\n.latch a p re c 0\n")
        (network (codes "a") [] (latch (codes "a") (codes "p") Zero ∷ []) []) }
    ensures clock_word_beside_inputs { Denotes (codes ".model m\n.inputs a\n.clock c\n")
        (network (codes "a") [] [] []) }
    ensures active_high { DenotesNothing (codes ".model m\n.latch a p ah c 0\n") }
    ensures active_low { DenotesNothing (codes ".model m\n.latch a p al c 0\n") }
    ensures asynchronous { DenotesNothing (codes ".model m\n.latch a p as c 0\n") }
    ensures two_digits { DenotesNothing (codes ".model m\n.latch a p 00\n") }
    ensures skipped_lines { Denotes (codes ".model m\n.inputs a\n.names a z\n\n# rows\n1 1\n")
        (network (codes "a") [] [] (gate (codes "a") (codes "z") (codes "1" ∷ []) true ∷ [])) }
    ensures row_after_latch { DenotesNothing (codes ".model m\n.names a z\n.latch a p\n1 1\n") }
    ensures row_after_clock { DenotesNothing (codes ".model m\n.names a z\n.clock c\n1 1\n") }
{}

/// The values of gates, whose rows list the on-set or the off-set, and of gates without rows.
pub fn worked_values()
    ensures held { gate_value (gate (codes "ab") (codes "z") (codes "1-" ∷ codes "01" ∷ []) true) (false ∷ true ∷ [])
        ≡ true }
    ensures not_held { gate_value (gate (codes "ab") (codes "z") (codes "1-" ∷ codes "01" ∷ []) true)
        (false ∷ false ∷ []) ≡ false }
    ensures dash_held { gate_value (gate (codes "ab") (codes "z") (codes "1-" ∷ codes "01" ∷ []) true)
        (true ∷ false ∷ []) ≡ true }
    ensures off_held { gate_value (gate (codes "ab") (codes "z") (codes "1-" ∷ codes "01" ∷ []) false)
        (true ∷ true ∷ []) ≡ false }
    ensures off_not_held { gate_value (gate (codes "ab") (codes "z") (codes "1-" ∷ codes "01" ∷ []) false)
        (false ∷ false ∷ []) ≡ true }
    ensures no_rows { gate_value (gate (codes "a") (codes "z") [] true) (true ∷ []) ≡ false }
    ensures constant { gate_value (gate [] (codes "z") ([] ∷ []) true) [] ≡ true }
    ensures off_constant { gate_value (gate [] (codes "z") ([] ∷ []) false) [] ≡ false }
    ensures first_input_first { gate_value (gate (codes "ab") (codes "z") (codes "10" ∷ []) true) (true ∷ false ∷ [])
        ≡ true }
    ensures second_input_second { gate_value (gate (codes "ab") (codes "z") (codes "10" ∷ []) true) (false ∷ true ∷ [])
        ≡ false }
    ensures two_rows_hold { gate_value (gate (codes "ab") (codes "z") (codes "1-" ∷ codes "11" ∷ codes "00" ∷ []) true)
        (true ∷ true ∷ []) ≡ true }
    ensures off_two_rows_hold { gate_value
        (gate (codes "ab") (codes "z") (codes "1-" ∷ codes "11" ∷ codes "00" ∷ []) false) (true ∷ true ∷ []) ≡ false }
{}

/// Steps of networks, and networks without a step: no valuation fits, or two valuations differ.
pub fn worked_steps()
    ensures stays { Step toggle (true ∷ []) (false ∷ []) (true ∷ []) (true ∷ []) }
    ensures changes { Step toggle (true ∷ []) (true ∷ []) (false ∷ []) (false ∷ []) }
    ensures reads_later { Step reads_later [] (false ∷ []) (true ∷ []) [] }
    ensures own_contrary { HasNoStep own_contrary [] (false ∷ []) }
    ensures own_value { HasNoStep own_value [] (false ∷ []) }
    ensures first_alone { Step unlike [] (true ∷ false ∷ []) (true ∷ false ∷ []) [] }
    ensures second_alone { Step unlike [] (false ∷ true ∷ []) (false ∷ true ∷ []) [] }
{}

/// The answers of a network of two unlike inputs and two unlike outputs to three symbols.
pub fn worked_answers()
    ensures { NetAnswers unlike [] ((true ∷ false ∷ []) ∷ (true ∷ true ∷ []) ∷ (false ∷ false ∷ []) ∷ [])
        ((true ∷ false ∷ []) ∷ (false ∷ true ∷ []) ∷ (false ∷ false ∷ []) ∷ []) }
{}
