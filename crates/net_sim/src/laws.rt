//! Worked texts and worked runs, as the contracts of functions that do nothing.

ghost use Rattle.std.specs.Prelude.{◌≡◌, [], ◌∷◌, None, Some, codes, false, true};
ghost use Rattle.net_sim.specs.BitTexts.{text_of_bits};
ghost use Rattle.net_sim.specs.Run.{IsRunCause, answers_text};
ghost use Rattle.net_sim.specs.Symbols.{IsSymbolFile};
ghost use Rattle.net_core.specs.declared.Start.TheVariants.{Free, One, Unknown, Zero};
ghost use Rattle.net_core.specs.Worked.{unlike};
ghost use Rattle.net_sim.specs.declared.causes.SimFail.TheVariants.{BadStart, BadSymbol, UnknownStart};
ghost use Rattle.net_sim.specs.Worked.{RunsOnlyTo, behind_buffer, latched, shifted, started};

/// The texts of bits, of answers, and of a file of two symbols.
pub fn worked_texts()
    ensures bits { text_of_bits (true ∷ false ∷ false ∷ []) ≡ codes "100" }
    ensures no_bits { text_of_bits [] ≡ codes "-" }
    ensures answers { answers_text ((true ∷ false ∷ []) ∷ (false ∷ true ∷ []) ∷ []) ≡ codes "10\n01\n" }
    ensures symbols { IsSymbolFile 2 (codes "10 # a\n\n01") ((true ∷ false ∷ []) ∷ (false ∷ true ∷ []) ∷ []) }
{}

/// The text of a run of small networks, and that there is no other text:
///
/// - an inverter that lists its on-set, and one that lists its off-set;
/// - a latch whose value before the step is answered, and which starts from its own start or from a given one;
/// - two latches with a given start, whose first bit is that of the first latch;
/// - two latches of which the first starts at one, and two whose starts are free and unknown, with a given start;
/// - a network of two unlike inputs and two unlike outputs.
pub fn worked_runs()
    ensures on_set { RunsOnlyTo (behind_buffer (codes "0" ∷ []) true) None (codes "0\n1\n") (codes "1\n0\n") }
    ensures off_set { RunsOnlyTo (behind_buffer (codes "1" ∷ []) false) None (codes "0\n1\n") (codes "1\n0\n") }
    ensures own_start { RunsOnlyTo latched None (codes "1\n1\n1\n") (codes "0\n1\n0\n") }
    ensures given_start { RunsOnlyTo latched (Some (codes "1")) (codes "1\n1\n1\n") (codes "1\n0\n1\n") }
    ensures first_bit_first { RunsOnlyTo shifted (Some (codes "10")) (codes "0\n0\n") (codes "0\n1\n") }
    ensures start_at_one { RunsOnlyTo (started (codes "pq") One Zero) None (codes "0\n1\n") (codes "10\n01\n") }
    ensures given_for_unknown { RunsOnlyTo (started (codes "pq") Unknown Free) (Some (codes "01")) (codes "1\n0\n")
        (codes "01\n10\n") }
    ensures unlike { RunsOnlyTo unlike None (codes "10\n11\n00\n") (codes "10\n01\n00\n") }
{}

/// Runs that are refused: for a given start that is too short or has another character, for the first start that is
/// not known, and for the first line that is no symbol.
pub fn worked_refusals()
    ensures short_start { IsRunCause shifted (Some (codes "1")) (codes "0\n") BadStart }
    ensures no_bit_in_start { IsRunCause shifted (Some (codes "1x")) (codes "0\n") BadStart }
    ensures unknown_start { IsRunCause (started (codes "q") Unknown Free) None (codes "0\n")
        (UnknownStart (codes "p")) }
    ensures free_start { IsRunCause (started (codes "q") One Free) None (codes "0\n") (UnknownStart (codes "q")) }
    ensures no_symbol { IsRunCause shifted None (codes "1\n2\n0 1\n") (BadSymbol 2) }
    ensures two_fields { IsRunCause shifted None (codes "# a\n1\n\n0 1\n2\n") (BadSymbol 4) }
    ensures two_bits { IsRunCause shifted None (codes "00\n2\n") (BadSymbol 1) }
{}
