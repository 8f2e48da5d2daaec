//! A worked network and worked lines.

ghost use Rattle.std.specs.Prelude.{◌≡◌, None, Some, codes};
ghost use Rattle.answers.specs.declared.refusals.Refusal.TheVariants.{
  CodeTooLong,
  NoMemory,
  NoSplit,
  NotDefinite,
  NotReached,
  StateCount,
};
ghost use Rattle.comparisons.specs.Counts.{AreCounts, AreReadsAcross, literals_of, rows_of};
ghost use Rattle.comparisons.specs.Lines.{order_line, parts_line, short_line};
ghost use Rattle.comparisons.specs.Worked.{three_counts, three_latches, three_notes};
ghost use Rattle.state_codes.specs.declared.split.Kind.TheVariants.{Serial};

/// What is counted of a network of three latches: its gates of latches list one, two and two latch outputs.
pub fn worked_counts()
    ensures counts { AreCounts three_latches three_counts }
    ensures across { AreReadsAcross three_latches three_notes 1 }
    ensures rows { rows_of three_latches.gates ≡ 8 }
    ensures literals { literals_of three_latches.gates ≡ 14 }
{}

/// Lines of counts, and of refusals with a reason and without.
pub fn worked_lines()
    ensures parts { parts_line Serial 2 three_counts
        ≡ codes "serial parts 2 latches 3 reads 5 across 1 rows 8 literals 14" }
    ensures order { order_line 12 three_counts ≡ codes "shift order 12 latches 3 reads 5 across 1 rows 8 literals 14" }
    ensures lacking { short_line (codes "serial") (NoSplit Serial) ≡ Some (codes "serial none") }
    ensures bits { short_line (codes "cascade") (CodeTooLong 127) ≡ Some (codes "cascade bits 127") }
    ensures states { short_line (codes "least") (StateCount 60) ≡ Some (codes "least states 60") }
    ensures indefinite { short_line (codes "shift") (NotDefinite (codes "a") (codes "b")) ≡ Some (codes "shift none") }
    ensures unreached { short_line (codes "shift") (NotReached (codes "r")) ≡ Some (codes "shift unreached") }
    ensures without { short_line (codes "code") NoMemory ≡ None }
{}
