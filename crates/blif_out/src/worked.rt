//! Worked texts.

ghost use Rattle.std.specs.Prelude.{◌≡◌, [], ◌∷◌, codes, map};
ghost use Rattle.blif_out.specs.Comments.{AreComments};
ghost use Rattle.blif_out.specs.Head.{comment_text, kind_word, net_text_of, note_fields, part_fields};
ghost use Rattle.blif_out.specs.Design.{IsClockOf, plain_design, signals_of};
ghost use Rattle.blif_out.specs.NetText.{gate_fields, net_text};
ghost use Rattle.blif_out.specs.Worked.{
  carried_part,
  clocked_design,
  clocked_lines,
  gate,
  named_design,
  named_lines,
  reduced_header,
  reduced_lines,
  reduced_network,
  serial_header,
  serial_lines,
  serial_network,
  started_network,
  text,
  unlike_note,
};
ghost use Rattle.state_codes.specs.declared.split.Kind.TheVariants.{Assign, Cascade, Feedback, Least, Parallel};
ghost use Rattle.hs_io.specs.Spelling.{spelled};

/// Texts of networks after their headers: one of a serial decomposition, and one of a machine of classes, whose latch
/// reads no state bit.
pub fn worked_texts()
    ensures serial { net_text_of plain_design serial_header serial_network ≡ text serial_lines }
    ensures reduced { net_text_of plain_design reduced_header reduced_network ≡ text reduced_lines }
{}

/// Texts in other designs, of a network with a latch that starts at 1 and one that starts at 0: one with a model and a
/// clock, and one with another model and no clock.
pub fn worked_designs()
    ensures clocked { net_text clocked_design started_network ≡ text clocked_lines }
    ensures named { net_text named_design started_network ≡ text named_lines }
{}

/// What can be a clock and what is a signal: a name that nothing has can be a clock, and so can an input, which is a
/// signal too. What a latch or a gate drives is no clock, and neither is `NIL`, which is no signal.
pub fn worked_clocks()
    ensures other { IsClockOf started_network (codes "clk") }
    ensures input { IsClockOf started_network (codes "hold") }
    ensures latch { IsClockOf started_network (codes "q1") → ⊥ }
    ensures gate { IsClockOf started_network (codes "last") → ⊥ }
    ensures none { IsClockOf started_network (codes "NIL") → ⊥ }
    ensures signals { signals_of started_network ≡ codes "up" ∷ codes "hold" ∷ codes "last" ∷ codes "d0" ∷ codes "d1"
        ∷ codes "q0" ∷ codes "q1" ∷ codes "d0" ∷ codes "d1" ∷ codes "last" ∷ [] }
{}

/// Lines by themselves: a part whose carrier is another partition, a latch of another part, the words of kinds, a gate
/// that is always 1, and one that is always 0.
pub fn worked_lines()
    ensures part { comment_text (part_fields (1, carried_part))
        ≡ codes "# part 1 0,1,2,3,0 carrier 0,0,0,1,0 reads 0,12" }
    ensures note { comment_text (note_fields (2, unlike_note)) ≡ codes "# latch 2 part 1 from 0,1,0 to 0,0,1" }
    ensures kinds { map kind_word (Assign ∷ Parallel ∷ Cascade ∷ Feedback ∷ Least ∷ []) ≡ codes "assign"
        ∷ codes "parallel" ∷ codes "cascade" ∷ codes "feedback" ∷ codes "least" ∷ [] }
    ensures one { spelled (gate_fields (gate [] (codes "z0") ([] ∷ []))) ≡ text (codes ".names z0" ∷ codes "1" ∷ []) }
    ensures zero { spelled (gate_fields (gate [] (codes "z1") [])) ≡ text (codes ".names z1" ∷ []) }
{}

/// What are comments and what is not: no lines are, lines that begin with the mark are, another line is not.
pub fn worked_comments()
    ensures none { AreComments [] }
    ensures two { AreComments (text (codes "# ab" ∷ codes "#" ∷ [])) }
    ensures other { AreComments (text (codes "states 4" ∷ [])) → ⊥ }
{}
