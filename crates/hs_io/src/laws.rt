//! Laws of lines, each the contract of a function that does nothing.

ghost use Rattle.std.specs.Prelude.{[], ◌∷◌, ◌++◌, codes};
ghost use Rattle.hs_io.specs.Worked.{HasLines, IsBad, IsClean, bad, between, clean};

/// Where a text is cut, and how its lines are numbered.
pub fn worked_lines()
    ensures nothing { HasLines [] [] }
    ensures one_feed { HasLines (codes "\n") (clean 1 [] ∷ []) }
    ensures two_feeds { HasLines (codes "\n\n") (clean 1 [] ∷ clean 2 [] ∷ []) }
    ensures ended { HasLines (codes "a\n") (clean 1 (codes "a" ∷ []) ∷ []) }
    ensures not_ended { HasLines (codes "a") (clean 1 (codes "a" ∷ []) ∷ []) }
    ensures last_not_ended { HasLines (codes "a\nb") (clean 1 (codes "a" ∷ []) ∷ clean 2 (codes "b" ∷ []) ∷ []) }
    ensures blank_not_ended { HasLines (codes "a\n ") (clean 1 (codes "a" ∷ []) ∷ clean 2 [] ∷ []) }
    ensures return_not_ended { HasLines (codes "a\n\r") (clean 1 (codes "a" ∷ []) ∷ clean 2 [] ∷ []) }
    ensures each_is_numbered { HasLines (codes "\n# a\n \t\n\r\nb")
        (clean 1 [] ∷ clean 2 [] ∷ clean 3 [] ∷ clean 4 [] ∷ clean 5 (codes "b" ∷ []) ∷ []) }
    ensures bad_is_numbered { HasLines (codes "\u{1}\na") (bad 1 (codes "\u{1}" ∷ []) ∷ clean 2 (codes "a" ∷ []) ∷ []) }
{}

/// A carriage return is dropped only at the end of a line, only once, and before the comment is.
pub fn worked_returns()
    ensures at_the_end { IsClean (codes "a\r\n") (codes "a" ∷ []) }
    ensures at_the_end_of_the_text { IsClean (codes "a\r") (codes "a" ∷ []) }
    ensures twice { IsBad (codes "a\r\r\n") (codes "a\r" ∷ []) }
    ensures first { IsBad (codes "\ra\n") (codes "\ra" ∷ []) }
    ensures within { IsBad (codes "a\rb\n") (codes "a\rb" ∷ []) }
    ensures before_a_blank { IsBad (codes "a\r \n") (codes "a\r" ∷ []) }
    ensures before_a_comment { IsBad (codes "a\r# b\n") (codes "a\r" ∷ []) }
    ensures before_a_comment_and_after { IsBad (codes "a\r#\r\n") (codes "a\r" ∷ []) }
    ensures after_a_comment { IsClean (codes "a# b\r\n") (codes "a" ∷ []) }
{}

/// A comment goes from the first mark to the end of its line, and has any bytes.
pub fn worked_comments()
    ensures first_mark { IsClean (codes "a # b # c\n") (codes "a" ∷ []) }
    ensures within_a_field { IsClean (codes "a#b c\n") (codes "a" ∷ []) }
    ensures whole_line { IsClean (codes "#a b\n") [] }
    ensures ends_with_its_line { HasLines (codes "a #\nb") (clean 1 (codes "a" ∷ []) ∷ clean 2 (codes "b" ∷ []) ∷ []) }
    ensures any_byte { IsClean (codes "a #" ++ 0 ∷ 13 ∷ 31 ∷ 127 ∷ 255 ∷ 98 ∷ []) (codes "a" ∷ []) }
    ensures bad_before_it { IsBad (codes "\u{1}# a\n") (codes "\u{1}" ∷ []) }
    ensures after_a_backslash { IsClean (codes "a\\#b\n") (codes "a\\" ∷ []) }
    ensures in_quotes { IsClean (codes "\"a # b\"\n") (codes "\"a" ∷ []) }
    ensures no_other_mark { IsClean (codes "a ; b // c\n")
        (codes "a" ∷ codes ";" ∷ codes "b" ∷ codes "//" ∷ codes "c" ∷ []) }
{}

/// The bytes that make a line bad.
pub fn worked_bytes()
    ensures lowest { IsClean (between 33) (between 33 ∷ []) }
    ensures highest { IsClean (between 126) (between 126 ∷ []) }
    ensures zero { IsBad (between 0) (between 0 ∷ []) }
    ensures below_the_tab { IsBad (between 8) (between 8 ∷ []) }
    ensures above_the_line_feed { IsBad (between 11) (between 11 ∷ []) }
    ensures form_feed { IsBad (between 12) (between 12 ∷ []) }
    ensures below_the_space { IsBad (between 31) (between 31 ∷ []) }
    ensures above_the_highest { IsBad (between 127) (between 127 ∷ []) }
    ensures above_ascii { IsBad (between 128) (between 128 ∷ []) }
    ensures no_break_space { IsBad (between 160) (between 160 ∷ []) }
    ensures greatest { IsBad (between 255) (between 255 ∷ []) }
    ensures other_fields_stay { IsBad (codes "a \u{1} b\n") (codes "a" ∷ codes "\u{1}" ∷ codes "b" ∷ []) }
{}

/// The fields of a line.
pub fn worked_fields()
    ensures one_space { IsClean (codes "b a b\n") (codes "b" ∷ codes "a" ∷ codes "b" ∷ []) }
    ensures one_tab { IsClean (codes "a\tb\n") (codes "a" ∷ codes "b" ∷ []) }
    ensures several_blanks { IsClean (codes "a  b\t\tc \t d\n") (codes "a" ∷ codes "b" ∷ codes "c" ∷ codes "d" ∷ []) }
    ensures blanks_at_the_ends { IsClean (codes " \ta\t \n") (codes "a" ∷ []) }
    ensures blanks_alone { IsClean (codes " \t \n") [] }
    ensures longest { IsClean (codes "ab,c=\"d;e\"\n") (codes "ab,c=\"d;e\"" ∷ []) }
{}
