//! Words of 64 bits that mark items of a list: bit k is 1 where item k is marked.
ghost use Rattle.std.specs.Prelude.{◌≡◌, IfNone, IfSome};
ghost use Rattle.pattern_bundles.specs.Pattern.{IsFirstMark, IsWithoutMark};

/// Takes the lowest mark out of the word, and gives its place.
pub fn take_first(marks: &mut u64) -> Option<usize>
    ensures first { IfSome result (IsFirstMark marks.old) }
    ensures taken { IfSome result (λ k. IsWithoutMark marks.old k marks.new) }
    ensures none { IfNone result (marks.old ≡ 0) }
    ensures none_after { IfNone result (marks.new ≡ 0) }
{
    let word = *marks;
    if word == 0 {
        return None;
    }
    let place = word.trailing_zeros();
    *marks = word & !(1u64 << place);
    Some(place as usize)
}
