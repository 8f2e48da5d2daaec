//! The cases that the benchmarks take.

ghost use Rattle.std.specs.Prelude.{◌≡◌, ◌<◌, ℕ, List, [], ◌∷◌, length, IfNone, IfSome, MatchOption};
ghost use Rattle.bench_cases.specs.Lines.{Says, words_of};

/// What is asked.
#[derive(Clone, Copy)]
pub struct Case<'a> {
    /// What the case is about.
    pub subject: &'a str,
    /// Which one of the subject's kinds it is.
    pub kind: &'a str,
    /// How large it is.
    pub size: usize,
    /// What is done.
    pub work: &'a str,
    /// How often it is done.
    pub times: usize,
}

/// The case that a line says, and none only where the line says none.
pub fn case_of(line: &str) -> Option<Case<'_>>
    ensures some { IfSome result
        (λ case. Says line.now case.subject.now case.kind.now case.size case.work.now case.times) }
    ensures none { IfNone result
        ((subject kind work : List ℕ) (size times : ℕ) → ¬ (Says line.now subject kind size work times)) }
{
    let (subject, kind, size, work, times) = first_words(line)?;
    Some(Case {
        subject,
        kind,
        size: size.parse().ok()?,
        work,
        times: times.parse().ok()?,
    })
}

/// The first five words of a line, if it has as many.
fn first_words(line: &str) -> Option<(&str, &str, &str, &str, &str)>
    ensures { MatchOption result (length (words_of line.now) < 5)
        (λ w. (more : List (List ℕ)) × (words_of line.now ≡ w.0.now ∷ w.1.now ∷ w.2.now ∷ w.3.now ∷ w.4.now ∷ more)) }
{
    let mut words = line.split(' ');
    Some((
        words.next()?,
        words.next()?,
        words.next()?,
        words.next()?,
        words.next()?,
    ))
}
