//! How many cases agree.

ghost use Rattle.std.specs.Prelude.{◌≡◌, ◌≤◌, ◌↔◌, IsTrue};
ghost use Rattle.std.specs.Bool.{OnFalse};

/// The number of cases of a file, and how many of them agree.
#[derive(Clone, Copy)]
pub struct Tally {
    pub cases: u32,
    pub agreeing: u32,
    pub ghost within: { agreeing ≤ cases },
}

impl Tally {
    /// No case.
    pub(crate) fn new() -> Tally {
        Tally {
            cases: 0,
            agreeing: 0,
        }
    }

    /// Counts a case that agrees or differs.
    pub(crate) fn count(&mut self, agrees: bool)
        ensures { OnFalse agrees (self.new.agreeing ≡ self.old.agreeing) }
    {
        self.cases = self.cases.saturating_add(1);
        if agrees {
            self.agreeing = self.agreeing.saturating_add(1);
        }
    }

    /// Whether all cases agree.
    pub fn is_full(&self) -> bool
        ensures { IsTrue result ↔ (self.now.agreeing ≡ self.now.cases) }
    {
        self.agreeing == self.cases
    }
}
