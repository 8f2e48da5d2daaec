//! Terms of a gate.
ghost use Rattle.std.specs.Prelude.{◌≡◌, bit_and};

/// The values that have the bits of `value` at the columns of `care`. Column c is bit c of both, that of 2^c.
/// A column of `care` is a literal, and any other is a dash, at which `value` has no bit.
#[derive(Clone, Copy, PartialEq, Eq)]
pub struct Term {
    pub care: u128,
    pub value: u128,
    ghost inside: { bit_and value care ≡ value },
}

impl Term {
    ghost use Rattle.std.specs.Prelude.{◌≡◌, ℕ, ◌<◌, ◌≤◌, ◌↔◌, IsTrue, MatchOption, bit_and, if◌then◌else◌};
    ghost use Rattle.std.specs.Int.{bit_at};
    ghost use Rattle.cover_terms.specs.Term.{FitsWidth, Holds, HoldsWithDash, LooksAt};
    ghost use Rattle.cover_terms.specs.Pair.{
      HasLiteral,
      Includes,
      IsColumnHalf,
      IsLooser,
      IsIntersection,
      ShareValue,
      agree,
      refines,
    };

    /// The term with literals at the columns of `care`, by the bits of `value` there.
    pub fn masked(care: u128, value: u128) -> Term
        ensures care { result.care ≡ care }
        ensures value { result.value ≡ bit_and value care }
    {
        Term {
            care,
            value: value & care,
        }
    }

    /// Whether the term has no literal at or above the width.
    pub fn fits(self, width: u8) -> bool
        requires { width ≤ 128 }
        ensures { IsTrue result ↔ FitsWidth width self }
    {
        width == 128 || self.care >> width == 0
    }

    /// Whether some value is held by both terms.
    pub fn touches(self, other: Term) -> bool
        ensures test { result ≡ agree self other }
        ensures shared { IsTrue result ↔ ShareValue self other }
    {
        (self.value ^ other.value) & self.care & other.care == 0
    }

    /// Whether each value of the other term is held by this one.
    pub fn includes(self, other: Term) -> bool
        ensures test { result ≡ refines self other }
        ensures includes { IsTrue result → Includes self other }
    {
        self.care & other.care == self.care && other.value & self.care == self.value
    }

    /// Whether the term has that literal at the column.
    pub fn has_literal(self, column: u32, one: bool) -> bool
        requires { column < 128 }
        ensures { IsTrue result ↔ HasLiteral self column (if one then 1 else 0) }
    {
        let bit = 1u128 << column;
        self.care & bit != 0 && (self.value & bit != 0) == one
    }

    /// The term with a dash at the column.
    pub fn with_dash(self, column: u32) -> Term
        requires { column < 128 }
        ensures holds { (x : ℕ) → Holds result x ↔ HoldsWithDash self column x }
        ensures looser { IsLooser result self }
        ensures dash { LooksAt result column → ⊥ }
        ensures care { result.care ≤ self.care }
    {
        let keep = !(1u128 << column);
        Term {
            care: self.care & keep,
            value: self.value & keep,
        }
    }

    /// The term with a literal at a column at which it has a dash.
    pub fn with_literal(self, column: u32, one: bool) -> Term
        requires column { column < 128 }
        requires dash { bit_at self.care column ≡ 0 }
        ensures half { IsColumnHalf self column (if one then 1 else 0) result }
        ensures care { self.care < result.care }
        ensures fits { (w : ℕ) → column < w → FitsWidth w self → FitsWidth w result }
    {
        let bit = 1u128 << column;
        let value = if one { self.value | bit } else { self.value };
        Term {
            care: self.care | bit,
            value,
        }
    }

    /// The term with the fewest values that holds those of both.
    pub fn joined(self, other: Term) -> Term
        ensures left { Includes result self }
        ensures right { Includes result other }
        ensures care { result.care ≤ self.care }
    {
        let care = self.care & other.care & !(self.value ^ other.value);
        Term::masked(care, self.value)
    }

    /// The term of the values that both hold, or none where there is no such value.
    pub fn meet(self, other: Term) -> Option<Term>
        ensures { MatchOption result (ShareValue self other → ⊥) (IsIntersection self other) }
    {
        if self.touches(other) {
            Some(Term {
                care: self.care | other.care,
                value: self.value | other.value,
            })
        } else {
            None
        }
    }
}
