//! How often a list of terms has a 1, a 0 or a dash at each column. All columns are counted at once.
use cover_terms::Term;

/// The planes of `Counts`. Lists with 2^32 or more terms would be counted wrongly, but safely.
const PLANES: usize = 32;

/// Binary numbers, one for each column: bit c of plane k is bit k of the number of column c.
#[derive(Drop)]
struct Counts {
    planes: [u128; PLANES],
    /// How many planes, from the first on, may have a bit.
    used: usize,
}

impl Counts {
    fn new() -> Counts {
        Counts {
            planes: [0; PLANES],
            used: 0,
        }
    }

    /// Adds one to the number of each column of the set.
    fn add(&mut self, set: u128) {
        let mut carry = set;
        for place in 0..PLANES {
            if carry == 0 {
                return;
            }
            self.used = self.used.max(place + 1);
            let plane = self.planes[place];
            self.planes[place] = plane ^ carry;
            carry &= plane;
        }
    }

    /// The number of the column, which is given as a number with its bit alone.
    fn of(&self, column: u128) -> usize {
        let mut number = 0;
        for place in 0..self.used.min(PLANES) {
            if self.planes[place] & column != 0 {
                number |= 1usize << place;
            }
        }
        number
    }
}

/// How many terms of a list have a 1 at each column, and how many have a literal there. Which column splits a list is
/// advice: no promise rests on these numbers.
#[derive(Drop)]
pub struct ColumnCounts {
    ones: Counts,
    literals: Counts,
    terms: usize,
}

impl ColumnCounts {
    /// The numbers of the list.
    pub(crate) fn new(terms: &[Term]) -> ColumnCounts {
        let mut ones = Counts::new();
        let mut literals = Counts::new();
        for term in terms {
            ones.add(term.value);
            literals.add(term.care);
        }
        ColumnCounts {
            ones,
            literals,
            terms: terms.len(),
        }
    }

    /// How well a column splits the terms: best into halves without dashes; 0 where all stay together.
    pub(crate) fn gain(&self, column: u128) -> usize {
        let ones = self.ones.of(column);
        let zeros = self.literals.of(column).saturating_sub(ones);
        let most = ones.max(zeros);
        if most == self.terms {
            0
        } else {
            ones.min(zeros).saturating_mul(4).saturating_add(most)
        }
    }
}
