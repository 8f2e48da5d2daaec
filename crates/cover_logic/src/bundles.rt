//! The terms of a list in bundles of 128, by their columns. One step asks all terms of a bundle whether they share a
//! value with a row, or whether the row holds them whole.
ghost use Rattle.std.specs.Prelude.{◌<◌, ◌≤◌, IfOk, if◌then◌else◌, length};
ghost use Rattle.cover_terms.specs.Term.{FitsWidth};
ghost use Rattle.cover_logic.specs.Inner.Entries.{HasLiterals};
ghost use Rattle.cover_logic.specs.Inner.Planes.{AreLiteralsOf, AreTold, AreTold-prop, IsLiteralAt};

use cover_terms::Term;
use std::alloc::{AllocError, Global};

/// A term of a list, and its number there.
#[derive(Clone, Copy)]
pub struct Entry {
    pub term: Term,
    pub number: usize,
}

/// A literal of a row: its column, and whether it is a 1.
#[derive(Clone, Copy)]
pub struct Literal {
    column: usize,
    one: bool,
}

/// Which terms of a bundle have a literal 0 at a column, and which have a literal 1: bit k is for the term at
/// place k.
#[derive(Clone, Copy)]
struct Plane {
    zeros: u128,
    ones: u128,
}

/// At most 128 terms of a list, with a plane for each column.
#[derive(Drop)]
pub struct Bundle {
    pub entries: Vec<Entry>,
    planes: Vec<Plane>,
    ghost told: { AreTold entries.items planes.items } by { AreTold-prop entries.items planes.items },
}

impl Bundle {
    ghost use Rattle.std.specs.Prelude.{◌≡◌, ◌≤◌, All, IfOk, OnOk, if◌then◌else◌, length};
    ghost use Rattle.cover_terms.specs.declared.term.Term.{Term};
    ghost use Rattle.cover_logic.specs.Inner.Entries.{EntryFits, HasLiterals, IsAgainst, IsPutIn, IsWithin};
    ghost use Rattle.cover_logic.specs.Inner.Planes.{AreLiteralsOf};

    /// The bundle of the entries.
    fn new(alloc: Global, entries: &[Entry], width: u8) -> Result<Bundle, AllocError>
        requires width { width ≤ 128 }
        requires few { length entries.now ≤ 128 }
        requires fits { All (EntryFits width) entries.now }
        ensures { IfOk result (λ bundle. bundle.entries.items ≡ entries.now) }
    {
        let mut planes = Vec::with_capacity(alloc, usize::from(width))?;
        for column in 0..u32::from(width) {
            planes.push(Plane {
                zeros: literals(entries, column, false),
                ones: literals(entries, column, true),
            })?;
        }
        Ok(Bundle {
            entries: Vec::from_slice(alloc, entries)?,
            planes,
        })
    }

    /// The number of terms.
    pub fn len(&self) -> usize
        ensures terms { result ≡ length self.now.entries.items }
        ensures few { result ≤ 128 }
    {
        self.entries.len()
    }

    /// The places of the terms that have that literal at the column.
    fn having(&self, column: usize, one: bool) -> u128
        ensures { HasLiterals column (if one then 1 else 0) self.now.entries.items result }
    {
        if column >= self.planes.len() {
            return 0;
        }
        let plane = self.planes[column];
        if one {
            return plane.ones;
        }
        plane.zeros
    }

    /// The places of the terms that have the other literal at some column. The search ends early where all have one.
    fn against(&self, literals: &[Literal]) -> u128
        ensures { (row : Term) → AreLiteralsOf row literals.now → IsAgainst row self.now.entries.items result }
    {
        let mut against = 0;
        for literal in literals {
            if against == u128::MAX {
                return against;
            }
            against |= self.having(literal.column, !literal.one);
        }
        against
    }

    /// Those of the places whose terms have each of the literals. The search ends early where no place is left.
    pub fn within(&self, places: u128, literals: &[Literal]) -> u128
        ensures { (row : Term) → AreLiteralsOf row literals.now → IsWithin row self.now.entries.items places result }
    {
        let mut within = places;
        for literal in literals {
            if within == 0 {
                return within;
            }
            within &= self.having(literal.column, literal.one);
        }
        within
    }

    /// Adds the entries whose terms share a value with the row.
    fn put_met(
        &self,
        row: Term,
        literals: &[Literal],
        met: &mut Vec<Entry>,
    ) -> Result<(), AllocError>
        requires { AreLiteralsOf row literals.now }
        ensures { OnOk result (IsPutIn row self.now.entries.items met.old.items met.new.items) }
    {
        let mut open = !self.against(literals);
        while open != 0 {
            let place = open.trailing_zeros();
            open &= !(1u128 << place);
            let place = place as usize;
            if place >= self.entries.len() {
                continue;
            }
            let entry = self.entries[place];
            if row.touches(entry.term) {
                met.push(entry)?;
            }
        }
        Ok(())
    }
}

/// A list of terms in bundles, which tells the terms that share a value with a row.
#[derive(Drop)]
pub struct Bundles {
    pub bundles: Vec<Bundle>,
    width: u8,
    ghost columns: { width ≤ 128 },
}

impl Bundles {
    ghost use Rattle.std.specs.Prelude.{◌≡◌, ◌≤◌, All, IfOk};
    ghost use Rattle.cover_terms.specs.Term.{FitsWidth};
    ghost use Rattle.cover_logic.specs.Inner.Bundles.{entries_of, terms_in_bundles};
    ghost use Rattle.cover_logic.specs.Inner.Entries.{EntryFits, IsMet, IsNumbered};
    ghost use Rattle.cover_terms.specs.Lists.{HasSameTerms};

    /// The bundles of the terms, in the order of the list.
    pub fn new(alloc: Global, terms: &[Term], width: u8) -> Result<Bundles, AllocError>
        requires width { width ≤ 128 }
        requires fits { All (FitsWidth width) terms.now }
        ensures width { IfOk result (λ all. all.width ≡ width) }
        ensures terms { IfOk result (λ all. HasSameTerms terms.now (terms_in_bundles all)) }
        ensures numbers { IfOk result (λ all. IsNumbered terms.now (entries_of all)) }
    {
        let mut entries = Vec::new(alloc);
        for (number, term) in terms.iter().enumerate() {
            entries.push(Entry {
                term: *term,
                number,
            })?;
        }
        Bundles::of(alloc, &entries, width)
    }

    /// The bundles of the entries, in the order of the list.
    fn of(alloc: Global, entries: &[Entry], width: u8) -> Result<Bundles, AllocError>
        requires width { width ≤ 128 }
        requires fits { All (EntryFits width) entries.now }
        ensures width { IfOk result (λ all. all.width ≡ width) }
        ensures entries { IfOk result (λ all. entries_of all ≡ entries.now) }
    {
        let mut bundles = Vec::new(alloc);
        let mut start = 0;
        while start < entries.len() {
            let end = start + (entries.len() - start).min(128);
            bundles.push(Bundle::new(alloc, &entries[start..end], width)?)?;
            start = end;
        }
        Ok(Bundles { bundles, width })
    }

    /// The terms that share a value with the row.
    pub fn met_by(&self, alloc: Global, row: Term) -> Result<Vec<Entry>, AllocError>
        requires { FitsWidth self.now.width row }
        ensures { IfOk result (λ met. IsMet row (entries_of self.now) met.items) }
    {
        let literals = literals_of(alloc, row, self.width)?;
        let mut met = Vec::new(alloc);
        for bundle in &self.bundles {
            bundle.put_met(row, &literals, &mut met)?;
        }
        Ok(met)
    }
}

/// The literal of the row at the column, if it has one there.
fn literal_at(row: Term, column: usize) -> Option<Literal>
    requires { column < 128 }
    ensures { IsLiteralAt row column result }
{
    if row.has_literal(column as u32, true) {
        return Some(Literal { column, one: true });
    }
    if row.has_literal(column as u32, false) {
        return Some(Literal { column, one: false });
    }
    None
}

/// The literals of the row, from the last column to the first.
pub fn literals_of(alloc: Global, row: Term, width: u8) -> Result<Vec<Literal>, AllocError>
    requires width { width ≤ 128 }
    requires fits { FitsWidth width row }
    ensures { IfOk result (λ literals. AreLiteralsOf row literals.items) }
{
    let mut literals = Vec::new(alloc);
    let mut column = usize::from(width);
    while column > 0 {
        column -= 1;
        if let Some(literal) = literal_at(row, column) {
            literals.push(literal)?;
        }
    }
    Ok(literals)
}

/// The places of the entries with that literal at the column.
fn literals(entries: &[Entry], column: u32, one: bool) -> u128
    requires column { column < 128 }
    requires few { length entries.now ≤ 128 }
    ensures { HasLiterals column (if one then 1 else 0) entries.now result }
{
    let mut places = 0;
    for (place, entry) in entries.iter().enumerate() {
        if entry.term.has_literal(column, one) {
            places |= 1u128 << place;
        }
    }
    places
}
