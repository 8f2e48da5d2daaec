//! How far a row can be widened in a gate of many terms, by the columns of the terms: one step asks 128 terms at once.

ghost use Rattle.std.specs.Prelude.{◌≤◌};

use crate::limits::Limits;
use crate::literals::{apart, without};
use cover_terms::Term;
use std::alloc::{AllocError, Global};

/// A column, as the number with its bit alone, and which terms have a literal 0 and a literal 1 there: term 128 * i +
/// k of the list is bit k of word i.
#[derive(Drop)]
struct Column {
    bit: u128,
    zeros: Vec<u128>,
    ones: Vec<u128>,
}

impl Column {
    fn is_literal_of(&self, row: Term) -> bool {
        row.care & self.bit != 0
    }

    /// The terms with the literal of the row.
    fn with(&self, row: Term) -> &[u128] {
        if row.value & self.bit == 0 {
            &self.zeros
        } else {
            &self.ones
        }
    }

    /// The terms with the other literal.
    fn against(&self, row: Term) -> &[u128] {
        if row.value & self.bit == 0 {
            &self.ones
        } else {
            &self.zeros
        }
    }

    /// The number of the first of these terms of the word of that number that has the other literal.
    fn first_against(&self, row: Term, number: usize, terms: u128) -> Option<usize> {
        if !self.is_literal_of(row) {
            return None;
        }
        let found = word_at(self.against(row), number) & terms;
        if found == 0 {
            return None;
        }
        Some(place(number, found))
    }
}

/// For each of 128 terms, the number of columns at which it has the opposite literal to a row's: as three bits, up to
/// 7, or else `more`.
#[derive(Clone, Copy)]
struct Count {
    ones: u128,
    twos: u128,
    fours: u128,
    more: u128,
}

impl Count {
    /// The counts with one more for each term of the set.
    fn plus(self, set: u128) -> Count {
        let twos = self.ones & set;
        let fours = self.twos & twos;
        Count {
            ones: self.ones ^ set,
            twos: self.twos ^ twos,
            fours: self.fours ^ fours,
            more: self.more | self.fours & fours,
        }
    }

    /// The terms with this count, which is from 1 to 7.
    fn at(self, number: u32) -> u128 {
        let ones = if number & 1 == 0 {
            !self.ones
        } else {
            self.ones
        };
        let twos = if number & 2 == 0 {
            !self.twos
        } else {
            self.twos
        };
        let fours = if number & 4 == 0 {
            !self.fours
        } else {
            self.fours
        };
        ones & twos & fours & !self.more
    }
}

/// How far a row can be widened: to which term, and for each column the number of a term that the row would touch
/// with a dash there.
#[derive(Drop)]
pub struct Advice {
    pub wide: Term,
    pub reasons: Vec<Option<usize>>,
}

/// The terms with the other literal than a row at a column, and those that have it at a later column.
#[derive(Drop)]
struct Step {
    against: Vec<u128>,
    later: Vec<u128>,
}

impl Step {
    /// The number of the first term in neither `kept` nor the later terms. If there is one, the column stays, and
    /// `kept` gets the terms with the other literal there.
    fn reason(&self, kept: &mut [u128], near: &[usize]) -> Option<usize> {
        let reason = first_open(kept, &self.later, near);
        if reason.is_some() {
            unite(kept, &self.against);
        }
        reason
    }
}

/// The number of sets that are asked of all terms: the terms that are left are few enough to be asked one by one.
const ASKED_SETS: usize = 32;

/// The terms of a list by their columns.
#[derive(Drop)]
pub struct Slices {
    terms: Vec<Term>,
    columns: Vec<Column>,
    /// For each word a term that holds all values of its terms.
    hulls: Vec<Term>,
    /// The terms that still count.
    live: Vec<u128>,
}

impl Slices {
    /// All terms of the list, by the columns below the width.
    /// Advice: asked before it is followed.
    pub fn new(alloc: Global, terms: &[Term], width: u8) -> Result<Slices, AllocError>
        requires { width ≤ 128 }
    {
        let mut columns = Vec::new(alloc);
        for column in 0..u32::from(width) {
            let bit = 1u128 << column;
            columns.push(Column {
                bit,
                zeros: places(alloc, terms, bit, 0)?,
                ones: places(alloc, terms, bit, bit)?,
            })?;
        }
        Ok(Slices {
            terms: Vec::from_slice(alloc, terms)?,
            columns,
            hulls: hulls(alloc, terms)?,
            live: all_places(alloc, terms.len())?,
        })
    }

    /// Leaves out the terms that the row holds whole.
    /// Advice: asked before it is followed.
    pub fn drop_included(&mut self, alloc: Global, row: Term) -> Result<(), AllocError> {
        let inside = self.having(alloc, row, row.care)?;
        remove(&mut self.live, &inside);
        Ok(())
    }

    /// The terms that have the literal of the row at each of the columns.
    pub(crate) fn having(
        &self,
        alloc: Global,
        row: Term,
        columns: u128,
    ) -> Result<Vec<u128>, AllocError> {
        let sets = self.with(alloc, row, columns)?;
        let mut having = Vec::new(alloc);
        for (number, hull) in self.hulls.iter().enumerate() {
            let is_apart = apart(row, *hull) & columns != 0;
            let word = if is_apart {
                0
            } else {
                self.having_at(number, &sets)
            };
            having.push(word)?;
        }
        Ok(having)
    }

    /// For each of the columns, from the last to the first, the terms with the literal of the row.
    fn with(&self, alloc: Global, row: Term, columns: u128) -> Result<Vec<&[u128]>, AllocError> {
        let mut sets = Vec::new(alloc);
        for column in self.columns.iter().rev() {
            if columns & column.bit != 0 {
                sets.push(column.with(row))?;
            }
        }
        Ok(sets)
    }

    /// For each of the columns, from the last to the first, the terms with the other literal.
    fn against(&self, alloc: Global, row: Term, columns: u128) -> Result<Vec<&[u128]>, AllocError> {
        let mut sets = Vec::new(alloc);
        for column in self.columns.iter().rev() {
            if columns & column.bit != 0 {
                sets.push(column.against(row))?;
            }
        }
        Ok(sets)
    }

    /// The terms in the word of that number that are in each of the sets.
    fn having_at(&self, number: usize, sets: &[&[u128]]) -> u128 {
        let mut having = word_at(&self.live, number);
        for set in sets {
            if having == 0 {
                break;
            }
            having &= word_at(set, number);
        }
        having
    }

    /// The terms in the word of that number that no longer count, and those that are in one of the sets.
    fn gone_at(&self, number: usize, sets: &[&[u128]]) -> u128 {
        let mut gone = !word_at(&self.live, number);
        for set in sets {
            gone |= word_at(set, number);
        }
        gone
    }

    /// The terms in the word of that number that are in one of the sets alone.
    fn sole_at(&self, number: usize, sets: &[&[u128]]) -> u128 {
        let mut once = 0;
        let mut gone = !word_at(&self.live, number);
        for set in sets {
            if gone == u128::MAX {
                break;
            }
            let word = word_at(set, number);
            gone |= once & word;
            once |= word;
        }
        once & !gone
    }

    /// The terms in the word of that number that are in one of the sets alone, where its hull differs from a row at
    /// the columns `apart`. There are none where each of its terms is in two sets, or in that of a known column.
    fn sole_near(&self, number: usize, sets: &[&[u128]], apart: u128, known: u128) -> u128 {
        if apart == 0 || apart.is_power_of_two() && apart & known == 0 {
            return self.sole_at(number, sets);
        }
        0
    }

    /// For each column the number of a term that has the other literal than the row there and at no other column. A
    /// word is passed over where each of its terms has it at two columns, or at one that is known.
    fn soles(&self, alloc: Global, row: Term) -> Result<Vec<Option<usize>>, AllocError> {
        let sets = self.against(alloc, row, row.care)?;
        let mut soles = vec![in alloc; None; self.columns.len()]?;
        let mut known = 0;
        for (number, hull) in self.hulls.iter().enumerate() {
            let sole = self.sole_near(number, &sets, apart(row, *hull), known);
            known |= self.put_soles(&mut soles, row, number, sole);
        }
        Ok(soles)
    }

    /// Puts such terms of the word of that number there, and gives their columns.
    fn put_soles(&self, soles: &mut [Option<usize>], row: Term, number: usize, sole: u128) -> u128 {
        let mut found = 0;
        if sole == 0 {
            return found;
        }
        for (column, term) in self.columns.iter().zip(soles.iter_mut()) {
            let first = column.first_against(row, number, sole);
            if first.is_some() {
                *term = first;
                found |= column.bit;
            }
        }
        found
    }

    /// The columns for which a term is there.
    fn columns_with(&self, soles: &[Option<usize>]) -> u128 {
        let mut columns = 0;
        for (column, term) in self.columns.iter().zip(soles) {
            if term.is_some() {
                columns |= column.bit;
            }
        }
        columns
    }

    /// The literals that each wider row has to keep: some term has the other literal there and nowhere else.
    pub(crate) fn limits(&self, alloc: Global, row: Term) -> Result<Limits, AllocError> {
        let soles = self.soles(alloc, row)?;
        Ok(Limits::new(alloc, self.columns_with(&soles)))
    }

    /// Adds the columns at which terms have the opposite literals to the row's, for at most `most` terms that have none
    /// at a required column: terms with the fewest such columns first, and none with more than 7.
    pub(crate) fn add_nearest(
        &self,
        alloc: Global,
        row: Term,
        most: usize,
        limits: &mut Limits,
    ) -> Result<(), AllocError> {
        let counts = self.counts(alloc, row, limits.literals)?;
        let mut room = most;
        for number in 2..8 {
            room = self.add_at(limits, row, &counts, number, room)?;
        }
        Ok(())
    }

    /// Adds the columns of the terms with that count, for `room` terms at most, and gives the room that is left.
    fn add_at(
        &self,
        limits: &mut Limits,
        row: Term,
        counts: &[Count],
        number: u32,
        room: usize,
    ) -> Result<usize, AllocError> {
        let mut left = room;
        for (i, count) in counts.iter().enumerate() {
            left = self.add_sets(limits, row, i, count.at(number), left)?;
        }
        Ok(left)
    }

    /// The counts of the terms that do not have the other literal at one of those columns.
    fn counts(&self, alloc: Global, row: Term, columns: u128) -> Result<Vec<Count>, AllocError> {
        let sets = self.against(alloc, row, columns)?;
        let mut counts = Vec::new(alloc);
        for number in 0..self.live.len() {
            counts.push(Count {
                ones: 0,
                twos: 0,
                fours: 0,
                more: self.gone_at(number, &sets),
            })?;
        }
        for column in &self.columns {
            if column.is_literal_of(row) {
                tally(&mut counts, column.against(row));
            }
        }
        Ok(counts)
    }

    /// Adds the columns of the terms of one word, for `room` terms at most, and gives the room that is left.
    fn add_sets(
        &self,
        limits: &mut Limits,
        row: Term,
        word: usize,
        found: u128,
        room: usize,
    ) -> Result<usize, AllocError> {
        let mut found = found;
        let mut left = room;
        for _ in 0..room {
            if found == 0 {
                break;
            }
            if let Some(term) = self.term_at(word, found) {
                limits.add(apart(row, term), row.care)?;
            }
            found &= found - 1;
            left = left.saturating_sub(1);
        }
        Ok(left)
    }

    /// The term at the lowest bit of the word of that number.
    fn term_at(&self, word: usize, found: u128) -> Option<Term> {
        let number = place(word, found);
        if number >= self.terms.len() {
            return None;
        }
        Some(self.terms[number])
    }

    /// Keeps the terms that have the literal of the row at a column of each of the first sets.
    pub(crate) fn keep_allowed(
        &self,
        left: &mut Vec<u128>,
        row: Term,
        limits: &Limits,
    ) -> Result<(), AllocError> {
        let mut any = left.clone()?;
        for set in limits.sets.iter().take(ASKED_SETS) {
            self.gather(&mut any, row, *set);
            keep(left, &any);
        }
        Ok(())
    }

    /// Makes `any` the terms that have the literal of the row at some column of the set.
    fn gather(&self, any: &mut [u128], row: Term, set: u128) {
        for word in any.iter_mut() {
            *word = 0;
        }
        for column in &self.columns {
            if set & column.bit != 0 {
                unite(any, column.with(row));
            }
        }
    }

    /// The terms of those words.
    pub(crate) fn terms_of(&self, alloc: Global, words: &[u128]) -> Result<Vec<Term>, AllocError> {
        let mut terms = Vec::new(alloc);
        for (i, word) in words.iter().enumerate() {
            self.put_terms(&mut terms, i, *word)?;
        }
        Ok(terms)
    }

    /// Adds the terms of one word.
    fn put_terms(&self, terms: &mut Vec<Term>, word: usize, found: u128) -> Result<(), AllocError> {
        let mut found = found;
        for _ in 0..128 {
            if found == 0 {
                break;
            }
            if let Some(term) = self.term_at(word, found) {
                terms.push(term)?;
            }
            found &= found - 1;
        }
        Ok(())
    }

    /// How far the row is widened when each literal in turn becomes a dash where the row then touches no term. Terms
    /// with the other literal at a column that surely stays are left out.
    /// Advice: asked before it is followed.
    pub fn advice(&self, alloc: Global, row: Term) -> Result<Advice, AllocError> {
        let mut reasons = self.soles(alloc, row)?;
        let literals = self.columns_with(&reasons);
        let open = row.care & !literals;
        let near = self.near(alloc, row, literals)?;
        let mut kept = self.gone(alloc, row, literals, &near)?;
        let mut steps = self.steps(alloc, row, open, &near)?;
        let dashes = self.put_reasons(&mut reasons, &mut kept, &mut steps, &near, open);
        Ok(Advice {
            wide: without(row, dashes),
            reasons,
        })
    }

    /// Takes the steps for the open columns in turn. Puts a reason at each that stays, and gives the others.
    fn put_reasons(
        &self,
        reasons: &mut [Option<usize>],
        kept: &mut [u128],
        steps: &mut Vec<Step>,
        near: &[usize],
        open: u128,
    ) -> u128 {
        let mut dashes = 0;
        for (column, place) in self.columns.iter().zip(reasons.iter_mut()) {
            if open & column.bit != 0 {
                if let Some(step) = steps.pop() {
                    let reason = step.reason(kept, near);
                    *place = reason;
                    if reason.is_none() {
                        dashes |= column.bit;
                    }
                }
            }
        }
        dashes
    }

    /// The numbers of the words of which not every term has the other literal than the row at one of the columns.
    fn near(&self, alloc: Global, row: Term, columns: u128) -> Result<Vec<usize>, AllocError> {
        let mut near = Vec::new(alloc);
        for (number, hull) in self.hulls.iter().enumerate() {
            if apart(row, *hull) & columns == 0 {
                near.push(number)?;
            }
        }
        Ok(near)
    }

    /// For the words of those numbers, the terms that no longer count or have the other literal than the row at one
    /// of the columns.
    fn gone(
        &self,
        alloc: Global,
        row: Term,
        columns: u128,
        near: &[usize],
    ) -> Result<Vec<u128>, AllocError> {
        let sets = self.against(alloc, row, columns)?;
        let mut gone = Vec::new(alloc);
        for number in near {
            gone.push(self.gone_at(*number, &sets))?;
        }
        Ok(gone)
    }

    /// The steps for the literals of the row at those columns, from the last to the first.
    fn steps(
        &self,
        alloc: Global,
        row: Term,
        columns: u128,
        near: &[usize],
    ) -> Result<Vec<Step>, AllocError> {
        let mut steps = Vec::new(alloc);
        let mut all = vec![in alloc; 0u128; near.len()]?;
        for column in self.columns.iter().rev() {
            if columns & column.bit != 0 {
                let against = picked(alloc, column.against(row), near)?;
                let later = all.clone()?;
                unite(&mut all, &against);
                steps.push(Step { against, later })?;
            }
        }
        Ok(steps)
    }
}

/// The words of those numbers.
fn picked(alloc: Global, words: &[u128], numbers: &[usize]) -> Result<Vec<u128>, AllocError> {
    let mut picked = Vec::new(alloc);
    for number in numbers {
        picked.push(word_at(words, *number))?;
    }
    Ok(picked)
}

/// The word of that number, or an empty one.
fn word_at(words: &[u128], number: usize) -> u128 {
    words.get(number).copied().unwrap_or(0)
}

/// For each word of terms a term that holds all their values.
fn hulls(alloc: Global, terms: &[Term]) -> Result<Vec<Term>, AllocError> {
    let mut hulls = Vec::new(alloc);
    for chunk in terms.chunks(128) {
        hulls.push(hull(chunk))?;
    }
    Ok(hulls)
}

/// A term that holds the values of all terms.
fn hull(terms: &[Term]) -> Term {
    let mut hull = terms.first().copied().unwrap_or(Term::masked(0, 0));
    for term in terms {
        hull = hull.joined(*term);
    }
    hull
}

/// The number of the first term in neither set. The words of both have those numbers.
fn first_open(kept: &[u128], later: &[u128], near: &[usize]) -> Option<usize> {
    let count = kept.len().min(later.len()).min(near.len());
    for i in 0..count {
        let open = !(kept[i] | later[i]);
        if open != 0 {
            return Some(place(near[i], open));
        }
    }
    None
}

/// The number of the term at the lowest bit of a word.
fn place(word: usize, found: u128) -> usize {
    word.saturating_mul(128)
        .saturating_add(found.trailing_zeros() as usize)
}

/// A bit for each of that many terms.
fn all_places(alloc: Global, count: usize) -> Result<Vec<u128>, AllocError> {
    let mut words = vec![in alloc; u128::MAX; count / 128]?;
    let rest = count % 128;
    if rest > 0 {
        words.push((1u128 << rest) - 1)?;
    }
    Ok(words)
}

/// A bit for each term that has at the columns of `mask` the literals of `value`.
fn places(alloc: Global, terms: &[Term], mask: u128, value: u128) -> Result<Vec<u128>, AllocError> {
    let mut words = Vec::new(alloc);
    for chunk in terms.chunks(128) {
        let mut word = 0;
        for (i, term) in chunk.iter().enumerate() {
            if i < 128 && term.care & mask == mask && term.value & mask == value {
                word |= 1u128 << i;
            }
        }
        words.push(word)?;
    }
    Ok(words)
}

/// Adds the set.
fn unite(all: &mut [u128], set: &[u128]) {
    let count = all.len().min(set.len());
    for i in 0..count {
        all[i] |= set[i];
    }
}

/// Keeps what is in the set.
fn keep(all: &mut [u128], set: &[u128]) {
    let count = all.len().min(set.len());
    for i in 0..count {
        all[i] &= set[i];
    }
}

/// Leaves out what is in the set.
fn remove(all: &mut [u128], set: &[u128]) {
    let count = all.len().min(set.len());
    for i in 0..count {
        all[i] &= !set[i];
    }
}

/// Adds one to the count of each term of the set.
fn tally(counts: &mut [Count], set: &[u128]) {
    for (count, more) in counts.iter_mut().zip(set) {
        *count = count.plus(*more);
    }
}
