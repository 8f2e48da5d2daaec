//! A list of terms of at most 16 columns, with a mark for each value that one of them holds.
ghost use Rattle.std.specs.Prelude.{◌≡◌};

use cover_terms::Term;
use cover_terms::chart::{blank, fill, find};
use std::alloc::{AllocError, Global};

/// The terms, and a number for each value: 1 where a term holds it, and else 0.
#[derive(Drop)]
pub struct Table {
    pub terms: Vec<Term>,
    pub marks: Vec<usize>,
    width: u8,
}

impl Table {
    ghost use Rattle.std.specs.Prelude.{◌≡◌, ◌≤◌, [], All, IfOk, IsTrue, OnOk};
    ghost use Rattle.cover_terms.specs.Term.{FitsWidth};
    ghost use Rattle.cover_logic.specs.Inner.Rows.{IsAllHeld, IsMetOrClear};
    ghost use Rattle.cover_logic.specs.Inner.Tables.{IsOneMore, IsMarkTable, IsMarkTableOf};

    /// The table of no terms.
    pub fn new(alloc: Global, width: u8) -> Result<Table, AllocError>
        requires { width ≤ 16 }
        ensures { IfOk result (IsMarkTableOf width []) }
    {
        let marks = blank(alloc, width)?;
        Ok(Table {
            terms: Vec::new(alloc),
            marks,
            width,
        })
    }

    /// The table of the terms.
    pub fn of(alloc: Global, terms: &[Term], width: u8) -> Result<Table, AllocError>
        requires few { width ≤ 16 }
        requires fits { All (FitsWidth width) terms.now }
        ensures { IfOk result (IsMarkTableOf width terms.now) }
    {
        let mut table = Table::new(alloc, width)?;
        for term in terms {
            table.add(*term)?;
        }
        Ok(table)
    }

    /// Adds a term.
    pub fn add(&mut self, term: Term) -> Result<(), AllocError>
        requires table { IsMarkTable self.old }
        requires fits { FitsWidth self.old.width term }
        ensures { OnOk result (IsOneMore self.old term self.new) }
    {
        self.terms.push(term)?;
        fill(&mut self.marks, term, self.width, 1);
        Ok(())
    }

    /// Whether a term holds some value of the row.
    pub fn shares_value(&self, row: Term) -> bool
        requires table { IsMarkTable self.now }
        requires fits { FitsWidth self.now.width row }
        ensures { IsMetOrClear self.now.terms.items row result }
    {
        find(&self.marks, row, self.width, 1).is_some()
    }

    /// Whether terms hold all values of the row.
    pub fn holds(&self, row: Term) -> bool
        requires table { IsMarkTable self.now }
        requires fits { FitsWidth self.now.width row }
        ensures { IsTrue result → IsAllHeld self.now.terms.items row }
    {
        find(&self.marks, row, self.width, 0).is_none()
    }
}
