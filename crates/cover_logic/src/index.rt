//! An index of a list of terms, which is asked for a term that shares a value with a given one.
ghost use Rattle.std.specs.Prelude.{◌≡◌, ◌<◌, ◌≤◌, All, IfOk, OnOk, filter, length};
ghost use Rattle.cover_terms.specs.Pair.{Includes};
ghost use Rattle.cover_logic.specs.Inner.Sides.{is_on_side};
ghost use Rattle.cover_logic.specs.Inner.Nodes.{IsAdded, IsNested, IsNested-prop};

use crate::column_counts::ColumnCounts;
use cover_terms::Term;
use std::alloc::{AllocError, Global};

/// A term of the list, or a term that holds the terms of the list from node `from` up to its own place.
#[derive(Clone, Copy)]
struct Node {
    term: Term,
    from: usize,
    is_listed: bool,
}

/// The terms of a list, each group of them followed by a term that holds them all. A search goes from the last node
/// to the first. Where the row shares no value with a node, the search leaves out the terms that the node holds.
#[derive(Drop)]
pub struct Index {
    nodes: Vec<Node>,
    ghost nested: { IsNested nodes.items } by { IsNested-prop nodes.items },
}

impl Index {
    ghost use Rattle.std.specs.Prelude.{◌≤◌, Contains, IfOk, IsTrue, MatchOption};
    ghost use Rattle.cover_logic.specs.Inner.Index.{terms_of};
    ghost use Rattle.cover_terms.specs.Pair.{ShareValue};
    ghost use Rattle.cover_terms.specs.Lists.{HasSameTerms};
    ghost use Rattle.cover_logic.specs.Inner.Rows.{IsClear, MeetsSome};

    /// The index of the terms. It is split by columns below the width.
    pub fn new(alloc: Global, terms: &[Term], width: u8) -> Result<Index, AllocError>
        requires { width ≤ 128 }
        ensures { IfOk result (λ index. HasSameTerms terms.now (terms_of index)) }
    {
        let mut nodes = Vec::new(alloc);
        add(alloc, &mut nodes, terms, width, width)?;
        Ok(Index { nodes })
    }

    /// A term of the list that shares a value with the row.
    pub fn met_by(&self, row: Term) -> Option<Term>
        ensures { MatchOption result (IsClear (terms_of self.now) row)
            (λ t. Contains (terms_of self.now) t × ShareValue row t) }
    {
        let mut end = self.nodes.len();
        while end > 0 {
            let node = self.nodes[end - 1];
            if row.touches(node.term) {
                if node.is_listed {
                    return Some(node.term);
                }
                end -= 1;
            } else {
                end = node.from;
            }
        }
        None
    }

    /// Whether the node at the place has a term of the list, and the term shares a value with the row.
    pub fn is_met_at(&self, place: usize, row: Term) -> bool
        ensures { IsTrue result → MeetsSome (terms_of self.now) row }
    {
        if place >= self.nodes.len() {
            return false;
        }
        let node = self.nodes[place];
        if !node.is_listed {
            return false;
        }
        row.touches(node.term)
    }

    /// The terms of the list, in the order of the nodes.
    pub(crate) fn terms(&self, alloc: Global) -> Result<Vec<Term>, AllocError> {
        let mut terms = Vec::new(alloc);
        for node in &self.nodes {
            if node.is_listed {
                terms.push(node.term)?;
            }
        }
        Ok(terms)
    }

    /// The places of their nodes.
    pub(crate) fn places(&self, alloc: Global) -> Result<Vec<usize>, AllocError> {
        let mut places = Vec::new(alloc);
        for (place, node) in self.nodes.iter().enumerate() {
            if node.is_listed {
                places.push(place)?;
            }
        }
        Ok(places)
    }
}

/// Adds nodes for the terms, down to `depth` splits of them by columns, and then a node that holds them all.
#[cycle(add)]
fn add(
    alloc: Global,
    nodes: &mut Vec<Node>,
    terms: &[Term],
    width: u8,
    depth: u8,
) -> Result<(), AllocError>
    requires width { width ≤ 128 }
    requires nested { IsNested nodes.old.items }
    ensures { OnOk result (IsAdded nodes.old.items terms.now nodes.new.items) }
{
    let Some(first) = terms.first() else {
        return Ok(());
    };
    let from = nodes.len();
    add_parts(alloc, nodes, terms, width, depth)?;
    let term = hull(*first, terms);
    nodes.push(Node {
        term,
        from,
        is_listed: false,
    })?;
    Ok(())
}

/// Adds nodes for the terms with a 0 at a column, for those with a 1 and for those with a dash, or one for each term
/// where no split pays.
#[cycle(add)]
fn add_parts(
    alloc: Global,
    nodes: &mut Vec<Node>,
    terms: &[Term],
    width: u8,
    depth: u8,
) -> Result<(), AllocError>
    requires width { width ≤ 128 }
    requires nested { IsNested nodes.old.items }
    ensures { OnOk result (IsAdded nodes.old.items terms.now nodes.new.items) }
{
    if depth == 0 || terms.len() <= 4 {
        return add_each(nodes, terms);
    }
    let column = best_column(terms, width);
    if column == 0 {
        return add_each(nodes, terms);
    }
    add_part(alloc, nodes, terms, column, Side::Zero, width, depth - 1)?;
    add_part(alloc, nodes, terms, column, Side::One, width, depth - 1)?;
    add_part(alloc, nodes, terms, column, Side::Dash, width, depth - 1)
}

/// Adds nodes for the terms that have this at the column.
#[cycle(add)]
fn add_part(
    alloc: Global,
    nodes: &mut Vec<Node>,
    terms: &[Term],
    column: u128,
    side: Side,
    width: u8,
    depth: u8,
) -> Result<(), AllocError>
    requires width { width ≤ 128 }
    requires nested { IsNested nodes.old.items }
    ensures { OnOk result (IsAdded nodes.old.items (filter (is_on_side side column) terms.now) nodes.new.items) }
{
    let part = part(alloc, terms, column, side)?;
    add(alloc, nodes, &part, width, depth)
}

/// Adds a node for each term.
fn add_each(nodes: &mut Vec<Node>, terms: &[Term]) -> Result<(), AllocError>
    requires { IsNested nodes.old.items }
    ensures { OnOk result (IsAdded nodes.old.items terms.now nodes.new.items) }
{
    for term in terms {
        let from = nodes.len();
        nodes.push(Node {
            term: *term,
            from,
            is_listed: true,
        })?;
    }
    Ok(())
}

/// A term that holds the values of all terms.
fn hull(first: Term, terms: &[Term]) -> Term
    ensures { All (Includes result) terms.now }
{
    let mut hull = first;
    for term in terms {
        hull = hull.joined(*term);
    }
    hull
}

/// What a term can have at a column.
#[derive(Clone, Copy)]
enum Side {
    Zero,
    One,
    Dash,
}

/// Whether the term has this at the column, which is a number with its bit alone.
fn is_on_side(term: Term, column: u128, side: Side) -> bool
    ensures { result ≡ is_on_side side column term }
{
    match side {
        Side::Zero => term.value & column == 0 && term.care & column != 0,
        Side::One => term.value & column != 0,
        Side::Dash => term.value & column == 0 && term.care & column == 0,
    }
}

/// The terms that have this at the column.
fn part(alloc: Global, terms: &[Term], column: u128, side: Side) -> Result<Vec<Term>, AllocError>
    ensures { IfOk result (λ part. part.items ≡ filter (is_on_side side column) terms.now) }
{
    let mut part = Vec::new(alloc);
    for term in terms {
        if is_on_side(*term, column, side) {
            part.push(*term)?;
        }
    }
    Ok(part)
}

/// The column that splits the terms best, as a number with that bit alone; 0 where none does.
fn best_column(terms: &[Term], width: u8) -> u128
    requires { width ≤ 128 }
{
    let counts = ColumnCounts::new(terms);
    let mut best = 0;
    let mut best_gain = 0;
    for column in 0..u32::from(width) {
        let bit = 1u128 << column;
        let gain = counts.gain(bit);
        if gain > best_gain {
            best = bit;
            best_gain = gain;
        }
    }
    best
}
