//! The outputs along a word.
//!
//! Steps are remembered in a list, each until another takes its place there. So a step that is taken often is mostly
//! looked up. In a long word other steps are gathered from rows that search trees find, one for each list of parts that
//! the rows of the state give together.
ghost use Rattle.std.specs.Prelude.{◌≡◌, ◌<◌, ◌^◌, All, IfOk, IfSome, length, map};
ghost use Rattle.cubes.specs.Symbol.{symbol_of, lowest_bits};
ghost use Rattle.kiss_file.specs.LawfulFile.{IsLawfulRow};
ghost use Rattle.kiss_file.specs.Machine.{IsRowAt, answers, out};
ghost use Rattle.machine_table.specs.Inner.Gathered.{ArePartsOf};
ghost use Rattle.machine_table.specs.Inner.Step.{IsStep, IsRightStep};

use crate::Machine;
use crate::open_entry::all_outputs;
use crate::part_trees::{PartTree, Parts, trees_of_parts};
use crate::row_tree::RowTree;
use kiss_file::KissRow;
use std::alloc::{AllocError, Global};

/// The most steps that are remembered.
const MOST_MET: usize = 65536;

/// The next state, and the outputs with output b at 2^b.
#[derive(Clone, Copy)]
struct Step {
    next: usize,
    outputs: u64,
}

/// What rows of a state that hold a symbol give there: the next state, and the outputs that have a 1 in `given`.
#[derive(Clone, Copy)]
struct Gathered {
    next: Option<usize>,
    given: u64,
    word: u64,
}

impl Gathered {
    /// Whether each of the parts is given.
    fn has(&self, parts: &Parts) -> bool {
        let known = Parts {
            next: self.next.is_some(),
            outputs: self.given,
        };
        parts.without(&known).is_empty()
    }
}

/// A step that was taken, from a state at a symbol.
#[derive(Clone, Copy)]
struct MetStep {
    state: usize,
    symbol: u32,
    step: Step,
}

impl Machine {
    /// The outputs from the reset state on, one number for each symbol, with output b at 2^b.
    pub fn walk(&self, alloc: Global, symbols: &[u32]) -> Result<Vec<u64>, AllocError>
        requires { All (λ x. x < 2 ^ self.now.inputs) symbols.now }
        ensures outputs { IfOk result
            (λ words. map (lowest_bits self.now.outputs) words.items ≡ answers self.now self.now.reset
            (map (symbol_of self.now.inputs) symbols.now)) }
        ensures below { IfOk result (λ words. All (λ word. word < 2 ^ self.now.outputs) words.items) }
    {
        let trees = self.trees_for(alloc, symbols.len())?;
        let none: Option<MetStep> = None;
        let mut met = vec![in alloc; none; symbols.len().min(MOST_MET)]?;
        let mut words = Vec::with_capacity(alloc, symbols.len())?;
        let mut s = self.reset();
        for x in symbols {
            let step = self.step_met(&trees, &mut met, s, *x);
            words.push(step.outputs)?;
            s = step.next;
        }
        Ok(words)
    }

    /// For each state the trees of its rows. A state has none if the word is too short for them to pay off.
    fn trees_for(&self, alloc: Global, symbols: usize) -> Result<Vec<Vec<PartTree>>, AllocError> {
        let all = Parts {
            next: true,
            outputs: all_outputs(self.outputs()),
        };
        let states = self.states();
        let rows = self.rows.all_rows();
        let mut trees = Vec::with_capacity(alloc, states)?;
        for s in 0..states {
            let numbers = self.numbers_of(s);
            trees.push(trees_of_parts(alloc, rows, numbers, all, states, symbols)?)?;
        }
        Ok(trees)
    }

    /// The step from a state at a symbol. One that was taken before is looked up in the list, if it is still there.
    fn step_met(
        &self,
        trees: &[Vec<PartTree>],
        met: &mut Vec<Option<MetStep>>,
        s: usize,
        x: u32,
    ) -> Step
        requires s { s < length self.now.states }
        requires x { x < 2 ^ self.now.inputs }
        requires right { All (IsRightStep self.now) met.old.items }
        ensures step { IsStep self.now s x result.next result.outputs }
        ensures right { All (IsRightStep self.now) met.new.items }
    {
        if met.is_empty() {
            return self.step(trees, s, x);
        }
        let place = s.wrapping_mul(256).wrapping_add(x as usize) % met.len();
        if let Some(it) = met[place]
            && it.state == s
            && it.symbol == x
        {
            return it.step;
        }
        let step = self.step(trees, s, x);
        met[place] = Some(MetStep {
            state: s,
            symbol: x,
            step,
        });
        step
    }

    /// The step from a state at a symbol. A state may have no trees.
    fn step(&self, trees: &[Vec<PartTree>], s: usize, x: u32) -> Step
        requires s { s < length self.now.states }
        requires x { x < 2 ^ self.now.inputs }
        ensures { IsStep self.now s x result.next result.outputs }
    {
        if let Some(own) = trees.get(s)
            && let Some(step) = self.step_in(own, s, x)
        {
            return step;
        }
        Step {
            next: self.next(s, x),
            outputs: self.output_word(s, x),
        }
    }

    /// The step that rows in the trees give, if they give each part of it.
    fn step_in(&self, trees: &[PartTree], s: usize, x: u32) -> Option<Step>
        requires x { x < 2 ^ self.now.inputs }
        ensures { IfSome result (λ step. IsStep self.now s x step.next step.outputs) }
    {
        let found = self.gathered_in(trees, s, x);
        if found.given != all_outputs(self.outputs()) {
            return None;
        }
        Some(Step {
            next: found.next?,
            outputs: found.word,
        })
    }

    /// What rows in the trees give at the symbol.
    fn gathered_in(&self, trees: &[PartTree], s: usize, x: u32) -> Gathered
        requires x { x < 2 ^ self.now.inputs }
        ensures { ArePartsOf self.now s x result }
    {
        let mut found = Gathered {
            next: None,
            given: 0,
            word: 0,
        };
        for tree in trees {
            if !found.has(&tree.parts)
                && let Some(row) = self.row_in(&tree.rows, s, x)
            {
                found = self.gathered_with(found, row, s, x);
            }
        }
        found
    }

    /// What the row gives beside what is gathered.
    fn gathered_with(&self, found: Gathered, row: &KissRow, s: usize, x: u32) -> Gathered
        requires found { ArePartsOf self.now s x found }
        requires row { IsRowAt self.now s (symbol_of self.now.inputs x) row.now }
        requires lawful { IsLawfulRow self.now.inputs self.now.outputs (length self.now.states) row.now }
        ensures { ArePartsOf self.now s x result }
    {
        self.keeps_its_states();
        let next = match row.to {
            Some(t) => Some(usize::from(t)),
            None => found.next,
        };
        Gathered {
            next,
            given: found.given | row.care,
            word: found.word | row.value,
        }
    }

    /// A row in the tree that is one of the state and holds the symbol.
    fn row_in(&self, tree: &RowTree, s: usize, x: u32) -> Option<&KissRow>
        requires x { x < 2 ^ self.now.inputs }
        ensures row { IfSome result (λ row. IsRowAt self.now s (symbol_of self.now.inputs x) row.now) }
        ensures lawful { IfSome result
            (λ row. IsLawfulRow self.now.inputs self.now.outputs (length self.now.states) row.now) }
    {
        match tree {
            RowTree::Leaf(numbers) => self.row_among(numbers.as_slice(), s, x),
            RowTree::Fork {
                at,
                zero,
                one,
                dash,
            } => {
                let side = if x & *at == 0 { zero } else { one };
                match self.row_in(side, s, x) {
                    Some(row) => Some(row),
                    None => self.row_in(dash, s, x),
                }
            }
        }
    }

    /// The first of the rows with these numbers that is one of the state and holds the symbol.
    fn row_among(&self, numbers: &[usize], s: usize, x: u32) -> Option<&KissRow>
        requires x { x < 2 ^ self.now.inputs }
        ensures row { IfSome result (λ row. IsRowAt self.now s (symbol_of self.now.inputs x) row.now) }
        ensures lawful { IfSome result
            (λ row. IsLawfulRow self.now.inputs self.now.outputs (length self.now.states) row.now) }
    {
        for number in numbers {
            if let Some(row) = self.row_at(*number, s, x) {
                return Some(row);
            }
        }
        None
    }

    /// The row with that number, if it is one of the state and holds the symbol.
    fn row_at(&self, number: usize, s: usize, x: u32) -> Option<&KissRow>
        requires x { x < 2 ^ self.now.inputs }
        ensures row { IfSome result (λ row. IsRowAt self.now s (symbol_of self.now.inputs x) row.now) }
        ensures lawful { IfSome result
            (λ row. IsLawfulRow self.now.inputs self.now.outputs (length self.now.states) row.now) }
    {
        if number >= self.rows.all_rows().len() {
            return None;
        }
        let row = self.row(number);
        if usize::from(row.from) != s || !row.cube.holds(x) {
            return None;
        }
        Some(row)
    }

    /// The outputs at a state and a symbol, with output b at 2^b.
    pub(crate) fn output_word(&self, s: usize, x: u32) -> u64
        requires s { s < length self.now.states }
        requires x { x < 2 ^ self.now.inputs }
        ensures below { result < 2 ^ self.now.outputs }
        ensures outputs { lowest_bits self.now.outputs result ≡ out self.now s (symbol_of self.now.inputs x) }
    {
        let all = all_outputs(self.outputs());
        let mut given = 0;
        let mut word = 0;
        for number in self.numbers_of(s) {
            let row = self.row(*number);
            if row.cube.holds(x) {
                given |= row.care;
                word |= row.value;
                if given == all {
                    return word;
                }
            }
        }
        word
    }
}
