//! Next states at a few symbols, which tell most states apart.
ghost use Rattle.std.specs.Prelude.{ℕ, ◌≡◌, ◌<◌, ◌^◌, All, IfOk, IfSome, List, OnOk, length};
ghost use Rattle.kiss_file.specs.declared.file.KissFile.{KissFile};
ghost use Rattle.pair_operators.specs.NextColumns.{AreAsked, IsNextColumn};
ghost use Rattle.pair_operators.specs.Inner.Keys.{AreKeys, AreMixed, mixed};

use machine_table::Machine;
use partition::Partition;
use std::alloc::{AllocError, Global};
use std::marker::Model;

/// The most symbols that are asked.
const MOST_ASKED: usize = 256;

/// The next state of each state, at one symbol.
#[derive(Drop)]
pub struct NextColumn {
    pub states: Vec<u16>,
}

/// Symbols of one machine at which states were told apart, seen by contracts as the list of the next states there. They
/// are kept from one call of [`high_beside`](crate::high_beside) to the next, which asks them first.
#[derive(Drop)]
pub struct AskedSymbols {
    columns: Vec<NextColumn>,
}

impl Model for AskedSymbols {
    ghost use Rattle.std.specs.Prelude.{List};
    ghost use Rattle.pair_operators.specs.declared.next_columns.NextColumn.{NextColumn};

    ghost Value = { List NextColumn };

    ghost view = { λ asked. asked.columns.items };
}

/// A number for each state. States with different numbers do not go together.
#[derive(Drop)]
pub(crate) struct Keys {
    pub numbers: Vec<u64>,
}

/// The number of a state after one more label.
fn mixed(key: u64, label: u16) -> u64
    ensures { result ≡ mixed key label }
{
    key.wrapping_mul(0x9E37_79B9_7F4A_7C15)
        .wrapping_add(u64::from(label))
}

/// The next states at the symbol with that number.
fn column_at(alloc: Global, m: &Machine, x: u32) -> Result<NextColumn, AllocError>
    requires { x < 2 ^ m.now.inputs }
    ensures { IfOk result (IsNextColumn m.now) }
{
    let mut states = Vec::with_capacity(alloc, m.states())?;
    for s in 0..m.states() {
        states.push(m.next(s, x) as u16)?;
    }
    Ok(NextColumn { states })
}

/// A symbol of a column of s at which the two states go to states that are not together in q.
fn symbol_apart(m: &Machine, q: &Partition, s: usize, t: usize) -> Option<u32>
    requires states { length q.now ≡ length m.now.states }
    requires s { s < length m.now.states }
    requires t { t < length m.now.states }
    ensures { IfSome result (λ x. x < 2 ^ m.now.inputs) }
{
    for k in 0..MOST_ASKED {
        let x = m.symbol_of_column(s, k)?;
        if q.label(m.next(s, x)) != q.label(m.next(t, x)) {
            return Some(x);
        }
    }
    None
}

impl Keys {
    /// The same number for each state.
    fn same(alloc: Global, states: usize) -> Result<Keys, AllocError>
        ensures { (F : KissFile) (q : List ℕ) → length F.states ≡ states → IfOk result (AreKeys F q) }
    {
        Ok(Keys {
            numbers: vec![in alloc; 0; states]?,
        })
    }

    /// The numbers after the labels in q of the next states of the column.
    fn after(&self, alloc: Global, q: &Partition, column: &NextColumn) -> Result<Keys, AllocError>
        requires size { length self.now.numbers.items ≡ length column.now.states.items }
        requires inside { All (λ t. t < length q.now) column.now.states.items }
        ensures { IfOk result
            (λ keys. AreMixed self.now.numbers.items q.now column.now.states.items keys.numbers.items) }
    {
        let mut numbers = Vec::with_capacity(alloc, self.numbers.len())?;
        for (s, key) in self.numbers.iter().enumerate() {
            let label = q.label(usize::from(column.states[s]));
            numbers.push(mixed(*key, label))?;
        }
        Ok(Keys { numbers })
    }
}

impl AskedSymbols {
    /// No symbols yet.
    pub fn new(alloc: Global) -> AskedSymbols
        ensures { (F : KissFile) → AreAsked F result }
    {
        AskedSymbols {
            columns: Vec::new(alloc),
        }
    }

    /// The numbers of the states by the labels in q of their next states at the symbols.
    pub(crate) fn keys(&self, alloc: Global, m: &Machine, q: &Partition) -> Result<Keys, AllocError>
        requires states { length q.now ≡ length m.now.states }
        requires asked { AreAsked m.now self.now }
        ensures { IfOk result (AreKeys m.now q.now) }
    {
        let mut keys = Keys::same(alloc, m.states())?;
        for column in &self.columns {
            keys = keys.after(alloc, q, column)?;
        }
        Ok(keys)
    }

    /// Adds a symbol at which the two states go to states that are not together in q, if one is found among the
    /// columns of s and not too many are asked already. The answer has the numbers of the states after it.
    pub(crate) fn learn(
        &mut self,
        alloc: Global,
        m: &Machine,
        q: &Partition,
        keys: Keys,
        s: usize,
        t: usize,
    ) -> Result<Keys, AllocError>
        requires states { length q.now ≡ length m.now.states }
        requires s { s < length m.now.states }
        requires t { t < length m.now.states }
        requires asked { AreAsked m.now self.old }
        requires keys { AreKeys m.now q.now keys }
        ensures asked { OnOk result (AreAsked m.now self.new) }
        ensures keys { IfOk result (AreKeys m.now q.now) }
    {
        if self.columns.len() >= MOST_ASKED {
            return Ok(keys);
        }
        let Some(x) = symbol_apart(m, q, s, t) else {
            return Ok(keys);
        };
        let column = column_at(alloc, m, x)?;
        let more = keys.after(alloc, q, &column)?;
        self.columns.push(column)?;
        Ok(more)
    }
}
