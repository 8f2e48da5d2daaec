//! Reads a file of symbols as numbers.

ghost use Rattle.std.specs.Prelude.{
  ◌≡◌,
  ℕ,
  ◌+◌,
  ◌*◌,
  ◌^◌,
  ◌<◌,
  ◌≤◌,
  ◌⊎◌,
  All,
  Bool,
  List,
  [],
  IfErr,
  IfOk,
  MatchResult,
  OnOk,
  length,
  map,
};
ghost use Rattle.cubes.specs.Symbol.{number_of, symbol_of};
ghost use Rattle.hs_io.specs.Lines.{line_of};
ghost use Rattle.net_sim.specs.declared.symbols.SymbolFail.TheVariants.{NoMemory, Refused};
ghost use Rattle.net_sim.specs.Symbols.{IsSymbolFault, IsSymbolFile, TellsRefused};
ghost use Rattle.net_sim.specs.Inner.Numbers.{AddedLine, TellsRefusedLine};

use crate::symbol_line::{Said, read_line};
use hs_io::first_line;
use hs_list::Items;
use std::alloc::{AllocError, Global};

/// Why a file of symbols was not read.
#[derive(Clone, Copy, Debug, PartialEq, Eq)]
pub enum SymbolFail {
    /// The number of the first refused line.
    Refused { line: u32 },
    /// Memory ran out.
    NoMemory,
}

impl From<AllocError> for SymbolFail {
    ghost use Rattle.std.specs.Prelude.{◌≡◌};
    ghost use Rattle.net_sim.specs.declared.symbols.SymbolFail.TheVariants.{NoMemory};

    ghost from_gives = { λ _ fail. fail ≡ NoMemory };

    fn from(_: AllocError) -> Self {
        SymbolFail::NoMemory
    }
}

/// The numbers of the symbols of a file. Each symbol has `inputs` bits, the first one the most significant.
pub fn read_symbols(alloc: Global, inputs: u8, bytes: &[u8]) -> Result<Vec<u32>, SymbolFail>
    requires inputs { inputs ≤ 32 }
    requires short { length bytes.now < 2 ^ 32 }
    ensures read { IfOk result (λ numbers. IsSymbolFile inputs bytes.now (map (symbol_of inputs) numbers.items)) }
    ensures below { IfOk result (λ numbers. All (λ x. x < 2 ^ inputs) numbers.items) }
    ensures refused { IfErr result (TellsRefused inputs bytes.now) }
    ensures never_refused { (word : List (List Bool)) → IsSymbolFile inputs bytes.now word
        → MatchResult result (λ numbers. map (symbol_of inputs) numbers.items ≡ word) (λ fail. fail ≡ NoMemory) }
    ensures never_read { (line : ℕ) → IsSymbolFault inputs bytes.now line
        → MatchResult result (λ _. ⊥) (λ fail. (fail ≡ Refused line) ⊎ (fail ≡ NoMemory)) }
{
    read_lines(alloc, inputs, bytes)
}

/// The numbers of the symbols, or the first refused line.
fn read_lines(alloc: Global, inputs: u8, bytes: &[u8]) -> Result<Vec<u32>, SymbolFail>
    requires inputs { inputs ≤ 32 }
    requires short { length bytes.now < 2 ^ 32 }
    ensures read { IfOk result (λ numbers. IsSymbolFile inputs bytes.now (map (symbol_of inputs) numbers.items)) }
    ensures below { IfOk result (λ numbers. All (λ x. x < 2 ^ inputs) numbers.items) }
    ensures refused { IfErr result (TellsRefused inputs bytes.now) }
{
    let mut symbol = vec![in alloc; false; usize::from(inputs)]?;
    let mut numbers = Items::new(alloc);
    let mut rest = bytes;
    let mut count = 0;
    while !rest.is_empty() {
        let (line, more) = first_line(rest);
        count += 1;
        push_line(&mut numbers, count, line, &mut symbol)?;
        rest = more;
    }
    Ok(numbers.into_vec())
}

/// Appends the number of the symbol of a line, if the line is not skipped.
fn push_line(
    numbers: &mut Items<u32>,
    count: u32,
    line: &[u8],
    symbol: &mut [bool],
) -> Result<(), SymbolFail>
    requires { length symbol.old ≤ 32 }
    ensures ok { OnOk result (AddedLine (length symbol.old) (line_of count line.now) numbers.old numbers.new) }
    ensures err { IfErr result (TellsRefusedLine (length symbol.old) (line_of count line.now)) }
{
    match read_line(line, symbol) {
        Said::Nothing => Ok(()),
        Said::Symbol => Ok(numbers.push(number_in(symbol))?),
        Said::Other => Err(SymbolFail::Refused { line: count }),
    }
}

/// The number of a symbol.
fn number_in(symbol: &[bool]) -> u32
    requires { length symbol.now ≤ 32 }
    ensures { result ≡ number_of symbol.now }
{
    let mut number = 0;
    for bit in symbol {
        number = number * 2 + u32::from(*bit);
    }
    number
}
