//! The answers of a machine.

ghost use Rattle.std.specs.Prelude.{◌≡◌, ◌<◌, ◌≤◌, ◌^◌, All, length, map};
ghost use Rattle.answers.specs.Outcome.{IsJudged};
ghost use Rattle.cubes.specs.Symbol.{symbol_of};
ghost use Rattle.net_sim.specs.Symbols.{IsSymbolFile};
ghost use Rattle.symbol_runs.specs.Causes.{BadSymbolRow};
ghost use Rattle.symbol_runs.specs.Texts.{IsWalkText};

use crate::lines::answer_lines;
use answers::Refusal;
use machine_table::Machine;
use net_sim::{SymbolFail, read_symbols};
use std::alloc::Global;

/// The text of the answers of a machine, from its reset state on, to the symbols of a file.
pub fn walk(alloc: Global, machine: &Machine, symbols: &[u8]) -> Result<Vec<u8>, Refusal>
    requires { length symbols.now < 2 ^ 32 }
    ensures { IsJudged (BadSymbolRow machine.now.inputs symbols.now)
        (λ text. IsWalkText machine.now symbols.now text.items) result }
{
    let word = numbers_of(alloc, machine.inputs(), symbols)?;
    let outputs = machine.walk(alloc, &word)?;
    Ok(answer_lines(alloc, machine.outputs(), &outputs)?)
}

/// The numbers of the symbols of a file.
fn numbers_of(alloc: Global, inputs: u8, symbols: &[u8]) -> Result<Vec<u32>, Refusal>
    requires inputs { inputs ≤ 32 }
    requires short { length symbols.now < 2 ^ 32 }
    ensures { IsJudged (BadSymbolRow inputs symbols.now)
        (λ word. IsSymbolFile inputs symbols.now (map (symbol_of inputs) word.items)
        × All (λ x. x < 2 ^ inputs) word.items) result }
{
    match read_symbols(alloc, inputs, symbols) {
        Ok(word) => Ok(word),
        Err(SymbolFail::Refused { line }) => Err(Refusal::BadSymbol { line }),
        Err(SymbolFail::NoMemory) => Err(Refusal::NoMemory),
    }
}
