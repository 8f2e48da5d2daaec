//! Runs a network on a file of symbols.

ghost use Rattle.std.specs.Prelude.{
  ◌≡◌,
  ℕ,
  ◌+◌,
  ◌<◌,
  ◌≤◌,
  ◌^◌,
  ◌⊎◌,
  List,
  [],
  ◌++◌,
  IfErr,
  IfOk,
  MatchResult,
  OnOk,
  length,
};
ghost use Rattle.std.specs.Option.{option_copied};
ghost use Rattle.hs_io.specs.Lines.{line_of};
ghost use Rattle.hs_io.specs.Spelling.{ended};
ghost use Rattle.net_core.specs.Order.{IsOrderOf};
ghost use Rattle.net_core.specs.SoundNetwork.{Sound};
ghost use Rattle.net_sim.specs.declared.causes.SimFail.{SimFail};
ghost use Rattle.net_sim.specs.declared.causes.SimFail.TheVariants.{NoMemory};
ghost use Rattle.net_sim.specs.BitTexts.{text_of_bits};
ghost use Rattle.net_sim.specs.Run.{IsRunCause, IsOfInput, IsRun};
ghost use Rattle.net_sim.specs.Inner.RunProgress.{Fits, Goes, HasAnswered, TookLine};
ghost use Rattle.net_sim.specs.Inner.Failures.{TellsLine, TellsSymbol};

use crate::SimFail;
use crate::bit_texts::append_answer;
use crate::forms::{GateForm, forms_of};
use crate::starts::start_of;
use crate::step::step_by;
use crate::symbol_line::{Said, read_line};
use hs_io::first_line;
use hs_list::Items;
use net_core::{Network, Order};
use std::alloc::{AllocError, Global};

/// The text of the answers of a network to the symbols of a file, from the given start or else from its own.
/// For an empty file it judges only the start, and does not look at the gates. It takes memory for the forms of
/// the gates and for the text, and none besides for a symbol.
pub fn run(
    alloc: Global,
    net: &Network,
    order: &Order,
    start: Option<&[u8]>,
    symbols: &[u8],
) -> Result<Vec<u8>, SimFail>
    requires sound { Sound net.now }
    requires order { IsOrderOf net.now order.now }
    requires short { length symbols.now < 2 ^ 32 }
    ensures ran { IfOk result (λ text. IsRun net.now (option_copied start.entry) symbols.now text.items) }
    ensures cause { IfErr result (IsRunCause net.now (option_copied start.entry) symbols.now) }
    ensures never_refused { (text : List ℕ) → IsRun net.now (option_copied start.entry) symbols.now text
        → MatchResult result (λ answer. answer.items ≡ text) (λ fail. fail ≡ NoMemory) }
    ensures never_run { (fail : SimFail) → IsOfInput fail
        → IsRunCause net.now (option_copied start.entry) symbols.now fail
        → MatchResult result (λ _. ⊥) (λ told. (told ≡ fail) ⊎ (told ≡ NoMemory)) }
{
    judged(alloc, net, order, start, symbols)
}

/// The text of the answers, or the first cause why there is none.
fn judged(
    alloc: Global,
    net: &Network,
    order: &Order,
    start: Option<&[u8]>,
    symbols: &[u8],
) -> Result<Vec<u8>, SimFail>
    requires sound { Sound net.now }
    requires order { IsOrderOf net.now order.now }
    requires short { length symbols.now < 2 ^ 32 }
    ensures ran { IfOk result (λ text. IsRun net.now (option_copied start.entry) symbols.now text.items) }
    ensures cause { IfErr result (IsRunCause net.now (option_copied start.entry) symbols.now) }
{
    let state = start_of(alloc, net, start)?;
    answers_from(alloc, order, state, symbols)
}

/// The text of the answers from a state on.
fn answers_from(
    alloc: Global,
    order: &Order,
    state: Vec<bool>,
    symbols: &[u8],
) -> Result<Vec<u8>, SimFail>
    requires latches { length state.items ≡ order.now.latch_count }
    requires short { length symbols.now < 2 ^ 32 }
    ensures ok { IfOk result (λ text. HasAnswered order.now state.items symbols.now text.items) }
    ensures err { IfErr result (TellsSymbol order.now.input_count symbols.now) }
{
    if symbols.is_empty() {
        return Ok(Vec::new(alloc));
    }
    let most = symbols.len() / order.input_count.max(1);
    let mut runner = Runner::new(alloc, order, state, most)?;
    let mut rest = symbols;
    let mut count = 0;
    while !rest.is_empty() {
        let (line, more) = first_line(rest);
        count += 1;
        runner.take_line(order, count, line)?;
        rest = more;
    }
    Ok(runner.text)
}

/// A running network.
#[derive(Drop)]
struct Runner {
    /// The forms by which its gates are evaluated.
    forms: Items<GateForm>,
    /// The latch values.
    state: Vec<bool>,
    /// The current symbol, the answer to it, and room for the signals.
    symbol: Vec<bool>,
    answer: Vec<bool>,
    scratch: Vec<bool>,
    /// The text of the answers so far.
    text: Vec<u8>,
}

impl Runner {
    /// A network before the first of at most this many symbols.
    fn new(
        alloc: Global,
        order: &Order,
        state: Vec<bool>,
        symbols: usize,
    ) -> Result<Runner, AllocError>
        requires { length state.items ≡ order.now.latch_count }
        ensures fits { IfOk result (Fits order.now) }
        ensures state { IfOk result (λ runner. runner.state.items ≡ state.items) }
        ensures text { IfOk result (λ runner. runner.text.items ≡ []) }
    {
        Ok(Runner {
            forms: forms_of(alloc, &order.gates, symbols)?,
            state,
            symbol: vec![in alloc; false; order.input_count]?,
            answer: vec![in alloc; false; order.output_signals.len()]?,
            scratch: vec![in alloc; false; order.signal_count]?,
            text: Vec::new(alloc),
        })
    }

    /// Reads a line, and answers its symbol if it has one.
    fn take_line(&mut self, order: &Order, number: u32, line: &[u8]) -> Result<(), SimFail>
        requires { Fits order.now self.old }
        ensures fits { OnOk result (Fits order.now self.new) }
        ensures ok { OnOk result (TookLine order.now (line_of number line.now) self.old self.new) }
        ensures err { IfErr result (TellsLine order.now.input_count (line_of number line.now)) }
    {
        match read_line(line, &mut self.symbol) {
            Said::Nothing => Ok(()),
            Said::Symbol => Ok(self.take_symbol(order)?),
            Said::Other => Err(SimFail::BadSymbol { line: number }),
        }
    }

    /// Answers the symbol.
    fn take_symbol(&mut self, order: &Order) -> Result<(), AllocError>
        requires { Fits order.now self.old }
        ensures fits { OnOk result (Fits order.now self.new) }
        ensures goes { OnOk result
            (Goes order.now self.old.state.items self.old.symbol.items self.new.answer.items self.new.state.items) }
        ensures text { OnOk result
            (self.new.text.items ≡ self.old.text.items ++ ended (text_of_bits self.new.answer.items)) }
    {
        step_by(
            self.forms.as_slice(),
            order,
            &mut self.state,
            &self.symbol,
            &mut self.answer,
            &mut self.scratch,
        );
        append_answer(&mut self.text, &self.answer)
    }
}
