//! The numbers of signals.

ghost use Rattle.std.specs.Prelude.{
  ◌≡◌,
  ◌<◌,
  ℕ,
  List,
  [],
  ◌∷◌,
  ◌++◌,
  Contains,
  IfErr,
  IfNone,
  IfOk,
  IfSome,
  MatchOption,
  OnOk,
  Some,
  length,
  map,
  slice_get,
};
ghost use Rattle.std.specs.List.{AllZip, flat_map};
ghost use Rattle.net_core.specs.Causes.{AreOnce};
ghost use Rattle.net_core.specs.Order.{AreAt, IsNumbered};
ghost use Rattle.net_core.specs.SoundNetwork.{driven_by, drivers_of};
ghost use Rattle.net_core.specs.Inner.Failures.{TellsAgain, TellsOutside};

use crate::causes::NetFail;
use crate::gate_order::NumberedGate;
use crate::{Gate, Latch, Network};
use hs_io::{Name, copied_names};
use hs_list::Items;
use std::alloc::{AllocError, Global};
use std::collections::BTreeMap;
use std::marker::Model;

/// The names of the signals of a network, each once, numbered from 0 in the order in which they came. The
/// numbers are in a map in the order of the names: a hash map with a fixed seed would be slow for names that
/// are made to collide.
#[derive(Drop)]
pub(crate) struct Signals {
    alloc: Global,
    names: Vec<Name>,
    numbers: BTreeMap<Vec<u8>, usize>,
}

impl Model for Signals {
    ghost use Rattle.std.specs.Prelude.{ℕ, List};
    ghost use Rattle.net_core.specs.Causes.{AreOnce};
    ghost use Rattle.net_core.specs.Inner.NameNumbers.{AreKeyed};

    ghost Value = { List (List ℕ) };

    ghost view = { λ s. s.names.items };

    ghost invariant = { λ s. AreOnce s.names.items × AreKeyed s.names.items s.numbers };
}

impl Signals {
    fn new(alloc: Global) -> Signals
        ensures { result ≡ [] }
    {
        Signals {
            alloc,
            names: Vec::new(alloc),
            numbers: BTreeMap::new(alloc),
        }
    }

    /// How many signals there are.
    pub(crate) fn count(&self) -> usize
        ensures count { result ≡ length self.now }
        ensures once { AreOnce self.now }
    {
        self.names.len()
    }

    /// The number of the signal of this name, if there is one.
    fn number(&self, name: &[u8]) -> Option<usize>
        ensures some { IfSome result (λ number. slice_get self.now number ≡ Some name.now) }
        ensures none { IfNone result (¬ Contains self.now name.now) }
    {
        self.numbers.get(name).copied()
    }

    /// Adds a signal that is driven.
    fn add(&mut self, name: &Name) -> Result<(), NetFail>
        ensures ok { OnOk result (self.new ≡ self.old ++ name.now ∷ []) }
        ensures err { IfErr result (TellsAgain (self.old ++ name.now ∷ [])) }
    {
        match self.number(name.bytes()) {
            Some(_) => {
                let name = Name::new(self.alloc, name.bytes())?;
                Err(NetFail::TwoDrivers { name })
            }
            None => Ok(self.insert(name.bytes())?),
        }
    }

    /// Adds a signal of a new name.
    fn insert(&mut self, name: &[u8]) -> Result<(), AllocError>
        requires { ¬ Contains self.old name.now }
        ensures { OnOk result (self.new ≡ self.old ++ name.now ∷ []) }
    {
        let number = self.names.len();
        let key = Vec::from_slice(self.alloc, name)?;
        self.names.push(Name::new(self.alloc, name)?)?;
        match self.numbers.insert(key, number) {
            Ok(_) => Ok(()),
            Err(_) => {
                self.names.pop();
                Err(AllocError)
            }
        }
    }

    fn add_inputs(&mut self, names: &[Name]) -> Result<(), NetFail>
        ensures ok { OnOk result (self.new ≡ self.old ++ names.now) }
        ensures err { IfErr result (TellsAgain (self.old ++ names.now)) }
    {
        for name in names {
            self.add(name)?;
        }
        Ok(())
    }

    fn add_latches(&mut self, latches: &[Latch]) -> Result<(), NetFail>
        ensures ok { OnOk result (self.new ≡ self.old ++ map (λ latch. latch.output) latches.now) }
        ensures err { IfErr result (TellsAgain (self.old ++ map (λ latch. latch.output) latches.now)) }
    {
        for latch in latches {
            self.add(&latch.output)?;
        }
        Ok(())
    }

    fn add_gates(&mut self, gates: &[Gate]) -> Result<(), NetFail>
        ensures ok { OnOk result (self.new ≡ self.old ++ driven_by gates.now) }
        ensures err { IfErr result (TellsAgain (self.old ++ driven_by gates.now)) }
    {
        for gate in gates {
            self.add(&gate.output)?;
        }
        Ok(())
    }

    /// The signals that a network drives, or the first name that it drives again.
    pub(crate) fn of(alloc: Global, net: &Network) -> Result<Signals, NetFail>
        ensures ok { IfOk result (λ signals. signals ≡ drivers_of net.now) }
        ensures err { IfErr result (TellsAgain (drivers_of net.now)) }
    {
        let mut signals = Signals::new(alloc);
        signals.add_inputs(net.inputs.as_slice())?;
        signals.add_latches(net.latches.as_slice())?;
        signals.add_gates(net.gates.as_slice())?;
        Ok(signals)
    }

    /// The number of a signal that is used.
    fn used(&self, name: &Name) -> Result<usize, NetFail>
        ensures ok { IfOk result (λ number. slice_get self.now number ≡ Some name.now) }
        ensures err { IfErr result (TellsOutside self.now (name.now ∷ [])) }
    {
        match self.number(name.bytes()) {
            Some(number) => Ok(number),
            None => {
                let name = Name::new(self.alloc, name.bytes())?;
                Err(NetFail::Undriven { name })
            }
        }
    }

    /// The numbers of signals that are used.
    pub(crate) fn numbers(&self, names: &[Name]) -> Result<Vec<usize>, NetFail>
        ensures ok { IfOk result (λ numbers. AreAt self.now numbers.items names.now) }
        ensures err { IfErr result (TellsOutside self.now names.now) }
    {
        let mut numbers = Items::new(self.alloc);
        for name in names {
            let number = self.used(name)?;
            numbers.push(number)?;
        }
        Ok(numbers.into_vec())
    }

    /// The numbers of the latch inputs.
    pub(crate) fn latch_inputs(&self, latches: &[Latch]) -> Result<Vec<usize>, NetFail>
        ensures ok { IfOk result (λ numbers. AreAt self.now numbers.items (map (λ latch. latch.input) latches.now)) }
        ensures err { IfErr result (TellsOutside self.now (map (λ latch. latch.input) latches.now)) }
    {
        let mut numbers = Items::new(self.alloc);
        for latch in latches {
            let number = self.used(&latch.input)?;
            numbers.push(number)?;
        }
        Ok(numbers.into_vec())
    }

    /// A gate, with numbers for its inputs.
    fn numbered(&self, gate: &Gate) -> Result<NumberedGate, NetFail>
        ensures ok { IfOk result (IsNumbered self.now gate.now) }
        ensures err { IfErr result (TellsOutside self.now gate.now.inputs) }
    {
        Ok(NumberedGate {
            inputs: self.numbers(gate.inputs.as_slice())?,
            rows: copied_names(self.alloc, gate.rows.as_slice())?,
            on: gate.on,
        })
    }

    /// The gates in order, with numbers for their inputs.
    pub(crate) fn gates(&self, gates: &[Gate]) -> Result<Vec<NumberedGate>, NetFail>
        ensures ok { IfOk result (λ numbered. AllZip (IsNumbered self.now) gates.now numbered.items) }
        ensures err { IfErr result (TellsOutside self.now (flat_map (λ gate. gate.inputs) gates.now)) }
    {
        let mut numbered = Items::new(self.alloc);
        for gate in gates {
            let next = self.numbered(gate)?;
            numbered.push(next)?;
        }
        Ok(numbered.into_vec())
    }
}
