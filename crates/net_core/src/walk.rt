//! An order of gates, or a cycle of them: a walk goes from each gate to the gates that it needs, and places it
//! after them.

ghost use Rattle.std.specs.Prelude.{
  ◌≡◌,
  ℕ,
  ◌+◌,
  ◌-◌,
  ◌<◌,
  ◌≤◌,
  ◌^◌,
  List,
  [],
  ◌∷◌,
  ◌++◌,
  All,
  Contains,
  IfErr,
  IfOk,
  OnOk,
  Some,
  length,
  map,
  slice_get,
  slice_set,
};
ghost use Rattle.net_core.specs.Inner.Walk.{
  IsLook,
  IsPath,
  IsStanding,
  IsSequence,
  RisesAt,
  TellsCycle,
  ReadsWithin,
  Walks,
  reads_of,
  last_stage,
  stage_of,
};

use crate::cycle::cycle_of;
use crate::gate_order::NumberedGate;
use std::alloc::{AllocError, Global};

/// Why a walk stops.
#[derive(Drop)]
pub(crate) enum Stop {
    /// A cycle: each gate needs the next one, and the last gate needs the first.
    Cycle(Vec<usize>),
    NoMemory,
}

impl From<AllocError> for Stop {
    ghost use Rattle.std.specs.Prelude.{◌≡◌};
    ghost use Rattle.net_core.specs.declared.walk.Stop.TheVariants.{NoMemory};

    ghost from_gives = { λ _ stop. stop ≡ NoMemory };

    fn from(_: AllocError) -> Self {
        Stop::NoMemory
    }
}

/// What the walk finds at the last gate of its path.
#[derive(Clone, Copy)]
enum Look {
    /// It has looked at all inputs.
    Whole,
    /// The next input has its value: no gate drives it, or one that is placed.
    Settled,
    /// The walk has not reached the gate that drives the next input.
    New(usize),
    /// The gate that drives the next input is on the path.
    Open(usize),
}

/// The state of a walk. The stage of a gate is 0 before the walk reaches it. On the path it is one more than
/// the number of its inputs that the walk has looked at. Once the gate is placed, it is two more than the
/// number of its inputs.
#[derive(Drop)]
pub(crate) struct Walk {
    stages: Vec<usize>,
    path: Vec<usize>,
    placed: Vec<usize>,
}

/// The places of the gates in an order of evaluation, or those of a cycle. The gates drive the signals from
/// number `base` on.
pub(crate) fn sequence(
    alloc: Global,
    base: usize,
    gates: &[NumberedGate],
) -> Result<Vec<usize>, Stop>
    requires within { ReadsWithin (base + length gates.now) (reads_of gates.now) }
    ensures ok { IfOk result (λ places. IsSequence base (reads_of gates.now) places.items) }
    ensures err { IfErr result (TellsCycle base (reads_of gates.now)) }
{
    let mut walk = Walk::new(alloc, base, gates)?;
    for gate in 0..gates.len() {
        walk.place(alloc, base, gates, gate)?;
    }
    Ok(walk.placed)
}

impl Walk {
    fn new(alloc: Global, base: usize, gates: &[NumberedGate]) -> Result<Walk, AllocError>
        ensures walk { IfOk result (Walks base gates.now) }
        ensures path { IfOk result (λ walk. walk.path.items ≡ []) }
    {
        Ok(Walk {
            stages: vec![in alloc; 0; gates.len()]?,
            path: Vec::new(alloc),
            placed: Vec::new(alloc),
        })
    }

    /// Places a gate after all gates that it needs.
    fn place(
        &mut self,
        alloc: Global,
        base: usize,
        gates: &[NumberedGate],
        gate: usize,
    ) -> Result<(), Stop>
        requires within { ReadsWithin (base + length gates.now) (reads_of gates.now) }
        requires walk { Walks base gates.now self.old }
        requires path { self.old.path.items ≡ [] }
        requires gate { gate < length gates.now }
        ensures walk { OnOk result (Walks base gates.now self.new) }
        ensures path { OnOk result (self.new.path.items ≡ []) }
        ensures started { OnOk result (0 < stage_of self.new gate) }
        ensures kept { OnOk result ((g : ℕ) → stage_of self.old g ≤ stage_of self.new g) }
        ensures err { IfErr result (TellsCycle base (reads_of gates.now)) }
    {
        if self.stages[gate] == 0 {
            self.enter(base, gates, gate)?;
        }
        while let Some(&top) = self.path.last() {
            self.step(alloc, base, gates, top)?;
        }
        Ok(())
    }

    /// One step at the last gate of the path.
    fn step(
        &mut self,
        alloc: Global,
        base: usize,
        gates: &[NumberedGate],
        top: usize,
    ) -> Result<(), Stop>
        requires within { ReadsWithin (base + length gates.now) (reads_of gates.now) }
        requires walk { Walks base gates.now self.old }
        requires top { slice_get self.old.path.items (length self.old.path.items - 1) ≡ Some top }
        ensures walk { OnOk result (Walks base gates.now self.new) }
        ensures rises { OnOk result ((g : ℕ) × (g < length gates.now) × RisesAt g self.old self.new) }
        ensures err { IfErr result (TellsCycle base (reads_of gates.now)) }
    {
        match self.look(base, gates, top) {
            Look::Whole => self.finish(base, gates, top)?,
            Look::Settled => self.advance(base, gates, top),
            Look::New(next) => self.enter(base, gates, next)?,
            Look::Open(next) => return Err(Stop::Cycle(cycle_of(alloc, &self.path, next)?)),
        }
        Ok(())
    }

    /// What the walk finds at a gate of its path.
    fn look(&self, base: usize, gates: &[NumberedGate], top: usize) -> Look
        requires within { ReadsWithin (base + length gates.now) (reads_of gates.now) }
        requires walk { Walks base gates.now self.now }
        requires top { Contains self.now.path.items top }
        requires gate { top < length gates.now }
        ensures { IsLook base (reads_of gates.now) self.now top result }
    {
        let gate = &gates[top];
        let looked_at = self.stages[top] - 1;
        if looked_at == gate.inputs.len() {
            return Look::Whole;
        }
        let signal = gate.inputs[looked_at];
        if signal < base {
            return Look::Settled;
        }
        self.standing(gates, signal - base)
    }

    /// How far the walk has come with the gate that drives an input.
    fn standing(&self, gates: &[NumberedGate], next: usize) -> Look
        requires count { length self.now.stages.items ≡ length gates.now }
        requires gate { next < length gates.now }
        ensures { IsStanding (reads_of gates.now) self.now next result }
    {
        let gate = &gates[next];
        let stage = self.stages[next];
        if stage == 0 {
            Look::New(next)
        } else if stage - 1 > gate.inputs.len() {
            Look::Settled
        } else {
            Look::Open(next)
        }
    }

    /// Puts a new gate on the path.
    fn enter(&mut self, base: usize, gates: &[NumberedGate], gate: usize) -> Result<(), AllocError>
        requires walk { Walks base gates.now self.old }
        requires gate { gate < length gates.now }
        requires new { stage_of self.old gate ≡ 0 }
        requires path { IsPath base (reads_of gates.now) (self.old.path.items ++ gate ∷ []) }
        ensures walk { OnOk result (Walks base gates.now self.new) }
        ensures rises { OnOk result (RisesAt gate self.old self.new) }
    {
        self.path.push(gate)?;
        self.stages[gate] = 1;
        Ok(())
    }

    /// Goes on to the next input of the last gate of the path.
    fn advance(&mut self, base: usize, gates: &[NumberedGate], top: usize)
        requires walk { Walks base gates.now self.old }
        requires top { Contains self.old.path.items top }
        requires settled { IsLook base (reads_of gates.now) self.old top Look.Settled }
        ensures walk { Walks base gates.now self.new }
        ensures rises { RisesAt top self.old self.new }
    {
        self.stages[top] += 1;
    }

    /// Places the last gate of the path.
    fn finish(&mut self, base: usize, gates: &[NumberedGate], top: usize) -> Result<(), AllocError>
        requires walk { Walks base gates.now self.old }
        requires top { slice_get self.old.path.items (length self.old.path.items - 1) ≡ Some top }
        requires whole { IsLook base (reads_of gates.now) self.old top Look.Whole }
        ensures walk { OnOk result (Walks base gates.now self.new) }
        ensures rises { OnOk result (RisesAt top self.old self.new) }
    {
        self.placed.push(top)?;
        self.path.pop();
        self.stages[top] += 1;
        Ok(())
    }
}
