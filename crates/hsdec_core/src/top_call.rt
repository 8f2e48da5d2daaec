//! The top call.

ghost use Rattle.std.specs.Prelude.{
  ◌≡◌,
  ◌≢◌,
  ◌-◌,
  ◌^◌,
  ◌<◌,
  ◌≤◌,
  ◌↔◌,
  ◌⊎◌,
  ℕ,
  [],
  List,
  IfOk,
  IfSome,
  IsErr,
  false,
  length,
};
ghost use Rattle.answers.specs.declared.refusals.Refusal.{Refusal};
ghost use Rattle.answers.specs.Cause.{CallsForNone};
ghost use Rattle.answers.specs.Delivery.{LinePut};
ghost use Rattle.answers.specs.Refusal.{answer_of, line_of};
ghost use Rattle.hs_io.specs.Counts.{Rose};
ghost use Rattle.hs_io.specs.Pieces.{Appends, AppendsFront};
ghost use Rattle.hsdec_core.specs.Judgement.{all_causes, first_cause};
ghost use Rattle.hsdec_core.specs.Operands.{AreGranted, IfAllTold, IfTold, takes_file};
ghost use Rattle.hsdec_core.specs.Promise.{IsAsked, IsAskedOrShown, IsDecompositionOf, IsEvidence};
ghost use Rattle.hsdec_core.specs.Refusals.{Comes, IsRefusalOfWords};
ghost use Rattle.hsdec_core.specs.Task.{kind_of, task_of};
ghost use Rattle.job_words.specs.Job.{JobOf};

use crate::job_outcome::perform;
use answers::{Answer, deliver};
use hs_io::{Shelf, Sink};
use job_words::Words;
use std::alloc::Global;

/// Does what the words ask for: loads files from the shelf, puts the text to `out`, and a line to `err`
/// with every answer but `Done`.
pub fn run<F: Shelf, O: Sink, E: Sink>(
    alloc: Global,
    words: &Words,
    shelf: &mut F,
    out: &mut O,
    err: &mut E,
) -> Answer
    requires few { length words.now < 2 ^ 32 - 1 }
    requires granted { IfOk (JobOf words.now) (AreGranted (F.grants shelf.old)) }

    // Every answer but `Done` is the answer of a refusal that has its cause, and this refusal's line goes to
    // err.
    ensures refused { result ≢ Answer.Done → (refusal : Refusal) × (answer_of refusal ≡ result)
        × IsRefusalOfWords (JobOf words.now) (F.holds shelf.old)
        (Rose (F.faults shelf.old) (F.faults shelf.new)) (Rose (O.faults out.old) (O.faults out.new)) refusal
        × LinePut (line_of refusal) (E.given err.old) (E.given err.new) (E.faults err.old) (E.faults err.new) }

    ensures read_fault { result ≡ Answer.ReadFault → Rose (F.faults shelf.old) (F.faults shelf.new) }
    ensures write_fault { result ≡ Answer.WriteFault → Rose (O.faults out.old) (O.faults out.new) }

    // What is called for is answered: refused words, what FILE or NET calls for, and what all loaded operands
    // together call for.
    ensures usage { IsErr (JobOf words.now) → (result ≡ Answer.Usage) ⊎ (result ≡ Answer.NoMemory) }
    ensures comes { IfTold words.now (F.holds shelf.old) (λ job bytes. Comes result (first_cause job bytes)) }
    ensures all_come { IfAllTold words.now (F.holds shelf.old) (λ job bytes symbols.
        Comes result (all_causes job bytes symbols)) }

    // Where nothing calls for a refusal and no count rises, the job is done or memory ran out.
    ensures complete { IfAllTold words.now (F.holds shelf.old)
        (λ job bytes symbols. CallsForNone (all_causes job bytes symbols)
        → (Rose (F.faults shelf.old) (F.faults shelf.new) → ⊥) → (Rose (O.faults out.old) (O.faults out.new) → ⊥)
        → (result ≡ Answer.Done) ⊎ (result ≡ Answer.NoMemory)) }

    // A command that decomposes gives out a whole decomposition of the machine of its file. Every command gives
    // out the whole text that the job asks for, or the evidence that there are more than the limit. At
    // `WriteFault` it gives out a front of either, where there is something to put; at any other refusal
    // nothing. An empty text is not put.
    ensures headline { result ≡ Answer.Done
        → IfOk (JobOf words.now) (λ job. IfSome (kind_of (task_of job.command)) (λ kind.
        (text : List ℕ) × IsDecompositionOf kind job (F.holds shelf.old) text
        × Appends (O.given out.old) text (O.given out.new))) }
    ensures text { result ≡ Answer.Done → IfOk (JobOf words.now) (λ job. (text : List ℕ)
        × IsAsked job (F.holds shelf.old) text × Appends (O.given out.old) text (O.given out.new)
        × (text ≡ [] → out.new ≡ out.old)) }
    ensures evidence { result ≡ Answer.More → IfOk (JobOf words.now) (λ job. (text : List ℕ)
        × IsEvidence job (F.holds shelf.old) text × Appends (O.given out.old) text (O.given out.new)) }
    ensures front { result ≡ Answer.WriteFault → IfOk (JobOf words.now) (λ job. (text : List ℕ) × (text ≢ [])
        × IsAskedOrShown job (F.holds shelf.old) text × AppendsFront (O.given out.old) text (O.given out.new)) }
    ensures untouched { result ≢ Answer.Done → result ≢ Answer.More → result ≢ Answer.WriteFault
        → out.new ≡ out.old }
    ensures silent { result ≡ Answer.Done → err.new ≡ err.old }

    // The shelf holds and grants what it did, and no count falls. A job without an operand loads nothing.
    ensures unloaded { IsErr (JobOf words.now) → shelf.new ≡ shelf.old }
    ensures no_operand { IfOk (JobOf words.now)
        (λ job. takes_file (task_of job.command) ≡ false → shelf.new ≡ shelf.old) }
    ensures holds_the_same { (other : List ℕ) → F.holds shelf.new other ≡ F.holds shelf.old other }
    ensures grants_the_same { (other : List ℕ) → F.grants shelf.new other ↔ F.grants shelf.old other }
    ensures shelf_never_falls { F.faults shelf.old ≤ F.faults shelf.new }
    ensures out_never_falls { O.faults out.old ≤ O.faults out.new }
    ensures err_never_falls { E.faults err.old ≤ E.faults err.new }
{
    let made = perform(alloc, words, shelf);
    deliver(alloc, made, out, err)
}
