//! Putting what a command made.

ghost use Rattle.std.specs.Prelude.{◌≡◌, ◌≢◌, ◌≤◌, ◌⊎◌, [], OnOk, OnErr};
ghost use Rattle.answers.specs.declared.numbers.Answer.TheVariants as answers;
ghost use Rattle.answers.specs.declared.refusals.Refusal as refusals;
ghost use Rattle.answers.specs.declared.refusals.Refusal.TheVariants.{NoMemory};
ghost use Rattle.answers.specs.Delivery.{IsDone, IsRefusedWith, LinePut};
ghost use Rattle.answers.specs.Refusal.{answer_of, line_of};
ghost use Rattle.hs_io.specs.Counts.{Rose};
ghost use Rattle.hs_io.specs.Pieces.{Appends, AppendsFront};

use crate::numbers::Answer;
use crate::refusals::Refusal;
use crate::reports::Page;
use hs_io::{Sink, SinkFail};
use hs_texts::err_lines::{self, CANNOT_WRITE, NO_MEMORY};
use std::alloc::Global;

/// Puts what a command made: the text to `out`, and then the line of every answer but `Done` to `err`. The line
/// is made before the text is put, so that all memory is taken first. An empty text is not put. Whether the
/// line can be put does not change the answer.
pub fn deliver<O: Sink, E: Sink>(
    alloc: Global,
    made: Result<Page, Refusal>,
    out: &mut O,
    err: &mut E,
) -> Answer
    ensures done { result ≡ answers.Done → IsDone made (O.given out.old) (O.given out.new) (out.new ≡ out.old) }
    ensures refused { result ≢ answers.Done → (refusal : refusals.Refusal) × (answer_of refusal ≡ result)
        × IsRefusedWith made (O.given out.old) (O.given out.new) (Rose (O.faults out.old) (O.faults out.new)) refusal
        × LinePut (line_of refusal) (E.given err.old) (E.given err.new) (E.faults err.old) (E.faults err.new) }
    ensures untouched { result ≢ answers.Done → result ≢ answers.More → result ≢ answers.WriteFault
        → out.new ≡ out.old }
    ensures silent { result ≡ answers.Done → err.new ≡ err.old }
    ensures out_never_falls { O.faults out.old ≤ O.faults out.new }
    ensures err_never_falls { E.faults err.old ≤ E.faults err.new }
{
    match made {
        Ok(Page::Whole(text)) => match put_text(text.as_slice(), out) {
            Ok(()) => Answer::Done,
            Err(_) => answer(Answer::WriteFault, CANNOT_WRITE, err),
        },
        Ok(Page::Evidence { text, limit }) => {
            let Ok(line) = err_lines::more(alloc, limit) else {
                return answer(Answer::NoMemory, NO_MEMORY, err);
            };
            match put_text(text.as_slice(), out) {
                Ok(()) => answer(Answer::More, line.as_slice(), err),
                Err(_) => answer(Answer::WriteFault, CANNOT_WRITE, err),
            }
        }
        Err(refusal) => refuse(alloc, &refusal, err),
    }
}

/// Puts a text, if there is one.
fn put_text<O: Sink>(text: &[u8], out: &mut O) -> Result<(), SinkFail>
    ensures whole { OnOk result (Appends (O.given out.old) text.now (O.given out.new)) }
    ensures front { OnErr result (AppendsFront (O.given out.old) text.now (O.given out.new)) }
    ensures failed { OnErr result (Rose (O.faults out.old) (O.faults out.new)) }
    ensures some { OnErr result (text.now ≢ []) }
    ensures none { text.now ≡ [] → out.new ≡ out.old }
    ensures never_falls { O.faults out.old ≤ O.faults out.new }
{
    if text.is_empty() {
        return Ok(());
    }
    out.put(text)
}

/// Gives the answer of a refusal, and hands its line to err.
fn refuse<E: Sink>(alloc: Global, refusal: &Refusal, err: &mut E) -> Answer
    ensures told { (told : refusals.Refusal) × ((told ≡ refusal.now) ⊎ (told ≡ NoMemory)) × (result ≡ answer_of told)
        × LinePut (line_of told) (E.given err.old) (E.given err.new) (E.faults err.old) (E.faults err.new) }
    ensures never_falls { E.faults err.old ≤ E.faults err.new }
{
    match refusal.line(alloc) {
        Ok(line) => answer(refusal.answer(), line.as_slice(), err),
        Err(_) => answer(Answer::NoMemory, NO_MEMORY, err),
    }
}

/// Gives an answer, and hands its line to err.
fn answer<E: Sink>(answer: Answer, line: &[u8], err: &mut E) -> Answer
    ensures answer { result ≡ answer }
    ensures line { LinePut line.now (E.given err.old) (E.given err.new) (E.faults err.old) (E.faults err.new) }
    ensures never_falls { E.faults err.old ≤ E.faults err.new }
{
    let _ = err.put(line);
    answer
}
