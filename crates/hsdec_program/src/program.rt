//! What the program does with its arguments.

ghost use Rattle.std.specs.Prelude.{◌≡◌, ◌≢◌, ℕ, ◌-◌, ◌^◌, ◌<◌, List, IfOk, length};
ghost use Rattle.answers.specs.Answer.{answer_code};
ghost use Rattle.answers.specs.Delivery.{LinePut};
ghost use Rattle.hs_io.specs.Counts.{Rose};
ghost use Rattle.job_words.specs.Job.{JobOf};
ghost use Rattle.hsdec_core.specs.Operands.{AreGranted};
ghost use Rattle.hsdec_program.specs.Status.{IsAnswerTo, IsAnswered};
ghost use Rattle.hsdec_program.specs.Words.{AreTold};

use crate::arguments::{Arguments, words_of};
use crate::help::page_of;
use answers::{Bytes, Page, Refusal, deliver};
use hs_io::{Shelf, Sink};
use hsdec_core::{Answer, run};
use job_words::Words;
use std::alloc::Global;

/// The exit status of the program. `--help` and `--version` are answered here, everything else by `run`. Only
/// the operands of a job are loaded.
pub fn status<A: Arguments, F: Shelf, O: Sink, E: Sink>(
    alloc: Global,
    arguments: &A,
    shelf: &mut F,
    out: &mut O,
    err: &mut E,
) -> u8
    requires { (words : List (List ℕ)) → AreTold (A.given arguments.now) words
        → IfOk (JobOf words) (AreGranted (F.grants shelf.old)) }

    // It is the number of the answer to the words of the arguments, unless memory runs out. The answer is the
    // one that they and the texts of the shelf call for, and out is given what they ask for.
    ensures { (answer : Answer) × (result ≡ answer_code answer) × (words : List (List ℕ))
        × IsAnswered (A.given arguments.now) words (record {
          holds = F.holds shelf.old;
          shelf_faulted = Rose (F.faults shelf.old) (F.faults shelf.new);
          out_faulted = Rose (O.faults out.old) (O.faults out.new);
          out_before = O.given out.old;
          out_after = O.given out.new;
          out_stays = out.new ≡ out.old;
          err_stays = err.new ≡ err.old;
          err_takes = λ line. LinePut line (E.given err.old) (E.given err.new) (E.faults err.old) (E.faults err.new);
        }) answer }
{
    let answer = answer_to_arguments(alloc, arguments, shelf, out, err);
    answer.code()
}

/// The answer to the arguments.
fn answer_to_arguments<A: Arguments, F: Shelf, O: Sink, E: Sink>(
    alloc: Global,
    arguments: &A,
    shelf: &mut F,
    out: &mut O,
    err: &mut E,
) -> Answer
    requires { (words : List (List ℕ)) → AreTold (A.given arguments.now) words
        → IfOk (JobOf words) (AreGranted (F.grants shelf.old)) }
    ensures { (words : List (List ℕ)) × IsAnswered (A.given arguments.now) words (record {
      holds = F.holds shelf.old;
      shelf_faulted = Rose (F.faults shelf.old) (F.faults shelf.new);
      out_faulted = Rose (O.faults out.old) (O.faults out.new);
      out_before = O.given out.old;
      out_after = O.given out.new;
      out_stays = out.new ≡ out.old;
      err_stays = err.new ≡ err.old;
      err_takes = λ line. LinePut line (E.given err.old) (E.given err.new) (E.faults err.old) (E.faults err.new);
    }) result }
{
    match words_of(alloc, arguments) {
        Ok(words) => answer_to_words(alloc, &words, shelf, out, err),
        Err(_) => deliver(alloc, Err(Refusal::NoMemory), out, err),
    }
}

/// The answer to the words.
fn answer_to_words<F: Shelf, O: Sink, E: Sink>(
    alloc: Global,
    words: &Words,
    shelf: &mut F,
    out: &mut O,
    err: &mut E,
) -> Answer
    requires few { length words.now < 2 ^ 32 - 1 }
    requires granted { IfOk (JobOf words.now) (AreGranted (F.grants shelf.old)) }
    ensures answer { IsAnswerTo words.now (record {
      holds = F.holds shelf.old;
      shelf_faulted = Rose (F.faults shelf.old) (F.faults shelf.new);
      out_faulted = Rose (O.faults out.old) (O.faults out.new);
      out_before = O.given out.old;
      out_after = O.given out.new;
      out_stays = out.new ≡ out.old;
      err_stays = err.new ≡ err.old;
      err_takes = λ line. LinePut line (E.given err.old) (E.given err.new) (E.faults err.old) (E.faults err.new);
    }) result }
    ensures read_fault { result ≡ Answer.ReadFault → Rose (F.faults shelf.old) (F.faults shelf.new) }
    ensures write_fault { result ≡ Answer.WriteFault → Rose (O.faults out.old) (O.faults out.new) }
    ensures untouched { result ≢ Answer.Done → result ≢ Answer.More → result ≢ Answer.WriteFault
        → out.new ≡ out.old }
    ensures silent { result ≡ Answer.Done → err.new ≡ err.old }
{
    match page_of(alloc, words) {
        Ok(None) => run(alloc, words, shelf, out, err),
        Ok(Some(page)) => deliver(alloc, Ok(Page::Whole(Bytes::from(page))), out, err),
        Err(_) => deliver(alloc, Err(Refusal::NoMemory), out, err),
    }
}
