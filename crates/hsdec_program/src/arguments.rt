//! The arguments of the program, and their words.

ghost use Rattle.std.specs.Prelude.{◌≡◌, ℕ, ◌-◌, ◌^◌, ◌<◌, List, None, Option, IfOk, IfSome, length, slice_get};
ghost use Rattle.hsdec_program.specs.Words.{AreTold, IsWordOf};

use hs_io::Name;
use job_words::Words;
use std::alloc::{AllocError, Global};
use std::env::FillError;
use std::rt::Env;
use std::str;

/// The arguments after the program's name.
pub trait Arguments {
    /// All of them in order, where they are known.
    ghost given: { Self → Option (List (List ℕ)) };

    /// The argument of this number, counted from 0, if there is one.
    fn argument(&self, alloc: Global, number: usize) -> Result<Option<Name>, AllocError>
        requires { number < 2 ^ 32 }
        ensures { IfOk result (λ argument. IfSome (given self.now) (λ all. argument ≡ slice_get all number)) };
}

/// The arguments that the environment has after the program's name. Contracts know none of them.
#[derive(Drop)]
pub struct SystemArguments<R: Env> {
    pub environment: R,
}

impl<R: Env> Arguments for SystemArguments<R> {
    ghost given = { λ _. None };

    fn argument(&self, alloc: Global, number: usize) -> Result<Option<Name>, AllocError> {
        for doublings in 8u32..40 {
            let mut bytes = vec![in alloc; 0u8; 1 << doublings]?;
            match self.environment.arg(number + 1, bytes.as_mut_slice()) {
                Ok(length) => {
                    bytes.truncate(length);
                    return Ok(Some(Name::new(alloc, bytes.as_slice())?));
                }
                Err(FillError::NotPresent) => return Ok(None),
                Err(FillError::TooLong) => {}
            }
        }
        Err(AllocError)
    }
}

/// The words of the arguments. More arguments than there may be words count as a lack of memory.
#[tactic(auto, using(crate::proofs::ToldWords::told_none, crate::proofs::ToldWords::told_more, crate::proofs::ToldWords::told_all))]
pub fn words_of<A: Arguments>(alloc: Global, arguments: &A) -> Result<Words, AllocError>
    ensures few { IfOk result (λ words. length words < 2 ^ 32 - 1) }
    ensures told { IfOk result (λ words. AreTold (A.given arguments.now) words) }
{
    let mut words = Words::new(alloc);
    for number in 0..4_294_967_295 {
        let Some(argument) = arguments.argument(alloc, number)? else {
            return Ok(words);
        };
        words.push(word_of(argument.bytes()))?;
    }
    Err(AllocError)
}

/// The word of an argument; an argument that is not text gives the empty word.
fn word_of(argument: &[u8]) -> &[u8]
    ensures { IsWordOf argument.now result.now }
{
    match str::from_utf8(argument) {
        Ok(text) => text.as_bytes(),
        Err(_) => &[],
    }
}
