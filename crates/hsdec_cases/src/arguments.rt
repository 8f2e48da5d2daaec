//! The arguments of a case, as the system would give them.

use job_words::Words;
use std::env::FillError;
use std::rt::Env;

/// An environment with these words after the program's name, and without variables.
#[derive(Drop)]
pub struct GivenArguments<'a> {
    pub words: &'a Words,
}

impl Env for GivenArguments<'_> {
    fn arg(&self, i: usize, buf: &mut [u8]) -> Result<usize, FillError> {
        if i == 0 || i > self.words.count() {
            return Err(FillError::NotPresent);
        }
        let word = self.words.word(i - 1);
        if word.len() > buf.len() {
            return Err(FillError::TooLong);
        }
        for k in 0..word.len() {
            buf[k] = word[k];
        }
        Ok(word.len())
    }

    fn var(&self, _name: &str, _buf: &mut [u8]) -> Result<usize, FillError> {
        Err(FillError::NotPresent)
    }

    fn var_at(&self, _i: usize, _buf: &mut [u8]) -> Result<usize, FillError> {
        Err(FillError::NotPresent)
    }
}
