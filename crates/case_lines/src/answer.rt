//! Answers as texts that grow piece by piece.

ghost use Rattle.std.specs.Prelude.{
  ◌≡◌,
  List,
  ℕ,
  [],
  true,
  false,
  decimal,
  flat_map,
  string_bytes,
  IfOk,
  IfSome,
  IsErr,
};
ghost use Rattle.case_lines.specs.Answers.{AnswerState, Adds};
ghost use Rattle.case_lines.specs.Escapes.{escape_of};

use crate::escapes::escaped;
use anyhow::{Context, ensure};
use itoa::Buffer;
use std::alloc::Global;
use std::fmt::Display;
use std::marker::Model;

/// What a call answers. An answer that has failed, because memory ran out or because the words did not fit the call,
/// has no text.
#[derive(Drop)]
pub struct Answer {
    alloc: Global,
    bytes: Vec<u8>,
    failed: bool,
}

impl Model for Answer {
    ghost use Rattle.case_lines.specs.Answers.{AnswerState};

    ghost Value = { AnswerState };

    ghost view = { λ answer. record { bytes = answer.bytes.items; failed = answer.failed } };
}

impl Answer {
    /// The empty answer.
    pub fn new(alloc: Global) -> Answer
        ensures { result ≡ record { bytes = []; failed = false } }
    {
        Answer {
            alloc,
            bytes: Vec::new(alloc),
            failed: false,
        }
    }

    /// Makes this an answer that has failed.
    pub fn fail(&mut self)
        ensures { self.new ≡ record self.old { failed = true } }
    {
        self.failed = true;
    }

    /// Adds a piece of text.
    pub fn add(&mut self, piece: &[u8])
        ensures { Adds self.old piece.now self.new }
    {
        if self.bytes.extend_from_slice(piece).is_err() {
            self.failed = true;
        }
    }

    /// Adds pieces of text.
    pub fn add_all(&mut self, pieces: &[&[u8]])
        ensures { Adds self.old (flat_map (λ piece. piece.now) pieces.now) self.new }
    {
        for piece in pieces {
            self.add(piece);
        }
    }

    /// Adds a number.
    pub fn add_number(&mut self, number: u64)
        ensures { Adds self.old (decimal number) self.new }
    {
        self.add(Buffer::new().format(number).as_bytes());
    }

    /// Adds a value as it is displayed.
    pub fn add_displayed<D: Display + Drop>(&mut self, value: D)
        ensures text { IfSome (D.output value) (λ text. Adds self.old text self.new) }
        ensures piece { (piece : List ℕ) × Adds self.old piece self.new }
    {
        match format!(in self.alloc; "{value}") {
            Ok(text) => self.add(text.as_bytes()),
            Err(_) => self.fail(),
        }
    }

    /// The bytes so far.
    pub fn bytes(&self) -> &[u8]
        ensures { result.now ≡ self.now.bytes }
    {
        self.bytes.as_slice()
    }

    /// The text, in which a byte that is no printable character has an escape.
    pub fn text(&self) -> anyhow::Result<String>
        ensures escaped { IfOk result (λ text. string_bytes text ≡ flat_map escape_of self.now.bytes) }
        ensures failed { self.now.failed ≡ true → IsErr result }
    {
        ensure!(!self.failed, "no answer");
        let text = escaped(self.alloc, self.bytes.as_slice())?;
        String::from_utf8(text).ok().context("no text")
    }
}
