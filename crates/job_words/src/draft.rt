//! A job while its words are judged.

ghost use Rattle.std.specs.Prelude.{◌≡◌, false, List, ◌∷◌, None, OnOk, IfErr, IfOk, not, ◌&&◌};
ghost use Rattle.std.specs.List.{list_any};
ghost use Rattle.job_words.specs.Inner.Draft.{IsDraft, IsRefusal, item_of, stood, stood_with};
ghost use Rattle.job_words.specs.Item.{Item, Operand};
ghost use Rattle.job_words.specs.Job.{empty_job, refusal, same_option};
ghost use Rattle.job_words.specs.Table.{row_of};
ghost use Rattle.job_words.specs.declared.draft.Refusal.TheVariants.{NoMemory};

use crate::fields::{put_operand, put_option};
use crate::items::Entry;
use crate::{Command, CommandOption, Form, Job};
use hs_io::Name;
use std::alloc::{AllocError, Global};

/// Why an item is refused.
#[derive(Clone, Copy)]
pub enum Refusal {
    /// For its first word.
    Word,
    /// For the word that its option takes, or for a missing one.
    Taken,
    /// Memory ran out.
    NoMemory,
}

impl From<AllocError> for Refusal {
    ghost from_gives = { λ _ refusal. refusal ≡ NoMemory };

    fn from(_wanting: AllocError) -> Refusal {
        Refusal::NoMemory
    }
}

/// The options that occur.
#[derive(Clone, Copy)]
pub struct Stood {
    pub limit: bool,
    pub reduce: bool,
    pub start: bool,
    pub fill: bool,
    pub names: bool,
    pub clock: bool,
    pub model: bool,
}

impl Stood {
    /// Whether an option occurs.
    fn has(&self, option: CommandOption) -> bool
        ensures { result ≡ stood self.now option }
    {
        match option {
            CommandOption::Limit => self.limit,
            CommandOption::Reduce => self.reduce,
            CommandOption::Start => self.start,
            CommandOption::Fill => self.fill,
            CommandOption::Names => self.names,
            CommandOption::Clock => self.clock,
            CommandOption::Model => self.model,
        }
    }

    /// Adds an option.
    fn add(&mut self, option: CommandOption)
        ensures { self.new ≡ stood_with option self.old }
    {
        match option {
            CommandOption::Limit => self.limit = true,
            CommandOption::Reduce => self.reduce = true,
            CommandOption::Start => self.start = true,
            CommandOption::Fill => self.fill = true,
            CommandOption::Names => self.names = true,
            CommandOption::Clock => self.clock = true,
            CommandOption::Model => self.model = true,
        }
    }
}

/// A job after some of its items: the number of operands among them, and the options.
#[derive(Drop)]
pub struct Draft {
    pub operands: usize,
    pub stood: Stood,
    pub job: Job,
}

impl Draft {
    /// No items.
    pub fn new(alloc: Global, command: Command) -> Result<Draft, AllocError>
        ensures { IfOk result (λ draft. (draft.operands ≡ 0) × (draft.job ≡ empty_job command)
            × ((option : CommandOption) → stood draft.stood option ≡ false)) }
    {
        Ok(Draft {
            operands: 0,
            stood: Stood {
                limit: false,
                reduce: false,
                start: false,
                fill: false,
                names: false,
                clock: false,
                model: false,
            },
            job: Job {
                command,
                file: Name::new(alloc, b"")?,
                second: Name::new(alloc, b"")?,
                limit: 1000,
                reduce: false,
                start: None,
                seed: 0,
                a: 0,
                b: 0,
                k: 0,
                part: None,
                hold: false,
                names: false,
                clock: None,
                model: None,
            },
        })
    }

    /// Adds the next item, if it is allowed.
    pub fn accept(&mut self, alloc: Global, form: &Form, item: &Entry) -> Result<(), Refusal>
        ensures ok { (before : List Item) → IsDraft (row_of form.now) before self.old → OnOk result
            (IsDraft (row_of form.now) (item_of item.now ∷ before) self.new
            × (refusal (row_of form.now) before (item_of item.now) ≡ None)) }
        ensures err { (before : List Item) → IsDraft (row_of form.now) before self.old → IfErr result
            (IsRefusal (refusal (row_of form.now) before (item_of item.now))) }
    {
        match item {
            Entry::Operand(word) => self.accept_operand(alloc, form, word),
            Entry::Chosen(option, word) => {
                if !self.may_stand(form, *option) {
                    return Err(Refusal::Word);
                }
                put_option(alloc, *option, word, &mut self.job)?;
                self.stood.add(*option);
                Ok(())
            }
            Entry::Lacking(option) if self.may_stand(form, *option) => Err(Refusal::Taken),
            Entry::Lacking(_) | Entry::Unknown => Err(Refusal::Word),
        }
    }

    /// Whether an option is allowed.
    fn may_stand(&self, form: &Form, option: CommandOption) -> bool
        ensures { result ≡ (list_any (same_option option) form.now.options.now && not (stood self.now.stood option)) }
    {
        has_option(form.options, option) && !self.stood.has(option)
    }

    /// Adds the next operand, if it is allowed.
    fn accept_operand(&mut self, alloc: Global, form: &Form, word: &[u8]) -> Result<(), Refusal>
        ensures ok { (before : List Item) → IsDraft (row_of form.now) before self.old → OnOk result
            (IsDraft (row_of form.now) (Operand word.now ∷ before) self.new
            × (refusal (row_of form.now) before (Operand word.now) ≡ None)) }
        ensures err { (before : List Item) → IsDraft (row_of form.now) before self.old → IfErr result
            (IsRefusal (refusal (row_of form.now) before (Operand word.now))) }
    {
        if word.is_empty() || self.operands >= form.operands.len() {
            return Err(Refusal::Word);
        }
        put_operand(alloc, form.operands[self.operands], word, &mut self.job)?;
        self.operands += 1;
        Ok(())
    }
}

/// Whether an option is one of these.
fn has_option(options: &[CommandOption], option: CommandOption) -> bool
    ensures { result ≡ list_any (same_option option) options.now }
{
    options.iter().any(|other| same(option, *other))
}

/// Whether two options are the same.
fn same(option: CommandOption, other: CommandOption) -> bool
    ensures { result ≡ same_option option other }
{
    option == other
}
