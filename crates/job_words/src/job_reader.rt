//! From words to a job.

ghost use Rattle.std.specs.Prelude.{
  ◌≡◌,
  ◌+◌,
  ◌-◌,
  ◌^◌,
  ◌<◌,
  ℕ,
  List,
  [],
  Ok,
  Err,
  Option,
  Some,
  IfOk,
  OnOk,
  map,
  drop,
  length,
};
ghost use Rattle.std.specs.Option.{option_map};
ghost use Rattle.job_words.specs.Inner.Draft.{IsDraft};
ghost use Rattle.job_words.specs.Item.{items_of};
ghost use Rattle.job_words.specs.Job.{JobOf, judged, judgement, row_named};
ghost use Rattle.job_words.specs.Table.{IsBuilt, built, row_of};

use crate::draft::{Draft, Refusal};
use crate::items::item_at;
use crate::{Form, Job, JobFail, Words, built_forms};
use std::alloc::Global;

/// The job of the words by the commands that are built.
pub fn job(alloc: Global, words: &Words) -> Result<Job, JobFail>
    requires few { length words.now < 2 ^ 32 - 1 }
    ensures job { IfOk result (λ job. JobOf words.now ≡ Ok job) }
    ensures usage { (word : ℕ) → result ≡ Err (JobFail.Usage word) → JobOf words.now ≡ Err word }
    ensures built { IfOk result (λ job. IsBuilt job.command) }
{
    judge(alloc, built_forms(), words)
}

/// The job of the words by the rows of a table.
pub fn judge(alloc: Global, forms: &[Form], words: &Words) -> Result<Job, JobFail>
    requires few { length words.now < 2 ^ 32 - 1 }
    ensures job { IfOk result (λ job. judgement (map row_of forms.now) words.now ≡ Ok job) }
    ensures usage { (word : ℕ) → result ≡ Err (JobFail.Usage word)
        → judgement (map row_of forms.now) words.now ≡ Err word }
{
    if words.count() == 0 {
        return Err(JobFail::Usage { word: 1 });
    }
    match form_named(forms, words.word(0)) {
        Some(form) => read(alloc, form, words),
        None => Err(JobFail::Usage { word: 1 }),
    }
}

/// The row of a command, by its word.
pub fn form_named<'a>(forms: &'a [Form], word: &[u8]) -> Option<&'a Form>
    ensures { option_map (λ form. row_of form.now) result ≡ row_named (map row_of forms.now) word.now }
{
    for form in forms {
        if word == form.command.word() {
            return Some(form);
        }
    }
    None
}

/// Adds the words after the command to the draft of its job.
fn add_words(alloc: Global, form: &Form, words: &Words, draft: &mut Draft) -> Result<(), JobFail>
    requires few { length words.now < 2 ^ 32 - 1 }
    requires some { 0 < length words.now }
    requires none { IsDraft (row_of form.now) [] draft.old }
    ensures job { OnOk result (judged (row_of form.now) [] 2 (items_of (drop 1 words.now)) ≡ Ok draft.new.job) }
    ensures usage { (word : ℕ) → result ≡ Err (JobFail.Usage word)
        → judged (row_of form.now) [] 2 (items_of (drop 1 words.now)) ≡ Err word }
{
    let mut i = 1;
    while i < words.count() {
        let item = item_at(words, i);
        match draft.accept(alloc, form, &item) {
            Ok(()) => i += item.width(),
            Err(Refusal::Word) => return Err(usage(i + 1)),
            Err(Refusal::Taken) => return Err(usage(i + 2)),
            Err(Refusal::NoMemory) => return Err(JobFail::NoMemory),
        }
    }
    if draft.operands < form.operands.len() {
        return Err(usage(i + 1));
    }
    Ok(())
}

/// The job of the words after the command.
fn read(alloc: Global, form: &Form, words: &Words) -> Result<Job, JobFail>
    requires few { length words.now < 2 ^ 32 - 1 }
    requires some { 0 < length words.now }
    ensures job { IfOk result (λ job. judged (row_of form.now) [] 2 (items_of (drop 1 words.now)) ≡ Ok job) }
    ensures usage { (word : ℕ) → result ≡ Err (JobFail.Usage word)
        → judged (row_of form.now) [] 2 (items_of (drop 1 words.now)) ≡ Err word }
{
    let mut draft = Draft::new(alloc, form.command)?;
    add_words(alloc, form, words, &mut draft)?;
    Ok(draft.job)
}

/// The refusal of the word of this number.
fn usage(word: usize) -> JobFail
    requires { word < 2 ^ 32 }
    ensures { result ≡ JobFail.Usage word }
{
    JobFail::Usage { word: word as u32 }
}
