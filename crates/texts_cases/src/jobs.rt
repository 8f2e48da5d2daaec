//! Jobs of words.

use crate::words::{pieces, truth};
use case_lines::Answer;
use hs_io::Name;
use job_words::{Form, Job, JobFail, Words, built_forms, job, judge};
use std::alloc::{AllocError, Global};

/// Puts what a call answers.
pub(crate) fn put_answer(alloc: Global, call: &str, line: &[u8], answer: &mut Answer) {
    if call == "form" {
        put_form_of(line, answer);
    } else {
        put_judgement(alloc, call, line, answer);
    }
}

/// Puts the job of the words of a line, or the number of the refused word.
fn put_judgement(alloc: Global, call: &str, line: &[u8], answer: &mut Answer) {
    let mut words = Words::new(alloc);
    if add_words(alloc, line, &mut words).is_err() {
        answer.fail();
    }
    put_judged(&judged(alloc, call, &words), answer);
}

/// Adds the words of a line, cut at each space. An empty line has no words.
fn add_words(alloc: Global, line: &[u8], words: &mut Words) -> Result<(), AllocError> {
    if line.is_empty() {
        return Ok(());
    }
    for word in pieces(alloc, line, b' ')?.as_slice() {
        words.push(word.bytes())?;
    }
    Ok(())
}

/// The job of words. More than a thousand words are not judged.
fn judged(alloc: Global, call: &str, words: &Words) -> Result<Job, JobFail> {
    if words.count() > 1000 {
        Err(JobFail::NoMemory)
    } else if call == "job" {
        job(alloc, words)
    } else {
        judge(alloc, built_forms(), words)
    }
}

/// Puts a job, or the number of the refused word.
fn put_judged(judged: &Result<Job, JobFail>, answer: &mut Answer) {
    match judged {
        Ok(job) => put_job(job, answer),
        Err(JobFail::Usage { word }) => {
            answer.add(b"word ");
            answer.add_number(u64::from(*word));
        }
        Err(JobFail::NoMemory) => answer.fail(),
    }
}

/// Puts the command, the two names in brackets, the limit, the options, the number of a part where one is given, and
/// the four numbers.
fn put_job(job: &Job, answer: &mut Answer) {
    answer.add_displayed(format_args!("{:?}", job.command));
    put_in_brackets(job.file.bytes(), answer);
    put_in_brackets(job.second.bytes(), answer);
    answer.add(b" ");
    answer.add_number(job.limit as u64);
    put_options(job, answer);
    if let Some(part) = job.part {
        answer.add(b" part ");
        answer.add_number(u64::from(part));
    }
    answer.add_displayed(format_args!(" {} {} {} {}", job.seed, job.a, job.b, job.k));
}

/// Puts a name in brackets after a space.
fn put_in_brackets(name: &[u8], answer: &mut Answer) {
    answer.add(b" [");
    answer.add(name);
    answer.add(b"]");
}

/// Puts the options. `--names`, the clock and the model are put where they are given.
fn put_options(job: &Job, answer: &mut Answer) {
    answer.add(b" reduce ");
    answer.add(truth(job.reduce));
    answer.add(b" start ");
    match &job.start {
        Some(name) => answer.add(name.bytes()),
        None => answer.add(b"own"),
    }
    answer.add(b" hold ");
    answer.add(truth(job.hold));
    if job.names {
        answer.add(b" names");
    }
    put_given(b" clock ", &job.clock, answer);
    put_given(b" model ", &job.model, answer);
}

/// Puts a name after what it is of, if it is given.
fn put_given(of: &[u8], name: &Option<Name>, answer: &mut Answer) {
    if let Some(name) = name {
        answer.add(of);
        answer.add(name.bytes());
    }
}

/// Puts the operands and options of a command that is built.
fn put_form_of(word: &[u8], answer: &mut Answer) {
    for form in built_forms() {
        if form.command.word() == word {
            put_form(form, answer);
        }
    }
}

/// Puts operands and options.
fn put_form(form: &Form, answer: &mut Answer) {
    answer.add_displayed(format_args!("{:?} {:?}", form.operands, form.options));
}
