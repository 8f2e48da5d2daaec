//! The program's calls over any shelf and any sinks: words in, bytes out, an answer.
//!
//! [`run`] judges the words, loads the operands, has the command make its text or its network in memory, writes the
//! network as a text (`pages`), and only then puts the text. The crate `operands` says what FILE, NET and SYMBOLS may
//! hold. The crate of a command's family says what the command does and why it may refuse: `machine_reports`,
//! `comparisons`, `split_texts`, `part_texts`, `cover_texts`, `shift_texts`, `symbol_runs` or `generated_texts`. This
//! crate says:
//!
//! - what each command works on (`specs/Task`, `specs/Operands`, and for `part` `specs/SplitOperands`);
//! - under which name of a model and with which clock the network of a job is written, and which clocks are refused
//!   (`specs/Clocks`);
//! - in which order the causes of refusals are judged (`specs/Judgement`);
//! - what a job is promised (`specs/Promise`);
//! - which refusal is answered, also after a failed load (`specs/Refusals`).
//!
//! Two groups of clauses of `run` connect answers and causes. `refused` gives, for every answer but `Done`, the
//! refusal with its cause and its line. `usage`, `comes` and `all_come` say that what is called for is
//! answered. The clause `headline` says what a written decomposition is; the definition is in `split_texts` and
//! in the crate `decomposition`.
//!
//! A command on the machine of FILE consists of a row of `task_of`, an arm of `machine_tasks`, a row in
//! `own_cause` and in `IsReport`, and for a listing also one in `IsShown`. All clauses of `run` follow from what
//! the command's family promises (`proofs/Runs`).
#![tactic(auto)]

mod designs;
mod job_outcome;
mod machine_tasks;
mod pages;
mod split_operands;
mod symbol_tasks;
mod tasks;
mod top_call;

pub use answers::Answer;
pub use top_call::run;
