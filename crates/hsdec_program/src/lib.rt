//! What the program `hsdec` does with its arguments. The contract of [`status`] says it, over the arguments, a
//! shelf and two sinks:
//!
//! - the exit status is the number of the answer to the words (`specs/Status`);
//! - the words are those of the arguments (`specs/Words`);
//! - `--help` and `--version` put a page (`specs/Pages`, `specs/Groups`, `specs/Phrases`);
//! - everything else is what `run` of the crate `hsdec_core` promises.
//!
//! [`SystemArguments`] are the arguments of the system, and [`InputShelf`] holds its files and standard input.
#![tactic(auto)]

mod arguments;
mod groups;
mod help;
mod input_shelf;
mod phrases;
mod program;

pub use arguments::{Arguments, SystemArguments};
pub use input_shelf::InputShelf;
pub use program::status;
