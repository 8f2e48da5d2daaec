//! Runs networks on symbols.
//!
//! [`step_into`] makes one step of a network, whose gates are evaluated in a given order. [`run`] takes a whole
//! file of symbols, and gives the text of the answers, or the first cause why there is none. [`read_symbols`]
//! reads such a file as numbers. [`append_answer`] writes each answer of a run; a caller that answers the symbols
//! by other means, such as a machine, writes its answers by it too.
//!
//! The definitions are in `specs/`:
//!
//! - `BitTexts` says which texts are those of bits.
//! - `Symbols` says which word a file of symbols gives, and which of its lines is refused first.
//! - `Starts` says where a network starts, and `Run` what a run is.
//! - `Inner` is for private functions only.
//!
//! Before the first symbol a run makes tables of the gates with few inputs, and cubes of the rows of most others
//! (`forms`). A gate of at most six inputs is one record (`small_gates`). It reads the file line by line
//! (`symbol_line`).
#![tactic(auto)]

mod bit_texts;
mod causes;
mod forms;
mod gate_values;
mod laws;
mod pieces;
mod runner;
mod small_gates;
mod starts;
mod step;
mod symbol_line;
mod symbols;
mod value_tables;

pub use bit_texts::append_answer;
pub use causes::SimFail;
pub use laws::{worked_refusals, worked_runs, worked_texts};
pub use runner::run;
pub use step::step_into;
pub use symbols::{SymbolFail, read_symbols};
