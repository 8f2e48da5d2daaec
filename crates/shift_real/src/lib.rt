//! Definite machines.
//!
//! A machine is definite of order k where every word of k symbols brings any two states to one state. [`chain`]
//! shows how states come together symbol by symbol: its members are zero, M(zero), M(M(zero)) and so on, up to
//! the first that M leaves as it is. States are together in member j exactly where every word of j symbols
//! brings them to one state. [`order`] gives the least k, or two states that words of every length can bring to
//! different states; [`order_of_chain`] gives it where the chain is there.
//!
//! A shift register that keeps the last k symbols keeps the state of such a machine. Its content, a word of k
//! symbols, determines the state, and the next content determines the next state ([`contents_follow`]).
//! [`start`] gives what the latches of the register hold before the first symbol, or refuses where no content
//! leads to the reset state.
//!
//! [`register`] builds the network of the register. The latches of the newest symbol take the inputs, and each
//! other latch takes the latch of the same bit of the next newer symbol. The gate of an output reads a latch or
//! an input exactly where it matters: where two contents and symbols that differ there alone give the output
//! two values. The rows of the gate are a good cover. So the network is sound, steps from content to content,
//! and answers each word as the machine does.
//!
//! For an output, states are in one class where they give it the same bit at each symbol. A latch matters where
//! two contents that differ there alone are of two classes. The rows of the first state of a class that give the
//! output say what is asked of its gate, at the contents of the class whose latches that are not read are 0.
//!
//! The definitions are in `specs/`:
//!
//! - `Words` has words and the states after them;
//! - `DefiniteMachine` has definite machines and their orders;
//! - `Chain` has the chain;
//! - `Register` has the contents of the register, and `Start` what it starts at;
//! - `Gates` says what the gates read and give;
//! - `ShiftNetwork` has the network, and says what it does.
//!
//! The laws of `Laws` are the contract of a function that does nothing. What only private functions and proofs
//! need is in `specs/Inner`.
#![tactic(auto)]

mod chains;
mod contents;
mod demands;
mod latches;
mod laws;
mod orders;
mod output_gates;
mod output_reads;
mod registers;
mod starts;
mod tables;

pub use chains::{Chain, chain};
pub use laws::contents_follow;
pub use orders::{OrderFail, StatesApart, order, order_of_chain};
pub use registers::register;
pub use starts::{RegisterFail, start};
