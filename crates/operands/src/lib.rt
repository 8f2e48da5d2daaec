//! The operands of commands: the texts of FILE, NET and SYMBOLS, the machine or the network that a text denotes, and
//! the partitions that PART and PARTS give.
//!
//! [`load_operand`] loads a text of at most 4 MiB from a shelf. [`open_machine`] loads FILE and builds its machine
//! with the fill of the job, and [`open_network`] loads NET and reads its network. What they cannot open is refused.
//! PART is the text of one partition of the states of a machine, and PARTS are such texts joined by slashes:
//! [`read_part`] and [`read_parts`] give the partitions, or the refusal of the first bad part for its first fault.
//!
//! `specs/OperandText` says what a loaded text is, where the shelf's bytes are known and where they are not, and
//! `specs/Load` how a load may fail. `specs/Causes` has the causes of all refusals before a command's own, in the
//! order of judgement, and `specs/OpenedOperands` what is opened or why it is not. `specs/PartTexts` says which
//! partitions a text gives, and `specs/PartFaults` which refusal a text calls for that gives none. What follows for the
//! crates above is in `specs/Laws`.
#![tactic(auto)]

mod opened_operands;
mod parts;
mod text;

pub use opened_operands::{OpenedMachine, fill, open_machine, open_network};
pub use parts::{read_part, read_parts};
pub use text::load_operand;
