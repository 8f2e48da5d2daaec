//! States that no word distinguishes, and the machine of their blocks.
//!
//! [`equivalence`] gives the partition of a machine's states in which two states are together exactly where
//! they are alike: the machine answers every word alike from both (`specs/AlikeStates`). The code refines a
//! partition, first by the outputs and then by the blocks of the next states, until nothing changes. States
//! that are together then answer every word alike, and no round separates alike states.
//!
//! [`quotient`] makes the file of the blocks of a partition (`specs/Quotient`): it keeps the rows of the least
//! state of each block, and replaces states by their blocks. Each block answers every word as its members do,
//! and no two blocks of the partition of alike states are alike. The partition has to be closed and consistent.
//! `specs/Cause` says which refusal names which states, and that the partition of alike states is refused only
//! if memory runs out.
//!
//! [`work_machine`] gives the machine that a job works on: the machine of its file, or with `--reduce` that of the
//! classes of alike states (`specs/WorkMachine`, `specs/Work`). There is only one (`specs/Laws`).
#![tactic(auto)]

mod block_machine;
mod demands;
mod laws;
mod refinement;
mod work;

pub use block_machine::quotient;
pub use demands::QuotientFail;
pub use laws::{alike_has_quotient, classes_answer_alike};
pub use refinement::equivalence;
pub use work::{WorkMachine, state_name, work_machine};
