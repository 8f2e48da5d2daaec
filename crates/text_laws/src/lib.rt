//! What follows from the definition of a decomposition's text.
//!
//! A job gives a file, a kind of decomposition, the operand PARTS, and whether alike states become one.
//! [`rows_alone_differ`] says what is then left open in its text: only the rows of gates.
//!
//! What determines what:
//!
//! - The file determines which of its states are alike, and these determine the labels of their classes, since
//!   labels count blocks by first appearance. So the work machine and the class of each state are determined.
//! - The kind and PARTS determine the parts, since the choice of a split is defined as steps.
//! - The parts determine the codes: the number of bits, their owners, which of them code carriers, and the
//!   words.
//! - The work machine, the parts and the codes determine what each gate reads. The rule decides on the
//!   candidates from the highest one down. It decides on each by the candidates below it and by those above it
//!   that are read. The inputs are those that matter, and both lists ascend.
//! - The file and the number of bits determine the names of signals: an own name begins with `hs_`, repeated
//!   the least number of times that makes own names differ from given ones.
//! - The words and the reset state determine the starts of the latches. The read sets and the names determine
//!   the inputs and the output of each gate, and the value of its rows is always 1.
//! - In the header, the names of states are the file's, and the words are the codes of their classes. The note
//!   of a latch is the owner of its bit, the partition by the bits that its gate reads, and the partition by
//!   its own bit.
//!
//! What is left open is which good cover the rows of a gate are (`gate_rows`).
//!
//! [`networks_differ_in_rows`] says this of the networks and their headers, before they are written.
//!
//! [`registers_differ_in_rows`] and [`shift_rows_alone_differ`] say the same of two networks and two texts of one shift
//! register: the file determines its order, its comments, its names and what each gate reads.
//!
//! [`one_text`] says that the network of such a text and the machine of its file give one text for one file of
//! symbols.
#![tactic(auto)]

ghost use Rattle.text_laws.specs.OneText.{GiveOneText};
ghost use Rattle.text_laws.specs.Rows.{
  NetworksDifferInRows,
  RegistersDifferInRows,
  RowsAloneDiffer,
  ShiftRowsAloneDiffer,
};

/// Two networks of one decomposition have one header, and are equal but for the rows of their gates.
pub fn networks_differ_in_rows()
    ensures { NetworksDifferInRows }
{}

/// Two networks of one shift register have the same comments, and are equal but for the rows of their gates.
pub fn registers_differ_in_rows()
    ensures { RegistersDifferInRows }
{}

/// Two texts of one decomposition have one header, and networks that are equal but for the rows of their gates.
pub fn rows_alone_differ()
    ensures { RowsAloneDiffer }
{}

/// Two texts of one shift register have the same comments, and networks that are equal but for the rows of their
/// gates.
pub fn shift_rows_alone_differ()
    ensures { ShiftRowsAloneDiffer }
{}

/// For a decomposition that a command wrote, `sim` of its network and `walk` of its machine give one text.
pub fn one_text()
    ensures { GiveOneText }
{}
