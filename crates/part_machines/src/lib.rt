//! The smaller machines into which a split takes a machine apart.
//!
//! A split writes a machine as one network. Each of its parts is a machine too: its states are the blocks of the
//! part, its inputs are what the gates of the part read (inputs of the file, and bits of other parts), and its
//! outputs are its own bits. Another machine of one state gives the outputs. `Which` of `state_codes` says which of them
//! is meant. `specs/PartMachine` defines the whole machine (`IsPartOf`). The crate `part_laws` proves that these
//! machines, stepped together, answer as the machine that was split.
//!
//! The rows of a part come cell by cell. A cell is a block with the values that some state of it has on the bits that
//! are read. It gets the rows of its least state, narrowed to the inputs that are read, and a field for the bits.
//! A field has a bit only where the values that the block shows leave it open which of them are meant. So the fields
//! of a block share no symbol ([`fields_are_apart`]) and hold every symbol, also those that no state shows
//! ([`fields_hold_all`]).
//!
//! So a machine with the names, the blocks and the rows of a part is the machine of the part
//! ([`rows_make_the_part`]): nothing is left open, and no two rows conflict ([`parts_never_conflict`]). Where its names
//! are lawful and its sizes are within the limits, it is a lawful record ([`parts_are_lawful`]).
//!
//! [`inputs_of_part`] gives what a part reads, [`cells_of`] its cells, and [`field_of_cell`] and [`field_of`] their
//! fields; [`listed_are_cells`] says that these are the cells and fields of the definitions.
//!
//! The definitions are in `specs/`: `Which` has the blocks and bits of a part, `PartSet` what it reads, `Cells` and
//! `Fields` the cells, `CellLists` cells and fields as numbers, `PartRows` the rows, `PartMachine` the whole machine,
//! and `MachineLaws` the laws of what the rows make. `Worked` has small cases.
#![tactic(auto)]

mod cells;
mod fields;
mod laws;
mod part_inputs;
mod worked;

pub use cells::{Cell, cells_of, field_of_cell};
pub use fields::{Field, field_of};
pub use laws::{
    fields_are_apart, fields_hold_all, listed_are_cells, parts_are_lawful, parts_never_conflict,
    rows_make_the_part,
};
pub use part_inputs::inputs_of_part;
pub use worked::{worked_cells, worked_fields};
