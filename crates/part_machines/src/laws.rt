//! Laws of the fields of cells and of the machines of parts, each the contract of a function that does nothing.

ghost use Rattle.part_machines.specs.Cells.{FieldsAreApart, FieldsHoldAll};
ghost use Rattle.part_machines.specs.CellLists.{ListedAreCells};
ghost use Rattle.part_machines.specs.MachineLaws.{PartsAreLawful, PartsNeverConflict, RowsMakeThePart};

/// The fields of two cells of a block share no symbol.
pub fn fields_are_apart()
    ensures { FieldsAreApart }
{}

/// Each symbol is held by the field of some cell of each block.
pub fn fields_hold_all()
    ensures { FieldsHoldAll }
{}

/// The cells that are listed as numbers are the cells of the states, and their fields are those of the cells.
pub fn listed_are_cells()
    ensures { ListedAreCells }
{}

/// A machine with the names, the blocks and the rows of a part is the machine of the part: it leaves nothing open, no
/// two of its rows conflict, and it goes from block to block as the machine that was split.
pub fn rows_make_the_part()
    ensures { RowsMakeThePart }
{}

/// No two rows of a part conflict, nor two of the outputs.
pub fn parts_never_conflict()
    ensures { PartsNeverConflict }
{}

/// The record of the machine of a part is lawful if its names are, and if it has at most 32 inputs, 64 outputs and
/// 65,536 rows.
pub fn parts_are_lawful()
    ensures { PartsAreLawful }
{}
