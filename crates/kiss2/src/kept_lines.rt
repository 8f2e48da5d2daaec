//! What is kept of the lines so far, and one line more.
ghost use Rattle.std.specs.Prelude.{◌≡◌, [], ◌∷◌, ◌++◌, List, OnOk};
ghost use Rattle.hs_io.specs.declared.lines.Line.{Line};
ghost use Rattle.kiss2.specs.Faults.{fault_in};
ghost use Rattle.kiss2.specs.Standing.{row_lines};
ghost use Rattle.kiss2.specs.Inner.ReaderState.{HasShortFields, IsSmall, Judges, Keeps};

use crate::line_kind::is_row;
use crate::line_operands::LineFail;
use crate::standing::Said;
use hs_io::Line;
use kiss_file::StateNames;
use std::alloc::{AllocError, Global};

/// What is kept of the lines so far. Lines without fields take no room in it.
#[derive(Drop)]
pub(crate) struct Kept {
    pub said: Said,
    /// The lines of the rows.
    pub rows: Vec<Line>,
}

impl Kept {
    /// Before the first line.
    pub fn new(alloc: Global) -> Kept
        ensures { Keeps result.said result.rows.items [] }
    {
        Kept {
            said: Said {
                inputs: None,
                outputs: None,
                row_word: false,
                state_word: false,
                reset: None,
                input_names: None,
                output_names: None,
                rows: 0,
                states: StateNames::new(alloc),
            },
            rows: Vec::new(alloc),
        }
    }

    /// Judges a line after those before it, and takes it where it has no fault.
    pub fn take_line(&mut self, alloc: Global, line: Line) -> Result<(), LineFail>
        requires short { HasShortFields line }
        requires small { IsSmall self.old.said }
        ensures judged { (before : List Line) → Keeps self.old.said self.old.rows.items before
            → Judges result (fault_in before line)
            (λ _. Keeps self.new.said self.new.rows.items (before ++ line ∷ [])) }
    {
        self.said.take_line(alloc, &line)?;
        push_row(&mut self.rows, line)?;
        Ok(())
    }
}

/// Adds the line, where it is a row.
fn push_row(rows: &mut Vec<Line>, line: Line) -> Result<(), AllocError>
    ensures { OnOk result (rows.new.items ≡ rows.old.items ++ row_lines (line ∷ [])) }
{
    if is_row(&line) {
        rows.push(line)?;
    }
    Ok(())
}
