//! The outputs of two states with the same cubes, compared place by place.
//!
//! If rows at one place give the same outputs, whatever their values, the states leave the same outputs open. Then all
//! outputs are compared at once.
ghost use Rattle.std.specs.Prelude.{◌<◌, IfSome, length};
ghost use Rattle.state_pairs.specs.Pairs.{IsFoundInBits};

use crate::RowsByState;
use crate::question::Question;
use crate::search::Search;
use kiss_file::KissRow;

/// Which outputs a row gives.
#[derive(Clone, Copy)]
pub(crate) struct GivenOutputs;

impl Question for GivenOutputs {
    ghost use Rattle.std.specs.Prelude.{Some};

    ghost states = { λ _. 65536 };

    ghost said = { λ _ row. Some row.care };

    ghost unsaid = { λ _ _. 0 };

    fn said(&self, row: &KissRow) -> Option<u64> {
        Some(row.care)
    }

    fn unsaid(&self, _s: usize) -> u64 {
        0
    }

    fn is_of_next(&self) -> bool {
        false
    }
}

/// The values of the outputs that a row gives.
#[derive(Clone, Copy)]
pub(crate) struct OutputValues;

impl Question for OutputValues {
    ghost use Rattle.std.specs.Prelude.{Some};

    ghost states = { λ _. 65536 };

    ghost said = { λ _ row. Some row.value };

    ghost unsaid = { λ _ _. 0 };

    fn said(&self, row: &KissRow) -> Option<u64> {
        Some(row.value)
    }

    fn unsaid(&self, _s: usize) -> u64 {
        0
    }

    fn is_of_next(&self) -> bool {
        false
    }
}

impl RowsByState {
    /// A symbol at which some output differs, if there is one; the least one, if `least` is set. It is told only of
    /// states with the same cubes whose rows at each place give the same outputs. No clause says when it is told: a
    /// caller that is told nothing has to ask in another way.
    pub fn first_placed_apart(&self, s: usize, t: usize, least: bool) -> Option<Option<u32>>
        requires s { s < length self.now.states }
        requires t { t < length self.now.states }
        ensures { IfSome result (IsFoundInBits self.now s t self.now.outputs least) }
    {
        let rows = self.rows_of_both(s, t)?;
        let given = Search {
            question: &GivenOutputs,
            s,
            t,
            least: false,
        };
        if self
            .first_by_rows(&given, rows.first, rows.second)
            .is_some()
        {
            return None;
        }
        let values = Search {
            question: &OutputValues,
            s,
            t,
            least,
        };
        Some(self.first_by_rows(&values, rows.first, rows.second))
    }
}
