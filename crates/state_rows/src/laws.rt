//! A worked example of a conflict, as the contract of a function that does nothing.
ghost use Rattle.std.specs.Prelude.{ℕ, ◌≡◌, ◌<◌};
ghost use Rattle.state_rows.specs.Conflict.{AreFirstTwo, ContradictAt};
ghost use Rattle.state_rows.specs.Worked.{three_rows};

/// Of three rows the first and the third contradict one another, and no other two do. Rows are counted from 0.
pub fn worked_conflict()
    ensures first { AreFirstTwo three_rows 0 2 }
    ensures only { (i j : ℕ) → i < j → ContradictAt three_rows i j → (i ≡ 0) × (j ≡ 2) }
{}
