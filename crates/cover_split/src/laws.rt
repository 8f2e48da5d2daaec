//! What follows from the definitions, and small texts.
ghost use Rattle.std.specs.Prelude.{ℕ, List, [], ◌∷◌, codes};
ghost use Rattle.cover_split.specs.Expansion.{PairsFillPlaces};
ghost use Rattle.cover_split.specs.Refusal.{IsFirstBad};
ghost use Rattle.cover_split.specs.Text.{Spells};

/// There is a pair for each place of the blocks.
pub fn pairs_fill_places()
    ensures { PairsFillPlaces }
{}

/// Small texts, and the blocks that they spell. Blocks and places are counted from 0.
pub fn worked_texts()
    ensures three { Spells (codes "0,1/0,2/1,2") ((0 ∷ 1 ∷ []) ∷ (0 ∷ 2 ∷ []) ∷ (1 ∷ 2 ∷ []) ∷ []) }
    ensures one { Spells (codes "0,10") ((0 ∷ 10 ∷ []) ∷ []) }
    ensures slash_parts_blocks { Spells (codes "0/1") ((0 ∷ 1 ∷ []) ∷ []) → ⊥ }
    ensures comma_parts_states { Spells (codes "0,1") ((0 ∷ []) ∷ (1 ∷ []) ∷ []) → ⊥ }
    ensures leading_zero { Spells (codes "00") ((0 ∷ []) ∷ []) → ⊥ }
    ensures falling { IsFirstBad 3 (codes "1,0/2") 0 1 }
    ensures nothing { IsFirstBad 3 (codes "0/") 1 0 }
{}
