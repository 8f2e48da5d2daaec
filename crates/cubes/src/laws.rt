//! Laws of symbols and cubes, for the crates above. Each law is the contract of a function that does nothing.
ghost use Rattle.std.specs.Prelude.{ℕ, ◌≡◌, ◌+◌, ◌<◌, ◌≤◌, ◌^◌, ◌↔◌, Bool, true, false, List, [], ◌∷◌, bit_and, length};
ghost use Rattle.cubes.specs.declared.cube.Cube.{Cube};
ghost use Rattle.cubes.specs.Cube.{
  DiffersAtPlace,
  HasBitsOf,
  Holds,
  HoldsNumber,
  IsBoth,
  IsHalf,
  Meets,
  greatest_of,
  holds,
};
ghost use Rattle.cubes.specs.Symbol.{bit, lowest_bits, number_of, symbol_of};

/// Symbols of a width correspond to the numbers below 2 to the power of the width.
pub fn symbols_are_numbers()
    ensures number { (places x : ℕ) → x < 2 ^ places → number_of (symbol_of places x) ≡ x }
    ensures places { (places x : ℕ) → length (symbol_of places x) ≡ places }
    ensures symbol { (symbol : List Bool) → symbol_of (length symbol) (number_of symbol) ≡ symbol }
    ensures below { (symbol : List Bool) → number_of symbol < 2 ^ length symbol }
{}

/// Small symbols, whose first bit is the most significant, and the lowest bits of a number, the lowest first.
pub fn worked_symbols()
    ensures number { number_of (true ∷ false ∷ []) ≡ 2 }
    ensures symbol { symbol_of 3 6 ≡ true ∷ true ∷ false ∷ [] }
    ensures high_bits_are_dropped { symbol_of 2 5 ≡ false ∷ true ∷ [] }
    ensures lowest_bits { lowest_bits 3 6 ≡ false ∷ true ∷ true ∷ [] }
{}

/// What a cube holds, place by place and by one mask.
pub fn places_of_a_cube()
    ensures places { (c : Cube) (x : ℕ) → HoldsNumber c x ↔ HasBitsOf c x }
    ensures mask { (c : Cube) (x : ℕ) → HoldsNumber c x ↔ (bit_and x c.care ≡ c.value) }
{}

/// Whether a cube holds a symbol is decided by its characters one by one.
pub fn holding_is_decided()
    ensures { (c : Cube) (symbol : List Bool) → (holds c symbol ≡ true) ↔ Holds c symbol }
{}

/// Cubes of one width share no symbol exactly where they differ at a place at which neither has a dash.
pub fn apart_cubes_differ()
    ensures differ { (c d : Cube) → c.width ≡ d.width → (¬ Meets c d) ↔ DiffersAtPlace c d }
{}

/// The least symbol of a cube has a 0 at each dash, and the greatest has a 1 there.
pub fn ends_of_a_cube()
    ensures least { (c : Cube) → HoldsNumber c c.value }
    ensures greatest { (c : Cube) → HoldsNumber c (greatest_of c) }
    ensures within { (c : Cube) → greatest_of c < 2 ^ c.width }
    ensures from { (c : Cube) (x : ℕ) → HoldsNumber c x → c.value ≤ x }
    ensures to { (c : Cube) (x : ℕ) → x < 2 ^ c.width → HoldsNumber c x → x ≤ greatest_of c }
{}

/// The symbols that two cubes that meet both hold are one cube, and the half of a cube at a dash is one cube.
pub fn parts_of_cubes()
    ensures both { (c d both : Cube) → IsBoth c d both → Meets c d
        → (x : ℕ) → HoldsNumber both x ↔ (HoldsNumber c x × HoldsNumber d x) }
    ensures half { (c half : Cube) (place : ℕ) (b : Bool) → IsHalf c half place b
        → (x : ℕ) → HoldsNumber half x ↔ (HoldsNumber c x × (bit x place ≡ b)) }
{}
