//! A cube: the input field of a row.
ghost use Rattle.std.specs.Prelude.{◌≡◌, ◌<◌, ◌≤◌, ◌^◌, bit_and};

/// A character of an input field: a bit, or a dash, which allows both bits.
#[derive(Clone, Copy)]
enum Character {
    Zero,
    One,
    Dash,
}

impl Character {
    ghost use Rattle.std.specs.Prelude.{IfSome, IfNone};
    ghost use Rattle.cubes.specs.Inner.Character.{bit_of, care_of, value_of};
    ghost use Rattle.cubes.specs.Field.{IsCharacter, byte_of};

    fn from_byte(byte: u8) -> Option<Character>
        ensures some { IfSome result (λ character. byte_of (bit_of character) ≡ byte) }
        ensures none { IfNone result (¬ IsCharacter byte) }
    {
        match byte {
            b'0' => Some(Character::Zero),
            b'1' => Some(Character::One),
            b'-' => Some(Character::Dash),
            _ => None,
        }
    }

    /// The lowest bit of `care` in a field that ends with this character.
    fn care(self) -> u32
        ensures { result ≡ care_of self }
    {
        match self {
            Character::Zero | Character::One => 1,
            Character::Dash => 0,
        }
    }

    /// The lowest bit of `value` in a field that ends with this character.
    fn value(self) -> u32
        ensures { result ≡ value_of self }
    {
        match self {
            Character::One => 1,
            Character::Zero | Character::Dash => 0,
        }
    }
}

/// Why a text is not a cube of a width.
#[derive(Clone, Copy, Debug, PartialEq, Eq)]
pub enum CubeFail {
    /// The text does not have as many characters as the width, but this number.
    BadWidth { found: usize },
    /// The character at this place, counted from 0, is the first that is not `0`, `1` or `-`.
    BadChar { place: usize },
}

/// The input field of a row: as many characters `0`, `1` or `-` as a symbol has bits. The first character
/// belongs to the highest of the `width` lowest bits of `care` and `value`, the last to the lowest. A character
/// is a dash where the bit of `care` is 0, and otherwise the bit of `value`.
#[derive(Clone, Copy, PartialEq, Eq)]
pub struct Cube {
    /// The places that have no dash.
    pub care: u32,
    /// The bits at those places, and 0 elsewhere.
    pub value: u32,
    /// The number of characters.
    pub width: u8,
    pub ghost width_positive: { 0 < width },
    pub ghost width_bound: { width ≤ 32 },
    pub ghost value_in_care: { bit_and care value ≡ value },
    pub ghost care_in_width: { care < 2 ^ width },
}

impl Cube {
    ghost use Rattle.std.specs.Prelude.{ℕ, IfNone, IfOk, IfSome, Err, IsTrue, length, false, true, ◌↔◌, ◌≢◌};
    ghost use Rattle.cubes.specs.Cube.{HoldsNumber, IsFirstBad, IsHalf, Meets, text_of};
    ghost use Rattle.cubes.specs.Symbol.{bit};

    /// Reads an input field of `width` characters. The length is judged first, then the characters from the
    /// first to the last.
    pub fn parse(text: &[u8], width: u8) -> Result<Cube, CubeFail>
        requires positive { 0 < width }
        requires bound { width ≤ 32 }
        ensures width { IfOk result (λ cube. cube.width ≡ width) }
        ensures spelled { IfOk result (λ cube. text.now ≡ text_of cube) }
        ensures bad_width { (found : ℕ) → (result ≡ Err (CubeFail.BadWidth found))
            ↔ ((length text.now ≢ width) × (found ≡ length text.now)) }
        ensures bad_char { (place : ℕ) → (result ≡ Err (CubeFail.BadChar place))
            ↔ ((length text.now ≡ width) × IsFirstBad text.now place) }
    {
        if text.len() != usize::from(width) {
            return Err(CubeFail::BadWidth { found: text.len() });
        }
        let mut care = 0u32;
        let mut value = 0u32;
        for (place, byte) in text.iter().enumerate() {
            let Some(character) = Character::from_byte(*byte) else {
                return Err(CubeFail::BadChar { place });
            };
            care = 2 * care + character.care();
            value = 2 * value + character.value();
        }
        Ok(Cube { care, value, width })
    }

    /// Whether the cube holds the symbol of this number.
    pub fn holds(&self, x: u32) -> bool
        requires { x < 2 ^ self.now.width }
        ensures { IsTrue result ↔ HoldsNumber self.now x }
    {
        x & self.care == self.value
    }

    /// Whether some symbol is held by both.
    pub fn meets(&self, c: &Cube) -> bool
        requires { self.now.width ≡ c.now.width }
        ensures { IsTrue result ↔ Meets self.now c.now }
    {
        (self.value ^ c.value) & self.care & c.care == 0
    }

    /// The cube of all symbols.
    pub fn whole(width: u8) -> Cube
        requires some { 0 < width }
        requires bound { width ≤ 32 }
        ensures width { result.width ≡ width }
        ensures care { result.care ≡ 0 }
        ensures all { (y : ℕ) → HoldsNumber result y }
    {
        Cube {
            care: 0,
            value: 0,
            width,
        }
    }

    /// The half of the cube with a 1, or a 0, at the place of a dash. Place 0 is the last character's.
    pub fn half(&self, place: u32, one: bool) -> Cube
        requires place { place < self.now.width }
        requires dash { bit self.now.care place ≡ false }
        ensures half { IsHalf self.now result place one }
        ensures care { self.now.care < result.care }
    {
        let at = 1 << place;
        Cube {
            care: self.care | at,
            value: if one { self.value | at } else { self.value },
            width: self.width,
        }
    }

    /// The lowest place at which the other cube has a bit and this one has a dash. Without one, this cube is
    /// part of the other.
    pub fn free_place(&self, other: &Cube) -> Option<u32>
        requires width { self.now.width ≡ other.now.width }
        requires meets { Meets self.now other.now }
        ensures within { IfSome result (λ place. place < self.now.width) }
        ensures dash { IfSome result (λ place. bit self.now.care place ≡ false) }
        ensures other { IfSome result (λ place. bit other.now.care place ≡ true) }
        ensures lowest { IfSome result
            (λ place. (k : ℕ) → k < place → bit other.now.care k ≡ true → bit self.now.care k ≡ true) }
        ensures none { IfNone result ((y : ℕ) → HoldsNumber self.now y → HoldsNumber other.now y) }
    {
        let free = other.care & (other.care ^ self.care);
        if free == 0 {
            None
        } else {
            Some(free.trailing_zeros())
        }
    }
}
