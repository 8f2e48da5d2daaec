//! Numbers that look as if drawn at random, and are the same everywhere.

ghost use Rattle.std.specs.Prelude.{◌≡◌, ◌%◌, ◌^◌};
ghost use Rattle.bench_cases.specs.Numbers.{drawn_number};

/// The number that two numbers draw.
pub fn drawn(a: u64, b: u64) -> u64
    ensures { result ≡ drawn_number a b }
{
    let mut n = a
        .wrapping_mul(0x9E37_79B9_7F4A_7C15)
        .wrapping_add(b.wrapping_mul(0xC2B2_AE3D_27D4_EB4F));
    n ^= n >> 29;
    n = n.wrapping_mul(0xBF58_476D_1CE4_E5B9);
    n ^ n >> 32
}

/// The same number, where all three are of the type `usize`.
pub fn drawn_index(a: usize, b: usize) -> usize
    ensures { result ≡ drawn_number a b }
{
    drawn(a as u64, b as u64) as usize
}

/// The lower half of such a number.
pub fn drawn_word(a: u64, b: u64) -> u32
    ensures { result ≡ drawn_number a b % 2 ^ 32 }
{
    (drawn(a, b) & 0xffff_ffff) as u32
}
