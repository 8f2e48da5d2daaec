//! What the words of a seed say about parts.

ghost use Rattle.std.specs.Prelude.{◌≡◌, ◌<◌, ◌^◌, IfOk};
ghost use Rattle.machine_gen.specs.Inner.Draws.{draw_of, draws_of};
ghost use Rattle.machine_gen.specs.Words.{word};

use rand_pcg::Lcg64Xsh32;
use rand_pcg::rand_core::Rng;
use std::alloc::{AllocError, Global};

/// The stream of the generator. The reference words of the generator are on this stream.
const STREAM: u64 = 54;

/// What one word says.
#[derive(Clone, Copy)]
pub(crate) struct Draw {
    /// Where a first part goes.
    pub(crate) first: u16,
    /// Where a second part goes.
    pub(crate) second: u16,
}

/// What a word says where there are `a` first parts and `b` second parts.
fn draw_from(word: u32, a: u16, b: u16) -> Draw
    requires some_a { 0 < a }
    requires some_b { 0 < b }
    ensures { result ≡ draw_of a b word }
{
    let low = (word % 65_536) as u16;
    let high = (word / 65_536) as u16;
    Draw {
        first: low % a,
        second: high % b,
    }
}

/// What the first `count` words of a seed say, in order.
pub(crate) fn draws(
    alloc: Global,
    seed: u64,
    a: u16,
    b: u16,
    count: usize,
) -> Result<Vec<Draw>, AllocError>
    requires some_a { 0 < a }
    requires some_b { 0 < b }
    ensures { IfOk result (λ draws. draws.items ≡ draws_of (word seed) a b count) }
{
    let mut generator = Lcg64Xsh32::new(seed, STREAM);
    let mut draws = Vec::new(alloc);
    for _number in 0..count {
        draws.push(draw_from(generator.next_u32(), a, b))?;
    }
    Ok(draws)
}
