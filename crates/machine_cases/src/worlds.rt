//! The worlds of pairs: their least pair, their joins and their order.

ghost use Rattle.std.specs.Prelude.{◌≤◌, All};
ghost use Rattle.hs_lattice.specs.Listing.{IfWhole};

use crate::words::{cut, number, put_between, put_part};
use case_lines::{Answer, limit};
use hs_lattice::{JoinWorld, Listing, join_closure};
use io_pairs::IoPair;
use machine_table::Machine;
use mm_lattice::{MmPair, MmWorld};
use partition::Partition;
use std::alloc::Global;

/// A pair of two partitions.
pub(crate) trait Sided {
    /// The left side.
    fn left(&self) -> &Partition;

    /// The right side.
    fn right(&self) -> &Partition;
}

impl Sided for IoPair {
    fn left(&self) -> &Partition {
        &self.left
    }

    fn right(&self) -> &Partition {
        &self.right
    }
}

impl Sided for MmPair {
    fn left(&self) -> &Partition {
        &self.left
    }

    fn right(&self) -> &Partition {
        &self.right
    }
}

/// Puts the sides of a pair with a bar between them.
pub(crate) fn put_pair<P: Sided>(alloc: Global, pair: &P, answer: &mut Answer) {
    put_part(alloc, pair.left(), answer);
    answer.add(b"|");
    put_part(alloc, pair.right(), answer);
}

/// Puts the pairs of a listing with a space between each two, after `more` where it is not whole.
pub(crate) fn put_listed<P: Sided>(alloc: Global, listing: &Listing<P>, answer: &mut Answer) {
    let pairs = marked(listing, answer);
    for (place, pair) in pairs.iter().enumerate() {
        put_between(place, answer);
        put_pair(alloc, pair, answer);
    }
}

/// The pairs of a listing. Puts `more` where it is not whole.
pub(crate) fn marked<'a, P: Sided>(listing: &'a Listing<P>, answer: &mut Answer) -> &'a [P] {
    match listing {
        Listing::Whole(pairs) => pairs.as_slice(),
        Listing::More(pairs) => {
            answer.add(b"more ");
            pairs.as_slice()
        }
    }
}

/// Puts what is asked of the world of Mm pairs.
pub(crate) fn put_in_mm_world(
    alloc: Global,
    call: &str,
    words: &str,
    m: &Machine,
    answer: &mut Answer,
) {
    let world = MmWorld { machine: m };
    match mm_lattice::all(alloc, m, 10000) {
        Ok(listing) => put_in_listing(alloc, &world, call, words, &listing, answer),
        Err(_) => answer.fail(),
    }
}

/// Puts what is asked of a world with a whole listing.
pub(crate) fn put_in_listing<P: Sided, W: JoinWorld<Item = P>>(
    alloc: Global,
    world: &W,
    call: &str,
    words: &str,
    listing: &Listing<P>,
    answer: &mut Answer,
)
    requires world { W.lawful world.now }
    requires listing { IfWhole listing.now (All (λ pair. W.fits world.now (W.meaning pair))) }
{
    match listing {
        Listing::Whole(pairs) => put_in_world(alloc, world, call, words, pairs.as_slice(), answer),
        Listing::More(_) => answer.fail(),
    }
}

/// Puts what is asked of a world and of the pairs of its listing.
fn put_in_world<P: Sided, W: JoinWorld<Item = P>>(
    alloc: Global,
    world: &W,
    call: &str,
    words: &str,
    pairs: &[P],
    answer: &mut Answer,
)
    requires world { W.lawful world.now }
    requires pairs { All (λ pair. W.fits world.now (W.meaning pair)) pairs.now }
{
    if call.ends_with("_joined") {
        put_joined(alloc, world, words, pairs, answer);
    } else {
        put_of_places(alloc, world, call, words, pairs, answer);
    }
}

/// Puts the joins of pairs, up to the limit that words say.
fn put_joined<P: Sided, W: JoinWorld<Item = P>>(
    alloc: Global,
    world: &W,
    words: &str,
    pairs: &[P],
    answer: &mut Answer,
)
    requires world { W.lawful world.now }
    requires pairs { All (λ pair. W.fits world.now (W.meaning pair)) pairs.now }
{
    match limit(words) {
        Ok((most, _)) => put_joins(alloc, world, pairs, most, answer),
        Err(_) => answer.fail(),
    }
}

/// Puts the joins of pairs, up to a limit.
fn put_joins<P: Sided, W: JoinWorld<Item = P>>(
    alloc: Global,
    world: &W,
    pairs: &[P],
    most: usize,
    answer: &mut Answer,
)
    requires world { W.lawful world.now }
    requires pairs { All (λ pair. W.fits world.now (W.meaning pair)) pairs.now }
    requires positive { 1 ≤ most }
    requires bounded { most ≤ 10000 }
{
    match join_closure(alloc, world, pairs, most) {
        Ok(listing) => put_listed(alloc, &listing, answer),
        Err(_) => answer.fail(),
    }
}

/// Puts what is asked of the pairs at two places of a listing.
fn put_of_places<P: Sided, W: JoinWorld<Item = P>>(
    alloc: Global,
    world: &W,
    call: &str,
    words: &str,
    pairs: &[P],
    answer: &mut Answer,
)
    requires world { W.lawful world.now }
    requires pairs { All (λ pair. W.fits world.now (W.meaning pair)) pairs.now }
{
    let (i, j) = cut(words);
    let Some(x) = pairs.get(usize::from(number(i).unwrap_or(0))) else {
        return answer.fail();
    };
    let Some(y) = pairs.get(usize::from(number(j).unwrap_or(0))) else {
        return answer.fail();
    };
    put_of_two(alloc, world, call, x, y, answer);
}

/// Puts the least pair of a world, the join of two pairs, or whether the first comes before the second.
fn put_of_two<P: Sided, W: JoinWorld<Item = P>>(
    alloc: Global,
    world: &W,
    call: &str,
    x: &P,
    y: &P,
    answer: &mut Answer,
)
    requires world { W.lawful world.now }
    requires x { W.fits world.now (W.meaning x.now) }
    requires y { W.fits world.now (W.meaning y.now) }
{
    match call {
        "input_least" | "output_least" | "mm_least" => match world.bottom(alloc) {
            Ok(pair) => put_pair(alloc, &pair, answer),
            Err(_) => answer.fail(),
        },
        "input_join" | "output_join" | "mm_join" => match world.join(alloc, x, y) {
            Ok(pair) => put_pair(alloc, &pair, answer),
            Err(_) => answer.fail(),
        },
        "input_before" | "output_before" | "mm_before" => {
            let before = world.before(x, y);
            answer.add_displayed(format_args!("{before:?}"));
        }
        _ => answer.fail(),
    }
}
