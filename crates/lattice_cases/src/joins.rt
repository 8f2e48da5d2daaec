//! The calls of `hs_lattice`, on numbers and on partitions that are kept in both ways.

ghost use Rattle.std.specs.Prelude.{◌≡◌, ◌++◌, ◌∷◌, [], ◌<◌, ◌≤◌, All, IfOk, IfSome, OnOk};
ghost use Rattle.hs_lattice.specs.Collection.{IsCollection};
ghost use Rattle.partition.specs.Partition.{IsStateCount};

use crate::numbers::Below;
use crate::words::{count, cut, put_truth};
use crate::worlds::Worded;
use case_lines::{Answer, limit};
use hs_lattice::{Collection, Listing, join_closure};
use partition::{BitWorld, PartWorld};
use std::alloc::{AllocError, Global};

/// Puts what a call answers.
pub(crate) fn put_answer(alloc: Global, call: &str, words: &str, answer: &mut Answer) {
    let (kind, world) = call.rsplit_once('_').unwrap_or((call, ""));
    let (n, words) = cut(words);
    match count(n) {
        Some(n) => put_of_size(alloc, kind, world, n, words, answer),
        None => answer.fail(),
    }
}

/// Puts what is asked of a world of the given size.
fn put_of_size(alloc: Global, kind: &str, world: &str, n: usize, words: &str, answer: &mut Answer)
    requires { IsStateCount n }
{
    match world {
        "numbers" => put_in_world(alloc, &Below { n: n as u16 }, kind, words, answer),
        "labels" => put_in_world(alloc, &PartWorld { n }, kind, words, answer),
        "rows" => put_in_world(alloc, &BitWorld { n }, kind, words, answer),
        _ => answer.fail(),
    }
}

/// Puts what is asked of a world.
fn put_in_world<W: Worded>(alloc: Global, world: &W, kind: &str, words: &str, answer: &mut Answer)
    requires { W.lawful world.now }
{
    if kind == "joined" {
        put_joined(alloc, world, words, answer);
    } else {
        put_of_words(alloc, world, kind, words, answer);
    }
}

/// Adds an item to a list.
fn add_item<T: Drop>(list: &mut Vec<T>, item: T) -> Result<(), AllocError>
    ensures { OnOk result (list.new.items ≡ list.old.items ++ item ∷ []) }
{
    list.push(item)?;
    Ok(())
}

/// The values that words say. `-` says none.
fn values<W: Worded>(alloc: Global, world: &W, words: &str) -> Option<Vec<W::Item>>
    ensures { IfSome result (λ list. All (λ x. W.fits world.now (W.meaning x)) list.items) }
{
    let mut list = Vec::new(alloc);
    if words == "-" {
        return Some(list);
    }
    for word in words.split(' ') {
        let item = world.value(alloc, word)?;
        add_item(&mut list, item).ok()?;
    }
    Some(list)
}

/// Puts values, each after a space.
fn put_values<W: Worded>(alloc: Global, world: &W, items: &[W::Item], answer: &mut Answer) {
    for item in items {
        answer.add(b" ");
        world.put_word(alloc, item, answer);
    }
}

/// Puts the joins of the values that words say, up to the limit in the first word.
fn put_joined<W: Worded>(alloc: Global, world: &W, words: &str, answer: &mut Answer)
    requires { W.lawful world.now }
{
    match limit(words) {
        Ok((most, words)) => put_joins_up_to(alloc, world, most, words, answer),
        Err(_) => answer.fail(),
    }
}

/// Puts the joins of the values that words say, up to a limit.
fn put_joins_up_to<W: Worded>(
    alloc: Global,
    world: &W,
    most: usize,
    words: &str,
    answer: &mut Answer,
)
    requires world { W.lawful world.now }
    requires positive { 1 ≤ most }
    requires bounded { most ≤ 10000 }
{
    match values(alloc, world, words) {
        Some(values) => put_joins(alloc, world, values.as_slice(), most, answer),
        None => answer.fail(),
    }
}

/// Puts whether the joins of values are within a limit, and the joins.
fn put_joins<W: Worded>(
    alloc: Global,
    world: &W,
    values: &[W::Item],
    most: usize,
    answer: &mut Answer,
)
    requires world { W.lawful world.now }
    requires values { All (λ x. W.fits world.now (W.meaning x)) values.now }
    requires positive { 1 ≤ most }
    requires bounded { most ≤ 10000 }
{
    match join_closure(alloc, world, values, most) {
        Ok(listing) => put_listing(alloc, world, &listing, answer),
        Err(_) => answer.fail(),
    }
}

/// Puts a listing: whether it is whole, and its values.
fn put_listing<W: Worded>(
    alloc: Global,
    world: &W,
    listing: &Listing<W::Item>,
    answer: &mut Answer,
) {
    let (word, items) = match listing {
        Listing::Whole(all) => (b"whole".as_slice(), all.as_slice()),
        Listing::More(some) => (b"more".as_slice(), some.as_slice()),
    };
    answer.add(word);
    put_values(alloc, world, items, answer);
}

/// Puts what is asked of the values that words say.
fn put_of_words<W: Worded>(alloc: Global, world: &W, kind: &str, words: &str, answer: &mut Answer)
    requires { W.lawful world.now }
{
    match values(alloc, world, words) {
        Some(values) if kind == "collected" => {
            put_collection(alloc, world, values.as_slice(), answer);
        }
        Some(values) if kind == "join_of_three" => {
            put_join(alloc, world, values.as_slice(), answer);
        }
        _ => answer.fail(),
    }
}

/// Puts how many of the values came again in a collection, and the values of the collection in ascending order.
fn put_collection<W: Worded>(alloc: Global, world: &W, values: &[W::Item], answer: &mut Answer)
    requires world { W.lawful world.now }
    requires values { All (λ x. W.fits world.now (W.meaning x)) values.now }
{
    let mut known = Collection::new(alloc);
    match collect(alloc, world, values, &mut known) {
        Ok(again) => put_ascending(alloc, world, again, known, answer),
        Err(_) => answer.fail(),
    }
}

/// Puts how many values came again, and the values of a collection in ascending order.
fn put_ascending<W: Worded>(
    alloc: Global,
    world: &W,
    again: usize,
    known: Collection<W::Item>,
    answer: &mut Answer,
)
    requires world { W.lawful world.now }
    requires known { IsCollection W.meaning (W.fits world.now) (W.precedes world.now) known }
{
    answer.add(b"again ");
    answer.add_number(again as u64);
    answer.add(b":");
    match known.ascending(alloc, world) {
        Ok(items) => put_values(alloc, world, items.as_slice(), answer),
        Err(_) => answer.fail(),
    }
}

/// Adds copies of the values to a collection, and counts those that it held before.
fn collect<W: Worded>(
    alloc: Global,
    world: &W,
    items: &[W::Item],
    known: &mut Collection<W::Item>,
) -> Result<usize, AllocError>
    requires world { W.lawful world.now }
    requires items { All (λ x. W.fits world.now (W.meaning x)) items.now }
    requires known { IsCollection W.meaning (W.fits world.now) (W.precedes world.now) known.old }
    ensures { OnOk result (IsCollection W.meaning (W.fits world.now) (W.precedes world.now) known.new) }
{
    let mut again = 0usize;
    for item in items {
        again = again.saturating_add(usize::from(known.holds(world, item)));
        known.add(world, world.copy(alloc, item)?)?;
    }
    Ok(again)
}

/// Puts the join of three values, and whether it is the least value. The answer fails for another number of values.
fn put_join<W: Worded>(alloc: Global, world: &W, values: &[W::Item], answer: &mut Answer)
    requires world { W.lawful world.now }
    requires values { All (λ x. W.fits world.now (W.meaning x)) values.now }
{
    let [x, y, z] = values else {
        return answer.fail();
    };
    match join_of_three(alloc, world, x, y, z) {
        Ok(all) => put_and_least(alloc, world, &all, answer),
        Err(_) => answer.fail(),
    }
}

/// The join of three values.
fn join_of_three<W: Worded>(
    alloc: Global,
    world: &W,
    x: &W::Item,
    y: &W::Item,
    z: &W::Item,
) -> Result<W::Item, AllocError>
    requires world { W.lawful world.now }
    requires x { W.fits world.now (W.meaning x.now) }
    requires y { W.fits world.now (W.meaning y.now) }
    requires z { W.fits world.now (W.meaning z.now) }
    ensures { IfOk result (λ item. W.fits world.now (W.meaning item)) }
{
    let two = world.join(alloc, x, y)?;
    let three = world.join(alloc, &two, z)?;
    Ok(three)
}

/// Puts a value, and whether it is the least one.
fn put_and_least<W: Worded>(alloc: Global, world: &W, item: &W::Item, answer: &mut Answer)
    requires world { W.lawful world.now }
    requires item { W.fits world.now (W.meaning item.now) }
{
    world.put_word(alloc, item, answer);
    answer.add(b" ");
    match world.bottom(alloc) {
        Ok(least) => put_truth(world.same(item, &least), answer),
        Err(_) => answer.fail(),
    }
}
