//! Questions about partitions, as labels and as rows of bits.

ghost use Rattle.std.specs.Prelude.{◌≡◌, ◌≤◌, All, IfOk, length};
ghost use Rattle.partition.specs.Partition.{IsPartition, IsStateCount};

use crate::partitions::{partitions_of, states_of};
use anyhow::{Error, bail};
use bench_cases::Case;
use hs_lattice::{JoinWorld, Listing, join_closure};
use partition::{BitPart, BitWorld, PartWorld, Partition};
use std::alloc::{AllocError, Global};

/// The number of partitions, kept as labels, and the answer about them: the number of joins, the number of
/// pairs of states that are together, or whether what is asked holds.
pub(crate) fn answer_labels(alloc: Global, case: Case<'_>) -> Result<(usize, usize), Error> {
    let n = states_of(case.kind, case.size);
    let list = partitions_of(alloc, case.kind, case.size, n)?;
    let mut found = 0;
    for _ in 0..case.times {
        found = ask_labels(alloc, &list, n, case.work)?;
    }
    Ok((list.len(), found))
}

/// The same two numbers, with the partitions kept as rows of bits.
pub(crate) fn answer_bits(alloc: Global, case: Case<'_>) -> Result<(usize, usize), Error> {
    let n = states_of(case.kind, case.size);
    let list = in_bits(alloc, case, n)?;
    let mut found = 0;
    for _ in 0..case.times {
        found = ask_bits(alloc, &list, n, case.work)?;
    }
    Ok((list.len(), found))
}

/// The partitions of a case as rows of bits.
fn in_bits(alloc: Global, case: Case<'_>, n: usize) -> Result<Vec<BitPart>, Error>
    ensures { IfOk result (λ rows. All (λ p. IsPartition n p) rows.items) }
{
    let list = partitions_of(alloc, case.kind, case.size, n)?;
    Ok(rows_of(alloc, &list, n)?)
}

/// Partitions as rows of bits.
fn rows_of(alloc: Global, list: &[Partition], n: usize) -> Result<Vec<BitPart>, AllocError>
    requires { All (λ p. IsPartition n p) list.now }
    ensures { IfOk result (λ rows. All (λ p. IsPartition n p) rows.items) }
{
    let mut rows = Vec::new(alloc);
    for p in list {
        rows.push(BitPart::of(alloc, p)?)?;
    }
    Ok(rows)
}

/// Asks a question of partitions that are kept as labels.
fn ask_labels(alloc: Global, list: &[Partition], n: usize, work: &str) -> Result<usize, Error>
    requires states { IsStateCount n }
    requires partitions { All (λ p. IsPartition n p) list.now }
{
    match list {
        _ if work == "list" => Ok(listed(alloc, &PartWorld { n }, list)?),
        [p, .., q] if p.len() == q.len() => ask_two_labels(alloc, p, q, work),
        _ => bail!("two partitions are needed"),
    }
}

/// Asks a question of two partitions that are kept as labels.
fn ask_two_labels(alloc: Global, p: &Partition, q: &Partition, work: &str) -> Result<usize, Error>
    requires { length q.now ≡ length p.now }
{
    let last = p.len() - 1;
    Ok(match work {
        "meet" => usize::from(p.meet(alloc, q)?.same(0, last)),
        "join" => usize::from(p.join(alloc, q)?.same(0, last)),
        "before" => usize::from(p.before(q)),
        "plain" => plain_meet(p, q),
        _ => bail!("no such question of labels"),
    })
}

/// Asks a question of partitions that are kept as rows of bits.
fn ask_bits(alloc: Global, list: &[BitPart], n: usize, work: &str) -> Result<usize, Error>
    requires states { IsStateCount n }
    requires partitions { All (λ p. IsPartition n p) list.now }
{
    match list {
        _ if work == "list" => Ok(listed(alloc, &BitWorld { n }, list)?),
        [p, .., q] if p.len() == q.len() => ask_two_rows(alloc, p, q, work),
        _ => bail!("two partitions are needed"),
    }
}

/// Asks a question of two partitions that are kept as rows of bits.
fn ask_two_rows(alloc: Global, p: &BitPart, q: &BitPart, work: &str) -> Result<usize, Error>
    requires { length q.now ≡ length p.now }
{
    let last = p.len() - 1;
    Ok(match work {
        "meet" => usize::from(p.meet(alloc, q)?.same(0, last)),
        "join" => usize::from(p.join(alloc, q)?.same(0, last)),
        "before" => usize::from(p.before(q)),
        _ => bail!("no such question of bits"),
    })
}

/// The number of pairs of states that are together in both partitions.
fn plain_meet(p: &Partition, q: &Partition) -> usize
    requires { length q.now ≡ length p.now }
{
    let mut together = 0usize;
    for s in 0..p.len() {
        for t in 0..p.len() {
            together = together.wrapping_add(usize::from(p.same(s, t) && q.same(s, t)));
        }
    }
    together
}

/// The number of joins that are listed, which is 10,001 if there are more than 10,000.
fn listed<W: JoinWorld>(
    alloc: Global,
    world: &W,
    generators: &[W::Item],
) -> Result<usize, AllocError>
    requires world { W.lawful world.now }
    requires generators { All (λ x. W.fits world.now (W.meaning x)) generators.now }
{
    match join_closure(alloc, world, generators, 10_000)? {
        Listing::Whole(all) => Ok(all.as_slice().len()),
        Listing::More(some) => Ok(some.as_slice().len()),
    }
}
