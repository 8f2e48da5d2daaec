//! Where symbols lead two states.

ghost use Rattle.std.specs.Prelude.{◌≡◌, ◌↔◌, ◌<◌, All, IfOk, IsTrue, length};
ghost use Rattle.machine_table.specs.Pairs.{HaveOneBit};
ghost use Rattle.least_codes.specs.Inner.Table.{AreApartIn, IsInside, IsImageTable, KeepsBit};

use crate::two_states::{TwoStates, all_pairs};
use machine_table::Machine;
use std::alloc::{AllocError, Global};

/// Two states, and the pairs of states that symbols lead them to.
#[derive(Drop)]
pub(crate) struct Images {
    pub(crate) pair: TwoStates,
    pub(crate) images: Vec<(u16, u16)>,
}

/// The images of all pairs of states of a machine.
pub(crate) fn image_table(alloc: Global, m: &Machine) -> Result<Vec<Images>, AllocError>
    ensures { IfOk result (λ table. IsImageTable m.now table.items) }
{
    m.keeps_its_states();
    let pairs = all_pairs(alloc, m.states())?;
    let mut table = Vec::new(alloc);
    for pair in &pairs {
        let images = m.images(alloc, pair.s, pair.t)?;
        table.push(Images {
            pair: *pair,
            images,
        })?;
    }
    Ok(table)
}

/// Whether the words of two states have the same bit.
fn have_one_bit(words: &[u64], i: u32, u: usize, v: usize) -> bool
    requires bit { i < 64 }
    requires u { u < length words.now }
    requires v { v < length words.now }
    ensures { IsTrue result ↔ HaveOneBit words.now i u v }
{
    (words[u] >> i) & 1 == (words[v] >> i) & 1
}

/// Whether the words of each image have the same bit.
fn keeps_bit(words: &[u64], i: u32, row: &Images) -> bool
    requires bit { i < 64 }
    requires inside { IsInside (length words.now) row.now }
    ensures { IsTrue result ↔ KeepsBit words.now i row.now }
{
    for image in &row.images {
        if !have_one_bit(words, i, usize::from(image.0), usize::from(image.1)) {
            return false;
        }
    }
    true
}

/// The two states of each row with an image whose two words differ at the bit.
pub(crate) fn apart_at(
    alloc: Global,
    table: &[Images],
    words: &[u64],
    i: u32,
) -> Result<Vec<TwoStates>, AllocError>
    requires bit { i < 64 }
    requires inside { All (IsInside (length words.now)) table.now }
    ensures { IfOk result (λ apart. AreApartIn table.now words.now i apart.items) }
{
    let mut apart = Vec::new(alloc);
    for row in table {
        if !keeps_bit(words, i, row) {
            apart.push(row.pair)?;
        }
    }
    Ok(apart)
}
