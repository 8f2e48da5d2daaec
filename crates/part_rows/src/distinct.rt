//! Equal rows once.

ghost use Rattle.std.specs.Prelude.{◌≡◌, IfOk, OnOk, map};
ghost use Rattle.part_machines.specs.PartRows as part_rows;
ghost use Rattle.part_machines.specs.PartRows.{numbers_of_row};
ghost use Rattle.part_rows.specs.Inner.Distinct.{with_row};

use indexmap::IndexSet;
use kiss_file::KissRow;
use std::alloc::{AllocError, Global};

/// Of equal rows the first.
pub(crate) fn rows_once(alloc: Global, rows: &[KissRow]) -> Result<Vec<KissRow>, AllocError>
    ensures { IfOk result (λ once. once.items ≡ part_rows.rows_once rows.now) }
{
    let mut seen = IndexSet::new(alloc);
    let mut once = Vec::new(alloc);
    for row in rows {
        add_once(&mut seen, &mut once, row)?;
    }
    Ok(once)
}

/// Adds the row, unless an equal one was seen.
fn add_once(
    seen: &mut IndexSet<[u64; 7]>,
    once: &mut Vec<KissRow>,
    row: &KissRow,
) -> Result<(), AllocError>
    requires { seen.old.keys ≡ map numbers_of_row once.old.items }
    ensures seen { OnOk result (seen.new.keys ≡ map numbers_of_row once.new.items) }
    ensures once { OnOk result (once.new.items ≡ with_row once.old.items row.now) }
{
    let (_, is_new) = seen.insert_full(numbers_of(row))?;
    if is_new {
        once.push(*row)?;
    }
    Ok(())
}

/// What a row is made of. Two rows with the same numbers are equal.
fn numbers_of(row: &KissRow) -> [u64; 7]
    ensures { result ≡ numbers_of_row row.now }
{
    let next = match row.to {
        None => 0,
        Some(t) => u64::from(t) + 1,
    };
    [
        u64::from(row.cube.width),
        u64::from(row.cube.care),
        u64::from(row.cube.value),
        u64::from(row.from),
        next,
        row.care,
        row.value,
    ]
}
