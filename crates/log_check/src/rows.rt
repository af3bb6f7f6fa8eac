//! The rows of a relation, or of the part of it that leads into the states from one on.

ghost use Rattle.std.specs.Prelude.{◌≡◌, ◌+◌, ◌≤◌, ◌<◌, IfOk};
ghost use Rattle.log_check.specs.Rows.{HoldsFrom, AreRights, AreRows};

use auto_core::{List, Memory};
use bit_rel::Rel;
use cert_line::joined_runs;
use cert_value::Row;
use std::alloc::Global;

/// The numbers below `count` that the relation holds `left` with when `offset` is added, ascending.
fn rights_of(
    alloc: Global,
    rel: &Rel,
    left: u32,
    offset: u32,
    count: u32,
) -> Result<List<u32>, Memory>
    requires left { left < rel.now.size }
    requires rights { offset + count ≤ rel.now.size }
    requires few { rel.now.size ≤ 1000000000 }
    ensures { IfOk result (AreRights (HoldsFrom rel.now.pairs offset count) left) }
{
    let mut rights = List::new(alloc);
    for right in 0..count {
        if rel.get(left, offset + right) {
            rights.push(right)?;
        }
    }
    Ok(rights)
}

/// A row for each of the states below `lefts` that the relation holds with one of the `rights`
/// states from `offset` on. The rows number these from 0.
pub fn rows_of(
    alloc: Global,
    rel: &Rel,
    lefts: u32,
    offset: u32,
    rights: u32,
) -> Result<List<Row>, Memory>
    requires lefts { lefts ≤ rel.now.size }
    requires rights { offset + rights ≤ rel.now.size }
    requires few { rel.now.size ≤ 1000000000 }
    ensures { IfOk result (AreRows (HoldsFrom rel.now.pairs offset rights) lefts) }
{
    let mut rows = List::new(alloc);
    for left in 0..lefts {
        let found = rights_of(alloc, rel, left, offset, rights)?;
        if !found.as_slice().is_empty() {
            let runs = joined_runs(alloc, found.as_slice())?;
            rows.push(Row { left, runs })?;
        }
    }
    Ok(rows)
}
