//! The relations that certificates list.

ghost use Rattle.std.specs.Prelude.{◌≡◌, ◌<◌, ◌↔◌, ◌⊎◌, ℕ, IfOk, IsTrue};
ghost use Rattle.auto_core.specs.Game.{Holds};
ghost use Rattle.cert_value.specs.Text.{run_numbers};
ghost use Rattle.log_check.specs.Blocks.{pairs_with, pairs_of_row, IsRowBelow, IsBlockBelow, IsBlockRelation};

use auto_core::Memory;
use bit_rel::Rel;
use cert_value::{RelBlock, Row, Run};
use std::alloc::Global;

fn is_row_below(states: u32, row: &Row) -> bool
    ensures { IsTrue result ↔ IsRowBelow states row.now }
{
    row.left < states && row.runs.as_slice().iter().all(|run| run.last < states)
}

/// Tells whether the numbers of the block are those of states, of which there are so many. No run
/// is taken apart for that.
pub fn is_block_below(states: u32, block: &RelBlock) -> bool
    ensures { IsTrue result ↔ IsBlockBelow states block.now }
{
    for row in block.rows.as_slice() {
        if !is_row_below(states, row) {
            return false;
        }
    }
    true
}

fn add_run(rel: &mut Rel, left: u32, run: Run)
    requires left { left < rel.old.size }
    requires last { run.last < rel.old.size }
    ensures size { rel.new.size ≡ rel.old.size }
    ensures pairs { (p q : ℕ)
        → Holds rel.new.pairs p q
        ↔ (Holds rel.old.pairs p q ⊎ Holds (pairs_with left (run_numbers run)) p q) }
{
    for right in run.first as u64..run.last as u64 + 1 {
        rel.set(left, right as u32);
    }
}

fn add_row(rel: &mut Rel, row: &Row)
    requires { IsRowBelow rel.old.size row.now }
    ensures size { rel.new.size ≡ rel.old.size }
    ensures pairs { (p q : ℕ)
        → Holds rel.new.pairs p q ↔ (Holds rel.old.pairs p q ⊎ Holds (pairs_of_row row.now) p q) }
{
    for run in row.runs.as_slice() {
        add_run(rel, row.left, *run);
    }
}

/// The relation on so many states that the block lists.
pub fn relation_of(alloc: Global, states: u32, block: &RelBlock) -> Result<Rel, Memory>
    requires { IsBlockBelow states block.now }
    ensures { IfOk result (IsBlockRelation states block.now) }
{
    let mut rel = Rel::empty(alloc, states)?;
    for row in block.rows.as_slice() {
        add_row(&mut rel, row);
    }
    Ok(rel)
}
