//! The states from which graphs have a loop past an accepting state, marked in rows.

ghost use Rattle.std.specs.Prelude.{◌≡◌, IfOk};
ghost use Rattle.graph_rows.specs.Block.{block_graph, IsFormed};
ghost use Rattle.shared_graphs.specs.Looping.{IsLoopRow};

use auto_core::{Memory, rows};
use lasso_test::{Scratch, mark_looping};
use std::alloc::Global;

/// The row of the states from which the graph has a loop.
pub fn marked_row(
    alloc: Global,
    states: u32,
    block: &[u64],
    scratch: &mut Scratch,
) -> Result<Vec<u64>, Memory>
    requires formed { IsFormed states block.now }
    requires room { scratch.old ≡ states }
    ensures row { IfOk result (λ row. IsLoopRow states (block_graph states block.now) row.items) }
    ensures kept { scratch.new ≡ states }
{
    let mut row = vec![in alloc; 0; rows::words_for(states)]?;
    mark_looping(states, block, &mut row, scratch);
    Ok(row)
}
