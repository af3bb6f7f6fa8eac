//! The states of a graph from which its arcs lead to a loop past an accepting state. They are
//! marked once for a graph; then a pair of graphs is tested by one row of each.

ghost use Rattle.std.specs.Prelude.{◌≡◌, ◌<◌, ◌↔◌, ℕ, IsTrue, length};
ghost use Rattle.auto_core.specs.Rows.{HasBit};
ghost use Rattle.graph_rows.specs.Block.{width_of, block_graph, IsFormed};

use auto_core::rows;
use bit_rows::meets;

/// Tells whether an arc of `g` leads from the initial state to one of the marked ones.
pub fn enters(n: u32, g: &[u64], initial: u32, looping: &[u64]) -> bool
    requires formed { IsFormed n g.now }
    requires row { length looping.now ≡ width_of n }
    ensures { IsTrue result
        ↔ ((q : ℕ) × (block_graph n g.now).joined initial q × HasBit looping.now q) }
{
    if initial >= n {
        return false;
    }
    let width = rows::words_for(n);
    meets(
        rows::row_at(graph_rows::joined(n, g), width, initial as usize),
        looping,
    )
}
