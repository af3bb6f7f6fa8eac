//! Blocks: their size, their planes and the values in them.

ghost use Rattle.std.specs.Prelude.{◌≡◌, ◌*◌, ◌<◌, ◌≤◌, ◌↔◌, IsTrue};
ghost use Rattle.graph_rows.specs.Block.{width_of, joined_plane, past_plane, block_graph, IsFormed};
ghost use Rattle.auto_core.specs.Graph.{SameGraph};

use auto_core::rows;
use bit_rows::are_equal;

/// The number of words of a block for a graph of `n` states.
pub fn words_of(n: u32) -> usize
    ensures { result ≡ 2 * n * width_of n }
{
    2 * n as usize * rows::words_for(n)
}

/// The first plane of the block: the pairs of states that are joined.
pub fn joined(n: u32, g: &[u64]) -> &[u64]
    requires { IsFormed n g.now }
    ensures { result.now ≡ joined_plane n g.now }
{
    &g[..n as usize * rows::words_for(n)]
}

/// The second plane of the block: the pairs of states that are joined past an accepting state.
pub fn past(n: u32, g: &[u64]) -> &[u64]
    requires { IsFormed n g.now }
    ensures { result.now ≡ past_plane n g.now }
{
    &g[n as usize * rows::words_for(n)..]
}

/// The value of the pair: 0 where it is not joined, 2 where it is joined past an accepting state,
/// else 1.
pub fn arc(n: u32, g: &[u64], p: u32, q: u32) -> u8
    requires formed { IsFormed n g.now }
    requires source { p < n }
    requires target { q < n }
    ensures joined { (1 ≤ result) ↔ (block_graph n g.now).joined p q }
    ensures past { (2 ≤ result) ↔ (block_graph n g.now).past p q }
    ensures most { result ≤ 2 }
{
    let width = rows::words_for(n);
    let (p, q) = (p as usize, q as usize);
    if rows::has_cell(past(n, g), width, p, q) {
        2
    } else if rows::has_cell(joined(n, g), width, p, q) {
        1
    } else {
        0
    }
}

/// Tells whether both blocks give each pair of states the same value.
pub fn same(n: u32, g: &[u64], h: &[u64]) -> bool
    requires first { IsFormed n g.now }
    requires second { IsFormed n h.now }
    ensures { IsTrue result ↔ SameGraph (block_graph n g.now) (block_graph n h.now) }
{
    are_equal(joined(n, g), joined(n, h)) && are_equal(past(n, g), past(n, h))
}
