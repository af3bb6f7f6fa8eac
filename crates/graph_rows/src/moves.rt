//! A graph extended by a letter, move by move.

ghost use Rattle.std.specs.Prelude.{◌≡◌, ◌*◌, ◌^◌, ◌<◌, length};
ghost use Rattle.auto_core.specs.Reach.{IsTable};
ghost use Rattle.auto_core.specs.Graph.{IsGraph, SameGraph, graph_of_tables, extended};
ghost use Rattle.graph_rows.specs.Block.{width_of, block_graph, IsFormed};
ghost use Rattle.graph_rows.specs.Added.{HasAdded};

use crate::block;
use crate::letters::add_moves;
use auto_core::{Auto, rows};
use bit_rows::next_bit;

/// Extends the arcs out of the state of the row by the moves with the label.
fn extend_row(
    automaton: &Auto,
    label: u32,
    width: usize,
    row: u32,
    from_joined: &[u64],
    from_past: &[u64],
    joined: &mut [u64],
    past: &mut [u64],
)
    requires few { width < 2 ^ 32 }
    requires states_fit { automaton.now.states < 2 ^ 32 }
    requires is_row { row < automaton.now.states }
    requires from_joined { IsTable from_joined.now automaton.now.states width }
    requires from_past { IsTable from_past.now automaton.now.states width }
    requires within { IsGraph
        (graph_of_tables from_joined.now from_past.now automaton.now.states width) }
    requires joined_len { length joined.old ≡ automaton.now.states * width }
    requires past_len { length past.old ≡ automaton.now.states * width }
    ensures joined { HasAdded width row
        ((extended automaton.now
        (graph_of_tables from_joined.now from_past.now automaton.now.states width) label).joined
        row) joined.old joined.new }
    ensures past { HasAdded width row
        ((extended automaton.now
        (graph_of_tables from_joined.now from_past.now automaton.now.states width) label).past row)
        past.old past.new }
{
    let reached = rows::row_at(from_joined, width, row as usize);
    let mut at = 0;
    while let Some(middle) = next_bit(reached, at) {
        let flagged = rows::has_cell(from_past, width, row as usize, middle);
        add_moves(
            automaton,
            label,
            middle as u32,
            flagged,
            width,
            row,
            joined,
            past,
        );
        at = middle + 1;
    }
}

/// Extends the arcs out of each state by the moves with the label.
fn extend_rows(
    automaton: &Auto,
    label: u32,
    width: usize,
    from_joined: &[u64],
    from_past: &[u64],
    joined: &mut [u64],
    past: &mut [u64],
)
    requires few { width < 2 ^ 32 }
    requires from_joined { IsTable from_joined.now automaton.now.states width }
    requires from_past { IsTable from_past.now automaton.now.states width }
    requires within { IsGraph
        (graph_of_tables from_joined.now from_past.now automaton.now.states width) }
    requires joined_len { length joined.old ≡ automaton.now.states * width }
    requires past_len { length past.old ≡ automaton.now.states * width }
    ensures joined { IsTable joined.new automaton.now.states width }
    ensures past { IsTable past.new automaton.now.states width }
    ensures graph { SameGraph (graph_of_tables joined.new past.new automaton.now.states width)
        (extended automaton.now
        (graph_of_tables from_joined.now from_past.now automaton.now.states width) label) }
{
    rows::clear_row(joined);
    rows::clear_row(past);
    for state in 0..automaton.states() {
        extend_row(
            automaton,
            label,
            width,
            state,
            from_joined,
            from_past,
            joined,
            past,
        );
    }
}

/// Writes the graph that has each arc of `from`, followed by each move with the label.
pub fn extend(automaton: &Auto, label: u32, from: &[u64], out: &mut [u64])
    requires formed { IsFormed automaton.now.states from.now }
    requires len { length out.old ≡ 2 * automaton.now.states * width_of automaton.now.states }
    ensures formed { IsFormed automaton.now.states out.new }
    ensures graph { SameGraph (block_graph automaton.now.states out.new)
        (extended automaton.now (block_graph automaton.now.states from.now) label) }
{
    let states = automaton.states();
    let width = rows::words_for(states);
    let (joined, past) = out.split_at_mut(states as usize * width);
    extend_rows(
        automaton,
        label,
        width,
        block::joined(states, from),
        block::past(states, from),
        joined,
        past,
    );
}
