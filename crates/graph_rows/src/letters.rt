//! The graph of a letter, and a graph extended by a letter.

ghost use Rattle.std.specs.Prelude.{◌≡◌, ◌+◌, ◌*◌, ◌^◌, ◌<◌, ◌≤◌, ◌⊎◌, ℕ, true, false, length};
ghost use Rattle.auto_core.specs.Automaton.{Moves, IsAccepting};
ghost use Rattle.auto_core.specs.Rows.{HasBit, cell_of};
ghost use Rattle.auto_core.specs.Reach.{IsTable, HasArc};
ghost use Rattle.auto_core.specs.Graph.{IsGraph, SameGraph, graph_of_tables, letter_graph, extended};
ghost use Rattle.graph_rows.specs.Block.{width_of, block_graph, IsFormed};
ghost use Rattle.graph_rows.specs.Added.{HasAdded};

use crate::block;
use crate::unions::add_union;
use auto_core::{Auto, rows};
use bit_rows::{are_equal, next_bit};

/// Joins the state of the row to the target, past an accepting state if the way to the target is or
/// the target itself is one.
fn add_arc(
    automaton: &Auto,
    target: u32,
    flagged: bool,
    width: usize,
    row: u32,
    joined: &mut [u64],
    past: &mut [u64],
)
    requires is_state { target < automaton.now.states }
    requires column { target < width * 64 }
    requires is_row { row < automaton.now.states }
    requires joined_len { length joined.old ≡ automaton.now.states * width }
    requires past_len { length past.old ≡ automaton.now.states * width }
    ensures joined { HasAdded width row (λ q. q ≡ target) joined.old joined.new }
    ensures past { HasAdded width
        row (λ q. (q ≡ target) × ((flagged ≡ true) ⊎ IsAccepting automaton.now target)) past.old
        past.new }
{
    rows::set_cell(joined, width, row as usize, target as usize);
    if flagged || automaton.accepting(target) {
        rows::set_cell(past, width, row as usize, target as usize);
    }
}

/// Joins the state of the row to each state that a move with the label leads to from `from`;
/// `flagged` tells whether the way to there passes an accepting state.
pub(crate) fn add_moves(
    automaton: &Auto,
    label: u32,
    from: u32,
    flagged: bool,
    width: usize,
    row: u32,
    joined: &mut [u64],
    past: &mut [u64],
)
    requires room { automaton.now.states ≤ width * 64 }
    requires is_state { from < automaton.now.states }
    requires is_row { row < automaton.now.states }
    requires joined_len { length joined.old ≡ automaton.now.states * width }
    requires past_len { length past.old ≡ automaton.now.states * width }
    ensures joined { HasAdded width row (λ q. Moves automaton.now from label q) joined.old
        joined.new }
    ensures past { HasAdded width
        row (λ q. Moves automaton.now from label q
        × ((flagged ≡ true) ⊎ IsAccepting automaton.now q)) past.old past.new }
{
    let span = automaton.successors(from, label);
    let transitions = automaton.transitions();
    for t in span.begin..span.end {
        let target = transitions[t as usize].target;
        add_arc(automaton, target, flagged, width, row, joined, past);
    }
}

/// Tells whether the second row, of the same length, has all bits of the first.
fn are_within(row: &[u64], other: &[u64]) -> bool
    requires equal { length row.now ≡ length other.now }
    requires few { length row.now < 2 ^ 32 }
    ensures { result ≡ true → (q : ℕ) → HasBit row.now q → HasBit other.now q }
{
    match rows::first_missing(row, other) {
        Some(_) => false,
        None => true,
    }
}

/// Extends the arcs out of the state of the row, which is empty, by the moves with the label: those
/// past an accepting state by all moves in both tables, then, where there are others, all in the
/// first and by the moves to accepting states in the second.
fn add_row(
    automaton: &Auto,
    label: u32,
    width: usize,
    row: u32,
    from_joined: &[u64],
    from_past: &[u64],
    letter_joined: &[u64],
    letter_past: &[u64],
    joined: &mut [u64],
    past: &mut [u64],
)
    requires few { width < 2 ^ 32 }
    requires states_fit { automaton.now.states < 2 ^ 32 }
    requires is_row { row < automaton.now.states }
    requires from_joined { IsTable from_joined.now automaton.now.states width }
    requires from_past { IsTable from_past.now automaton.now.states width }
    requires letter_joined { IsTable letter_joined.now automaton.now.states width }
    requires letter_past { IsTable letter_past.now automaton.now.states width }
    requires letter { SameGraph
        (graph_of_tables letter_joined.now letter_past.now automaton.now.states width)
        (letter_graph automaton.now label) }
    requires within { IsGraph
        (graph_of_tables from_joined.now from_past.now automaton.now.states width) }
    requires joined_len { length joined.old ≡ automaton.now.states * width }
    requires past_len { length past.old ≡ automaton.now.states * width }
    requires empty { (q : ℕ) → q < width * 64 → cell_of past.old width row q ≡ false }
    ensures joined { HasAdded width row
        ((extended automaton.now
        (graph_of_tables from_joined.now from_past.now automaton.now.states width) label).joined
        row) joined.old joined.new }
    ensures past { HasAdded width row
        ((extended automaton.now
        (graph_of_tables from_joined.now from_past.now automaton.now.states width) label).past row)
        past.old past.new }
{
    let states = automaton.states();
    let reached = rows::row_at(from_joined, width, row as usize);
    let marked = rows::row_at(from_past, width, row as usize);
    add_union(letter_joined, states, width, marked, row, past);
    rows::or_row(
        joined,
        width,
        row as usize,
        rows::row_at(past, width, row as usize),
    );
    if !are_within(reached, marked) {
        add_union(letter_joined, states, width, reached, row, joined);
        add_union(letter_past, states, width, reached, row, past);
    }
}

fn write_letter(automaton: &Auto, label: u32, width: usize, joined: &mut [u64], past: &mut [u64])
    requires room { automaton.now.states ≤ width * 64 }
    requires joined_len { length joined.old ≡ automaton.now.states * width }
    requires past_len { length past.old ≡ automaton.now.states * width }
    ensures joined { IsTable joined.new automaton.now.states width }
    ensures past { IsTable past.new automaton.now.states width }
    ensures graph { SameGraph (graph_of_tables joined.new past.new automaton.now.states width)
        (letter_graph automaton.now label) }
{
    rows::clear_row(joined);
    rows::clear_row(past);
    for state in 0..automaton.states() {
        add_moves(automaton, label, state, false, width, state, joined, past);
    }
}

/// Tells whether the row of the table has a bit.
fn has_arc(table: &[u64], width: usize, row: u32) -> bool
    requires few { width < 2 ^ 32 }
    requires row { row * width + width ≤ length table.now }
    ensures { result ≡ false → (q : ℕ) → q < width * 64 → cell_of table.now width row q ≡ false }
{
    next_bit(rows::row_at(table, width, row as usize), 0).is_some()
}

/// How many places there are for the latest rows that differ.
const PLACES: usize = 64;

/// The place of the row, by its words.
fn place_of(table: &[u64], width: usize, row: u32) -> usize
    requires { row * width + width ≤ length table.now }
    ensures { result < 64 }
{
    let mut mixed: u64 = 0;
    for word in rows::row_at(table, width, row as usize) {
        mixed = (mixed ^ *word).wrapping_mul(0x9E3779B97F4A7C15);
    }
    (mixed >> 32) as usize % PLACES
}

/// Tells whether both rows of the table are the same.
fn are_same(table: &[u64], width: usize, row: u32, other: u32) -> bool
    requires row { row * width + width ≤ length table.now }
    requires other { other * width + width ≤ length table.now }
    ensures { result ≡ true → (q : ℕ) → q < width * 64
        → cell_of table.now width row q ≡ cell_of table.now width other q }
{
    are_equal(
        rows::row_at(table, width, row as usize),
        rows::row_at(table, width, other as usize),
    )
}

/// The other state, if it comes before the state of the row and has the same rows in both tables;
/// else the state of the row.
fn twin_of(other: u32, joined: &[u64], past: &[u64], width: usize, row: u32) -> u32
    requires joined { row * width + width ≤ length joined.now }
    requires past { row * width + width ≤ length past.now }
    ensures joined { (q : ℕ) → q < width * 64
        → cell_of joined.now width row q ≡ cell_of joined.now width result q }
    ensures past { (q : ℕ) → q < width * 64
        → cell_of past.now width row q ≡ cell_of past.now width result q }
    ensures most { result ≤ row }
{
    if other >= row {
        return row;
    }
    if !are_same(joined, width, row, other) {
        return row;
    }
    if !are_same(past, width, row, other) {
        return row;
    }
    other
}

/// Copies a row of the table to a later one.
fn copy_row(table: &mut [u64], width: usize, from: u32, to: u32)
    requires before { from < to }
    requires row { to * width + width ≤ length table.old }
    ensures here { (q : ℕ) → q < width * 64
        → cell_of table.new width to q ≡ cell_of table.old width from q }
    ensures others { (r q : ℕ) → q < width * 64 → ¬ (r ≡ to)
        → cell_of table.new width r q ≡ cell_of table.old width r q }
{
    for j in 0..width {
        table[to as usize * width + j] = table[from as usize * width + j];
    }
}

fn write_extension(
    automaton: &Auto,
    label: u32,
    width: usize,
    from_joined: &[u64],
    from_past: &[u64],
    letter_joined: &[u64],
    letter_past: &[u64],
    joined: &mut [u64],
    past: &mut [u64],
)
    requires few { width < 2 ^ 32 }
    requires from_joined { IsTable from_joined.now automaton.now.states width }
    requires from_past { IsTable from_past.now automaton.now.states width }
    requires letter_joined { IsTable letter_joined.now automaton.now.states width }
    requires letter_past { IsTable letter_past.now automaton.now.states width }
    requires letter { SameGraph
        (graph_of_tables letter_joined.now letter_past.now automaton.now.states width)
        (letter_graph automaton.now label) }
    requires within { IsGraph
        (graph_of_tables from_joined.now from_past.now automaton.now.states width) }
    requires joined_len { length joined.old ≡ automaton.now.states * width }
    requires past_len { length past.old ≡ automaton.now.states * width }
    ensures joined { IsTable joined.new automaton.now.states width }
    ensures past { IsTable past.new automaton.now.states width }
    ensures graph { SameGraph (graph_of_tables joined.new past.new automaton.now.states width)
        (extended automaton.now
        (graph_of_tables from_joined.now from_past.now automaton.now.states width) label) }
{
    rows::clear_row(joined);
    rows::clear_row(past);
    let mut latest = [0; PLACES];
    for state in 0..automaton.states() {
        if has_arc(from_joined, width, state) {
            let place = place_of(from_joined, width, state);
            let other = twin_of(latest[place], from_joined, from_past, width, state);
            if other < state {
                copy_row(joined, width, other, state);
                copy_row(past, width, other, state);
            } else {
                add_row(
                    automaton,
                    label,
                    width,
                    state,
                    from_joined,
                    from_past,
                    letter_joined,
                    letter_past,
                    joined,
                    past,
                );
                latest[place] = state;
            }
        }
    }
}

/// Writes the graph of the word of this one letter.
pub fn letter(automaton: &Auto, label: u32, out: &mut [u64])
    requires { length out.old ≡ 2 * automaton.now.states * width_of automaton.now.states }
    ensures formed { IsFormed automaton.now.states out.new }
    ensures graph { SameGraph (block_graph automaton.now.states out.new)
        (letter_graph automaton.now label) }
{
    let states = automaton.states();
    let width = rows::words_for(states);
    let (joined, past) = out.split_at_mut(states as usize * width);
    write_letter(automaton, label, width, joined, past);
}

/// Writes the graph that has each arc of `from`, followed by each move with the label, by the graph
/// of the letter.
pub fn extend_by(automaton: &Auto, label: u32, letter: &[u64], from: &[u64], out: &mut [u64])
    requires letter { IsFormed automaton.now.states letter.now }
    requires is_letter { SameGraph (block_graph automaton.now.states letter.now)
        (letter_graph automaton.now label) }
    requires formed { IsFormed automaton.now.states from.now }
    requires len { length out.old ≡ 2 * automaton.now.states * width_of automaton.now.states }
    ensures formed { IsFormed automaton.now.states out.new }
    ensures graph { SameGraph (block_graph automaton.now.states out.new)
        (extended automaton.now (block_graph automaton.now.states from.now) label) }
{
    let states = automaton.states();
    let width = rows::words_for(states);
    let (joined, past) = out.split_at_mut(states as usize * width);
    write_extension(
        automaton,
        label,
        width,
        block::joined(states, from),
        block::past(states, from),
        block::joined(states, letter),
        block::past(states, letter),
        joined,
        past,
    );
}
