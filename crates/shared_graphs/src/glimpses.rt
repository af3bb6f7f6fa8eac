//! What is kept of graphs to tell whether two of them have a lasso: for a first look the first 64
//! states alone, and the states with a loop.

ghost use Rattle.std.specs.Prelude.{◌≡◌, ◌↔◌, ℕ, List, [], ◌∷◌, true, IsTrue, IfOk, IfSome};
ghost use Rattle.auto_core.specs.Automaton.{Automaton};
ghost use Rattle.auto_core.specs.Graph.{LassoIn};
ghost use Rattle.auto_core.specs.Rows.{HasBit};
ghost use Rattle.graph_rows.specs.Block.{block_graph, IsFormed};
ghost use Rattle.shared_graphs.specs.Graphs.{block_at};
ghost use Rattle.shared_graphs.specs.Glimpses.{AreGlimpses, IsGlimpse, MeetAtSight};

use crate::graph_blocks::GraphBlocks;
use crate::looping::marked_row;
use auto_core::{Auto, Memory, rows};
use lasso_test::{Scratch, enters};
use std::alloc::Global;

/// What is seen of a graph at once, for the lasso test.
#[derive(Debug, Drop)]
pub struct Glimpse {
    /// Of the first 64 states those to which an arc of the graph leads from the initial state.
    pub entered: u64,
    /// Of the first 64 states those from which the graph has a loop.
    pub looping: u64,
    /// The row of all states from which the graph has a loop; with no row they are not marked.
    pub row: Vec<u64>,
}

/// The first word of the row.
fn first_word(row: &[u64]) -> u64
    ensures { (q : ℕ) → HasBit (result ∷ []) q → HasBit row.now q }
{
    if row.len() == 0 {
        return 0;
    }
    row[0]
}

/// The first of the states to which an arc of the graph leads from the initial state.
fn entered_word(states: u32, block: &[u64], initial: u32) -> u64
    requires { IsFormed states block.now }
    ensures { (q : ℕ) → HasBit (result ∷ []) q → (block_graph states block.now).joined initial q }
{
    if initial >= states {
        return 0;
    }
    let joined = graph_rows::joined(states, block);
    first_word(rows::row_at(joined, rows::words_for(states), initial as usize))
}

/// The glimpse of the graph, no state being marked as one with a loop.
pub(crate) fn unmarked(alloc: Global, second: &Auto, block: &[u64]) -> Glimpse
    requires { IsFormed second.now.states block.now }
    ensures { IsGlimpse second.now (block_graph second.now.states block.now) result }
{
    Glimpse {
        entered: entered_word(second.states(), block, second.initial()),
        looping: 0,
        row: Vec::new(alloc),
    }
}

/// The glimpse of the graph.
pub(crate) fn glimpse_of(
    alloc: Global,
    second: &Auto,
    block: &[u64],
    scratch: &mut Scratch,
) -> Result<Glimpse, Memory>
    requires formed { IsFormed second.now.states block.now }
    requires room { scratch.old ≡ second.now.states }
    ensures glimpse { IfOk result (IsGlimpse second.now (block_graph second.now.states block.now)) }
    ensures kept { scratch.new ≡ second.now.states }
{
    let states = second.states();
    let row = marked_row(alloc, states, block, scratch)?;
    Ok(Glimpse {
        entered: entered_word(states, block, second.initial()),
        looping: first_word(&row),
        row,
    })
}

/// Tells whether the glimpses show a lasso.
pub(crate) fn meet(glimpses: &[Glimpse], g: u32, h: u32) -> bool
    ensures { result ≡ true → MeetAtSight glimpses.now g h }
{
    if g as usize >= glimpses.len() {
        return false;
    }
    if h as usize >= glimpses.len() {
        return false;
    }
    let first = &glimpses[g as usize];
    let second = &glimpses[h as usize];
    first.entered & second.looping != 0
}

/// Tells whether the graphs have a lasso from the initial state, if the states with a loop are
/// marked in the second.
pub(crate) fn told(
    second: &Auto,
    graphs: &GraphBlocks,
    glimpses: &[Glimpse],
    g: u32,
    h: u32,
) -> Option<bool>
    requires first { IsFormed second.now.states (block_at graphs.now.items g) }
    requires second { IsFormed second.now.states (block_at graphs.now.items h) }
    requires glimpses { AreGlimpses second.now graphs.now.items glimpses.now }
    ensures { IfSome result (λ holds. IsTrue holds
        ↔ LassoIn (block_graph second.now.states (block_at graphs.now.items g)) (block_graph second.now.states (block_at graphs.now.items h)) second.now.initial) }
{
    if h as usize >= glimpses.len() {
        return None;
    }
    let glimpse = &glimpses[h as usize];
    if glimpse.row.len() == 0 {
        return None;
    }
    Some(enters(
        second.states(),
        graphs.block(g as usize),
        second.initial(),
        &glimpse.row,
    ))
}
