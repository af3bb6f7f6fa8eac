//! Which graph covers which, as it is remembered: by prints of graphs, which tell most pairs apart
//! at once, and by answers about pairs.

ghost use Rattle.std.specs.Prelude.{◌≡◌, ◌<◌, ◌↔◌, ℕ, List, true, IsTrue, IfOk, IfSome, length};
ghost use Rattle.auto_core.specs.Game.{Holds};
ghost use Rattle.auto_core.specs.Graph.{Covers, Subsumes};
ghost use Rattle.graph_rows.specs.Block.{block_graph, IsFormed};
ghost use Rattle.graph_rows.specs.Prints.{IsPrint};
ghost use Rattle.supergraph.specs.Stands.{with_graph};
ghost use Rattle.shared_graphs.specs.Graphs.{block_at};
ghost use Rattle.shared_graphs.specs.Memo.{AllTold};
ghost use Rattle.shared_graphs.specs.GraphPairs.{AreCoverings, FitsCovering};

use crate::graph_blocks::GraphBlocks;
use crate::memo::{Answer, Memo};
use auto_core::Memory;
use bit_rel::Rel;
use graph_rows::{Print, print_of};
use std::alloc::Global;
use supergraph::Arc;

/// How many answers about pairs of graphs are remembered, of either kind.
const PAIRS: usize = 4096;

/// What is remembered of whether graphs cover others.
#[derive(Debug, Drop)]
pub struct Coverings {
    /// The prints of the first graphs, by their numbers.
    pub prints: Vec<Print>,
    /// Of pairs of graphs whether the first covers the second.
    pub memo: Memo,
}

/// Tells whether graphs with both numbers are there.
fn are_there(graphs: &GraphBlocks, g: u32, h: u32) -> bool
    ensures { result ≡ true → (g < length graphs.now.items) × (h < length graphs.now.items) }
{
    (g as usize) < graphs.len() && (h as usize) < graphs.len()
}

/// Tells whether the first graph covers the second.
fn covers(order: &Rel, graphs: &GraphBlocks, memo: &mut Memo, g: u32, h: u32) -> bool
    requires first { IsFormed order.now.size (block_at graphs.now.items g) }
    requires second { IsFormed order.now.size (block_at graphs.now.items h) }
    requires told { AllTold (FitsCovering order.now.size order.now.pairs graphs.now.items)
        memo.old.told.items }
    ensures told { AllTold (FitsCovering order.now.size order.now.pairs graphs.now.items)
        memo.new.told.items }
    ensures covers { IsTrue result
        ↔ Covers (Holds order.now.pairs) (block_graph order.now.size (block_at graphs.now.items g)) (block_graph order.now.size (block_at graphs.now.items h)) }
{
    if let Some(Answer::Truth(holds)) = memo.find(g, h) {
        return holds;
    }
    let holds = graph_rows::covers(order, graphs.block(g as usize), graphs.block(h as usize));
    if are_there(graphs, g, h) {
        memo.note(g, h, Answer::Truth(holds));
    }
    holds
}

/// Tells whether the arcs have the same ends, and the first is accepting where the second is.
fn fits(x: &Arc, y: &Arc) -> bool
    ensures { IsTrue result
        ↔ ((x.now.from ≡ y.now.from) × (x.now.to ≡ y.now.to)
        × (y.now.accepting ≡ true → x.now.accepting ≡ true)) }
{
    x.from == y.from && x.to == y.to && (x.accepting || !y.accepting)
}

/// Tells whether `x` with the graph `g` subsumes `y` with the graph `h`.
pub fn subsumes(
    order: &Rel,
    graphs: &GraphBlocks,
    memo: &mut Memo,
    x: &Arc,
    g: u32,
    y: &Arc,
    h: u32,
) -> bool
    requires first { IsFormed order.now.size (block_at graphs.now.items g) }
    requires second { IsFormed order.now.size (block_at graphs.now.items h) }
    requires told { AllTold (FitsCovering order.now.size order.now.pairs graphs.now.items)
        memo.old.told.items }
    ensures told { AllTold (FitsCovering order.now.size order.now.pairs graphs.now.items)
        memo.new.told.items }
    ensures subsumes { IsTrue result
        ↔ Subsumes (Holds order.now.pairs) (with_graph x.now (block_graph order.now.size (block_at graphs.now.items g)))
        (with_graph y.now (block_graph order.now.size (block_at graphs.now.items h))) }
{
    if !fits(x, y) {
        return false;
    }
    covers(order, graphs, memo, g, h)
}

impl Coverings {
    /// Nothing was told.
    pub fn new(alloc: Global) -> Result<Coverings, Memory>
        ensures { IfOk
            result (λ c.
            (n : ℕ) (S : List (ℕ × ℕ)) (graphs : List (List ℕ)) → AreCoverings n S graphs c) }
    {
        Ok(Coverings {
            prints: Vec::new(alloc),
            memo: Memo::new(alloc, PAIRS)?,
        })
    }

    /// Takes the print of the graph, if it is the first without one.
    pub fn print(
        &mut self,
        alloc: Global,
        order: &Rel,
        graphs: &GraphBlocks,
        h: u32,
    ) -> Result<(), Memory>
        requires formed { IsFormed order.now.size (block_at graphs.now.items h) }
        requires told { AreCoverings order.now.size order.now.pairs graphs.now.items self.old }
        ensures told { AreCoverings order.now.size order.now.pairs graphs.now.items self.new }
    {
        if h as usize != self.prints.len() {
            return Ok(());
        }
        if h as usize >= graphs.len() {
            return Ok(());
        }
        if order.size() == 0 {
            return Ok(());
        }
        self.prints.push(print_of(order, graphs.block(h as usize)))?;
        Ok(())
    }

    /// The print of the graph, if it was taken.
    pub fn print_at(&self, order: &Rel, graphs: &GraphBlocks, h: u32) -> Option<Print>
        requires told { AreCoverings order.now.size order.now.pairs graphs.now.items self.now }
        ensures { IfSome result
            (IsPrint order.now.size (Holds order.now.pairs) (block_at graphs.now.items h)) }
    {
        if h as usize >= self.prints.len() {
            return None;
        }
        Some(self.prints[h as usize])
    }
}
