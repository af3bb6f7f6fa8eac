//! Pairs of graphs: whether one covers another, as it is remembered, and whether they have a lasso.

ghost use Rattle.std.specs.Prelude.{◌≡◌, ◌↔◌, ℕ, List, true, IsTrue, IfOk};
ghost use Rattle.auto_core.specs.Automaton.{Automaton};
ghost use Rattle.auto_core.specs.Graph.{LassoIn};
ghost use Rattle.graph_rows.specs.Block.{block_graph, IsFormed};
ghost use Rattle.shared_graphs.specs.Graphs.{block_at};
ghost use Rattle.shared_graphs.specs.GraphPairs.{AreLassosTold, AreGraphPairs};

use crate::coverings::Coverings;
use crate::glimpses::{Glimpse, glimpse_of, meet, told, unmarked};
use crate::graph_blocks::GraphBlocks;
use auto_core::{Auto, Memory};
use lasso_test::Scratch;
use std::alloc::Global;

/// What is remembered of pairs of graphs.
#[derive(Debug, Drop)]
pub struct GraphPairs {
    /// Which graphs cover which, as far as that is remembered.
    pub covers: Coverings,
    /// The glimpses of the first graphs, by their numbers.
    pub glimpses: Vec<Glimpse>,
    /// Room for the lasso test.
    pub scratch: Scratch,
}

impl GraphPairs {
    /// Nothing was told of graphs of so many states.
    pub fn new(alloc: Global, states: u32) -> Result<GraphPairs, Memory>
        ensures { IfOk
            result (λ t.
            (B : Automaton) (S : List (ℕ × ℕ)) (graphs : List (List ℕ)) → states ≡ B.states
            → AreGraphPairs B S graphs t) }
    {
        Ok(GraphPairs {
            covers: Coverings::new(alloc)?,
            glimpses: Vec::new(alloc),
            scratch: Scratch::new(alloc, states)?,
        })
    }

    /// Takes the glimpse of the graph, if it is the first without one.
    fn glimpse(
        &mut self,
        alloc: Global,
        second: &Auto,
        graphs: &GraphBlocks,
        h: u32,
    ) -> Result<(), Memory>
        requires formed { IsFormed second.now.states (block_at graphs.now.items h) }
        requires told { AreLassosTold second.now graphs.now.items self.old }
        ensures told { AreLassosTold second.now graphs.now.items self.new }
        ensures covers { self.new.covers ≡ self.old.covers }
    {
        if h as usize != self.glimpses.len() {
            return Ok(());
        }
        if h as usize >= graphs.len() {
            return Ok(());
        }
        let glimpse = unmarked(alloc, second, graphs.block(h as usize));
        self.glimpses.push(glimpse)?;
        Ok(())
    }

    /// Marks the states with a loop in the glimpse of the graph, if that was not done.
    fn mark(
        &mut self,
        alloc: Global,
        second: &Auto,
        graphs: &GraphBlocks,
        h: u32,
    ) -> Result<(), Memory>
        requires formed { IsFormed second.now.states (block_at graphs.now.items h) }
        requires told { AreLassosTold second.now graphs.now.items self.old }
        ensures told { AreLassosTold second.now graphs.now.items self.new }
        ensures covers { self.new.covers ≡ self.old.covers }
    {
        if h as usize >= self.glimpses.len() || h as usize >= graphs.len() {
            return Ok(());
        }
        if self.glimpses[h as usize].row.len() != 0 {
            return Ok(());
        }
        let glimpse = glimpse_of(alloc, second, graphs.block(h as usize), &mut self.scratch)?;
        self.glimpses[h as usize] = glimpse;
        Ok(())
    }

    /// Takes the glimpse of the graph, if it is the first without one. The states with a loop are
    /// marked where the graph is to be turned round in.
    pub fn look(
        &mut self,
        alloc: Global,
        second: &Auto,
        graphs: &GraphBlocks,
        h: u32,
        is_turn: bool,
    ) -> Result<(), Memory>
        requires formed { IsFormed second.now.states (block_at graphs.now.items h) }
        requires told { AreLassosTold second.now graphs.now.items self.old }
        ensures told { AreLassosTold second.now graphs.now.items self.new }
        ensures covers { self.new.covers ≡ self.old.covers }
    {
        self.glimpse(alloc, second, graphs, h)?;
        if is_turn {
            self.mark(alloc, second, graphs, h)?;
        }
        Ok(())
    }

    /// Tells whether it is seen at once that the graphs have a lasso from the initial state.
    pub fn have_lasso_at_sight(&self, second: &Auto, graphs: &GraphBlocks, g: u32, h: u32) -> bool
        requires second { IsFormed second.now.states (block_at graphs.now.items h) }
        requires told { AreLassosTold second.now graphs.now.items self.now }
        ensures { result ≡ true
            → LassoIn (block_graph second.now.states (block_at graphs.now.items g)) (block_graph second.now.states (block_at graphs.now.items h)) second.now.initial }
    {
        meet(&self.glimpses, g, h)
    }

    /// Tells whether the graphs have a lasso from the initial state.
    pub fn have_lasso(&mut self, second: &Auto, graphs: &GraphBlocks, g: u32, h: u32) -> bool
        requires first { IsFormed second.now.states (block_at graphs.now.items g) }
        requires second { IsFormed second.now.states (block_at graphs.now.items h) }
        requires told { AreLassosTold second.now graphs.now.items self.old }
        ensures told { AreLassosTold second.now graphs.now.items self.new }
        ensures covers { self.new.covers ≡ self.old.covers }
        ensures lasso { IsTrue result
            ↔ LassoIn (block_graph second.now.states (block_at graphs.now.items g)) (block_graph second.now.states (block_at graphs.now.items h)) second.now.initial }
    {
        if self.have_lasso_at_sight(second, graphs, g, h) {
            return true;
        }
        if let Some(holds) = told(second, graphs, &self.glimpses, g, h) {
            return holds;
        }
        lasso_test::passes(
            second.states(),
            graphs.block(g as usize),
            graphs.block(h as usize),
            second.initial(),
            &mut self.scratch,
        )
    }
}
