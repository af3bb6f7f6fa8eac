//! The blocks of graphs in a pool.

ghost use Rattle.std.specs.Prelude.{◌≡◌, ◌+◌, ◌*◌, ◌^◌, ◌<◌, ◌≤◌, ◌++◌, ◌∷◌, [], ℕ, true, List, length, OnErr, OnOk, IfOk};
ghost use Rattle.std.specs.FinMap as map;
ghost use Rattle.auto_core.specs.Graph.{letter_graph, extended};
ghost use Rattle.bit_rel.specs.Relation.{IsPreorder};
ghost use Rattle.graph_rows.specs.Block.{block_graph, width_of, IsFormed};
ghost use Rattle.shared_graphs.specs.GraphBlocks.{SamePool};
ghost use Rattle.shared_graphs.specs.Graphs.{block_at, AsTheyAre, IsBlockOf, IsMinimised, IsThere};

use auto_core::{Auto, Memory};
use bit_rel::Rel;
use graph_pool::{Handle, Pool};
use graph_rows::are_equal;
use std::alloc::Global;
use std::marker::Model;
use std::mem::swap;

/// A pool, and in it the blocks of graphs by their numbers, and a fresh block, into which the next
/// graph is written. Contracts see it as
/// `Blocks`: the pool without these blocks, the words of each, and those of the fresh one, and how
/// many blocks of the pool were free before.
#[derive(Drop)]
pub struct GraphBlocks {
    pool: Pool,
    blocks: Vec<Handle>,
    fresh: Handle,
    free_before: u64,
}

impl Model for GraphBlocks {
    ghost use Rattle.shared_graphs.specs.GraphBlocks.{Blocks, blocks_code};

    ghost Value = { Blocks };

    ghost coded = { blocks_code };

    ghost use Rattle.shared_graphs.specs.PoolShares.{shares_of, AreLive};

    ghost view = { shares_of };

    ghost invariant = { AreLive };
}

impl GraphBlocks {
    /// No graphs. The pool is taken from its place; a refused call leaves it there.
    pub fn new(alloc: Global, pool: &mut Pool) -> Result<GraphBlocks, Memory>
        requires room { map.len pool.old.blocks + 1 < 2 ^ 32 }
        ensures words { IfOk result (λ b. b.words ≡ pool.old.words) }
        ensures rest { IfOk result (λ b. b.rest ≡ pool.old.blocks) }
        ensures free { IfOk result (λ b. b.free_before ≡ pool.old.free) }
        ensures none { IfOk result (λ b. b.items ≡ []) }
        ensures left { IfOk
            result (λ _.
            (pool.new.words ≡ pool.old.words) × (pool.new.blocks ≡ map.empty)
            × (pool.new.free ≡ 0)) }
        ensures refused { OnErr result (pool.new ≡ pool.old) }
    {
        let free_before = pool.free();
        let fresh = pool.add()?;
        let mut taken = Pool::new(alloc, pool.words());
        swap(&mut taken, pool);
        Ok(GraphBlocks {
            pool: taken,
            blocks: Vec::new(alloc),
            fresh,
            free_before,
        })
    }

    /// How many graphs there are.
    pub fn len(&self) -> usize
        ensures { result ≡ length self.now.items }
    {
        self.blocks.len()
    }

    /// The block of the graph with this number; behind the last there is none.
    pub fn block(&self, number: usize) -> &[u64]
        ensures { result.now ≡ block_at self.now.items number }
    {
        if number >= self.blocks.len() {
            return &[];
        }
        self.pool.block(self.blocks[number])
    }

    /// The fresh block.
    pub(crate) fn fresh_block(&self) -> &[u64]
        ensures { result.now ≡ self.now.fresh }
    {
        self.pool.block(self.fresh)
    }

    /// Tells whether the graph with this number has the same block as the fresh one.
    pub(crate) fn is_fresh(&self, number: u32) -> bool
        ensures { result ≡ true → IsThere self.now.items self.now.fresh number }
    {
        (number as usize) < self.blocks.len()
            && are_equal(self.block(number as usize), self.fresh_block())
    }

    /// Writes these words into the fresh block.
    pub(crate) fn write(&mut self, words: &[u64])
        requires { length words.now ≡ self.old.words }
        ensures pool { SamePool self.old self.new }
        ensures items { self.new.items ≡ self.old.items }
        ensures fresh { self.new.fresh ≡ words.now }
    {
        self.pool.block_mut(self.fresh).copy_from_slice(words);
    }

    /// Writes the graph of the letter into the fresh block.
    pub(crate) fn write_letter(&mut self, second: &Auto, label: u32)
        requires { self.old.words ≡ 2 * second.now.states * width_of second.now.states }
        ensures pool { SamePool self.old self.new }
        ensures items { self.new.items ≡ self.old.items }
        ensures fresh { IsBlockOf second.now AsTheyAre (letter_graph second.now label)
            self.new.fresh }
    {
        graph_rows::letter(second, label, self.pool.block_mut(self.fresh));
    }

    /// Writes the graph with this number, extended by the letter, whose own block is given, into
    /// the fresh block.
    pub(crate) fn write_extension(&mut self, second: &Auto, label: u32, letter: &[u64], from: u32)
        requires words { self.old.words ≡ 2 * second.now.states * width_of second.now.states }
        requires letter { IsBlockOf second.now AsTheyAre (letter_graph second.now label)
            letter.now }
        requires within { from < length self.old.items }
        requires formed { IsFormed second.now.states (block_at self.old.items from) }
        ensures pool { SamePool self.old self.new }
        ensures items { self.new.items ≡ self.old.items }
        ensures fresh { IsBlockOf second.now AsTheyAre
            (extended second.now (block_graph second.now.states (block_at self.old.items from))
            label) self.new.fresh }
    {
        let (kept, fresh) = self.pool.pair(self.blocks[from as usize], self.fresh);
        graph_rows::extend_by(second, label, letter, kept, fresh);
    }

    /// Minimises the graph in the fresh block by the order.
    pub(crate) fn minimise(&mut self, order: &Rel)
        requires order { IsPreorder order.now.size order.now.pairs }
        requires formed { IsFormed order.now.size self.old.fresh }
        ensures pool { SamePool self.old self.new }
        ensures items { self.new.items ≡ self.old.items }
        ensures formed { IsFormed order.now.size self.new.fresh }
        ensures minimised { IsMinimised order.now.pairs (block_graph order.now.size self.new.fresh)
            (block_graph order.now.size self.old.fresh) }
    {
        supergraph::minimise(order, self.pool.block_mut(self.fresh));
    }

    /// The fresh block is kept as that of the next graph, and there is a new one.
    pub(crate) fn keep(&mut self) -> Result<(), Memory>
        ensures pool { SamePool self.old self.new }
        ensures kept { OnOk result (self.new.items ≡ self.old.items ++ self.old.fresh ∷ []) }
    {
        if self.pool.live() == u32::MAX {
            return Err(Memory);
        }
        self.blocks.reserve(1)?;
        let next = self.pool.add()?;
        self.blocks.push_reserved(self.fresh);
        self.fresh = next;
        Ok(())
    }

    /// Writes the block of the graph with this number into the fresh block.
    fn write_copy(&mut self, number: u32)
        requires { number < length self.old.items }
        ensures pool { SamePool self.old self.new }
        ensures items { self.new.items ≡ self.old.items }
        ensures fresh { self.new.fresh ≡ block_at self.old.items number }
    {
        let (kept, fresh) = self.pool.pair(self.blocks[number as usize], self.fresh);
        fresh.copy_from_slice(kept);
    }

    /// The graph with this number gets one block more, behind all others.
    pub fn copy(&mut self, number: u32) -> Result<(), Memory>
        requires { number < length self.old.items }
        ensures pool { SamePool self.old self.new }
        ensures copied { OnOk result
            (self.new.items ≡ self.old.items ++ block_at self.old.items number ∷ []) }
    {
        self.write_copy(number);
        self.keep()
    }

    /// The pool, all blocks of graphs given back.
    pub fn into_pool(self) -> Pool
        ensures words { result.words ≡ self.words }
        ensures blocks { result.blocks ≡ self.rest }
        ensures free { length self.items < result.free }
        ensures no_fewer { self.free_before ≤ result.free }
    {
        let GraphBlocks {
            mut pool,
            mut blocks,
            fresh,
            free_before: _,
        } = self;
        pool.give_back(fresh);
        while let Some(block) = blocks.pop() {
            pool.give_back(block);
        }
        pool
    }
}
