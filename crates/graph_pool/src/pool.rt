//! The pool: blocks of words under handles.
ghost use Rattle.std.specs.Prelude.{◌≡◌, ◌≢◌, ◌+◌, ◌<◌, ◌^◌, ℕ, List, Option, Some, None, length, IsTrue, IsOk, IfOk, OnErr};
ghost use Rattle.std.specs.FinMap as map;
ghost use Rattle.std.specs.Borrow.{sem};
ghost use Rattle.graph_pool.specs.PoolContents.{PoolContents};
ghost use Rattle.graph_pool.specs.PoolLends.{LendsWords};

use crate::store::{CHUNK, Store};
use auto_core::Memory;
use std::alloc::Global;
use std::marker::Model;

/// The name of a block of a pool.
#[derive(Clone, Copy, Debug, Drop, PartialEq, Eq)]
pub struct Handle(u32);

/// Blocks of a number of words each, under handles. Contracts see it as `PoolContents`: that
/// number, the map from live handles to the words of their blocks, and the number of free blocks. A
/// free block that was live before is linked: its first word is the handle of the next one and 1
/// more, or 0.
#[derive(Drop)]
pub struct Pool {
    store: Store,
    marks: Vec<bool>,
    next: u64,
    live: u32,
    free: u64,
}

impl Model for Pool {
    ghost use Rattle.graph_pool.specs.PoolContents.{PoolContents, pool_code};

    ghost Value = { PoolContents };

    ghost coded = { pool_code };

    ghost use Rattle.graph_pool.specs.Backing.{pool_contents, IsPool};

    ghost view = { pool_contents };

    ghost invariant = { IsPool };
}

impl Pool {
    /// A pool without blocks, each to have `words` words.
    pub fn new(alloc: Global, words: usize) -> Pool
        requires { 0 < words }
        ensures words { result.words ≡ words }
        ensures blocks { result.blocks ≡ map.empty }
        ensures free { result.free ≡ 0 }
    {
        Pool {
            store: Store::new(alloc, words),
            marks: Vec::new(alloc),
            next: 0,
            live: 0,
            free: 0,
        }
    }

    /// Makes a block live, whose words are any, and answers its handle. With a free block it takes
    /// no memory; without one it makes a chunk of blocks.
    pub fn add(&mut self) -> Result<Handle, Memory>
        requires { map.len self.old.blocks + 1 < 2 ^ 32 }
        ensures added { IfOk
            result (λ h.
            (ws : List ℕ) × (map.get self.old.blocks h.0 ≡ None) × (length ws ≡ self.old.words)
            × (self.new.blocks ≡ map.insert self.old.blocks h.0 ws)) }
        ensures words { self.new.words ≡ self.old.words }
        ensures free { IsOk result → 0 < self.old.free → self.new.free + 1 ≡ self.old.free }
        ensures chunk { IsOk result → self.old.free ≡ 0 → self.new.free ≡ 63 }
        ensures succeeds { 0 < self.old.free → IsOk result }
        ensures refused { OnErr result (self.new ≡ self.old) }
    {
        if self.free == 0 {
            self.make_room()?;
        }
        Ok(self.take_free())
    }

    fn make_room(&mut self) -> Result<(), Memory>
        requires few { map.len self.old.blocks + 1 < 2 ^ 32 }
        requires none { self.old.free ≡ 0 }
        ensures made { IfOk
            result (λ _.
            (self.new.words ≡ self.old.words) × (self.new.blocks ≡ self.old.blocks)
            × (self.new.free ≡ CHUNK)) }
        ensures refused { OnErr result (self.new ≡ self.old) }
    {
        self.marks.reserve(CHUNK)?;
        self.store.grow()?;
        self.free = CHUNK as u64;
        Ok(())
    }

    fn take_free(&mut self) -> Handle
        requires few { map.len self.old.blocks + 1 < 2 ^ 32 }
        requires some { 0 < self.old.free }
        ensures added { (ws : List ℕ) × (map.get self.old.blocks result.0 ≡ None)
            × (length ws ≡ self.old.words)
            × (self.new.blocks ≡ map.insert self.old.blocks result.0 ws) }
        ensures words { self.new.words ≡ self.old.words }
        ensures free { self.new.free + 1 ≡ self.old.free }
    {
        self.live += 1;
        self.free -= 1;
        if self.next == 0 {
            let fresh = self.marks.len();
            self.marks.push_reserved(true);
            return Handle(fresh as u32);
        }
        let fresh = (self.next - 1) as usize;
        self.next = self.store.link(fresh);
        self.marks[fresh] = true;
        Handle(fresh as u32)
    }

    /// The words of a live block.
    pub fn block(&self, h: Handle) -> &[u64]
        requires { IsTrue (map.contains_key self.now.blocks h.0) }
        ensures words { Some result.now ≡ map.get self.now.blocks h.0 }
        ensures size { length result.now ≡ self.now.words }
    {
        self.store.block(h.0 as usize)
    }

    /// The words of a live block, to be written. No other block changes.
    pub fn block_mut(&mut self, h: Handle) -> &mut [u64]
        requires { IsTrue (map.contains_key self.old.blocks h.0) }
        ensures* writes_back { sem 𝓛 (LendsWords self.entry h.0 result) }
        ensures words { Some result.now ≡ map.get self.old.blocks h.0 }
        ensures size { length result.now ≡ self.old.words }
    {
        self.store.block_mut(h.0 as usize)
    }

    /// The words of two live blocks, the second to be written. No other block changes.
    pub fn pair(&mut self, kept: Handle, fresh: Handle) -> (&[u64], &mut [u64])
        requires apart { kept.0 ≢ fresh.0 }
        requires kept { IsTrue (map.contains_key self.old.blocks kept.0) }
        requires fresh { IsTrue (map.contains_key self.old.blocks fresh.0) }
        ensures* writes_back { sem 𝓛 (LendsWords self.entry fresh.0 result.1) }
        ensures kept { Some result.0.now ≡ map.get self.old.blocks kept.0 }
        ensures fresh { Some result.1.now ≡ map.get self.old.blocks fresh.0 }
        ensures kept_size { length result.0.now ≡ self.old.words }
        ensures fresh_size { length result.1.now ≡ self.old.words }
    {
        self.store.pair(kept.0 as usize, fresh.0 as usize)
    }

    /// Makes a live block free. The handle is live no more.
    pub fn give_back(&mut self, h: Handle)
        requires { IsTrue (map.contains_key self.old.blocks h.0) }
        ensures blocks { self.new.blocks ≡ map.remove self.old.blocks h.0 }
        ensures words { self.new.words ≡ self.old.words }
        ensures free { self.new.free ≡ self.old.free + 1 }
    {
        self.store.set_link(h.0 as usize, self.next);
        self.marks[h.0 as usize] = false;
        self.next = h.0 as u64 + 1;
        self.live -= 1;
        self.free += 1;
    }

    /// Tells whether a handle is live.
    pub fn is_live(&self, h: Handle) -> bool
        ensures { result ≡ map.contains_key self.now.blocks h.0 }
    {
        (h.0 as usize) < self.marks.len() && self.marks[h.0 as usize]
    }

    /// The number of live handles.
    pub fn live(&self) -> u32
        ensures { result ≡ map.len self.now.blocks }
    {
        self.live
    }

    /// The number of free blocks.
    pub fn free(&self) -> u64
        ensures { result ≡ self.now.free }
    {
        self.free
    }

    /// The number of words of a block.
    pub fn words(&self) -> usize
        ensures words { result ≡ self.now.words }
        ensures positive { 0 < result }
    {
        self.store.size()
    }
}
