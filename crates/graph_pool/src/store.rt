//! Blocks of one size, numbered from 0, in chunks of 64.
ghost use Rattle.std.specs.Prelude.{◌≡◌, ◌≢◌, ◌+◌, ◌<◌, ◌++◌, ◌-◌, ℕ, List, [], length, get_or, slice_set, replicate, take, IfOk, OnErr, OnOk};
ghost use Rattle.std.specs.Borrow.{sem};
ghost use Rattle.graph_pool.specs.BlockList.{BlockList, with_block};
ghost use Rattle.graph_pool.specs.Chunks.{IsChunk};
ghost use Rattle.graph_pool.specs.Laid.{AreZeros};
ghost use Rattle.graph_pool.specs.Segments.{EndsAt};
ghost use Rattle.graph_pool.specs.StoreLends.{LendsBlock};

use crate::segments::{Segments, Start};
use auto_core::Memory;
use core::slots::{Lease, release, reserve};
use std::alloc::Global;
use std::marker::Model;

/// The number of blocks of a chunk.
pub(crate) const CHUNK: usize = 64;

/// The memory of a chunk's blocks, side by side, and the right to give it back.
struct Chunk {
    start: Start,
    lease: Lease<u64, Global>,
}

/// Blocks of `size` words, and the words of a new chunk, once there was one.
pub(crate) struct Store {
    size: usize,
    chunks: Vec<Chunk>,
    segments: Segments,
    zeros: Vec<u64>,
    alloc: Global,
}

impl Model for Store {
    ghost use Rattle.graph_pool.specs.BlockList.{BlockList, list_code};

    ghost Value = { BlockList };

    ghost coded = { list_code };

    ghost use Rattle.graph_pool.specs.Laid.{blocks_of, IsStore};

    ghost view = { blocks_of };

    ghost invariant = { IsStore };
}

/// Makes so many zeros, if they are not there yet.
fn fill(alloc: Global, zeros: &mut Vec<u64>, count: usize) -> Result<(), Memory>
    requires { AreZeros count zeros.old.items }
    ensures filled { IfOk result (λ _. zeros.new.items ≡ replicate count 0) }
    ensures refused { OnErr result (zeros.new ≡ zeros.old) }
{
    if zeros.len() == 0 {
        *zeros = Vec::from_elem(alloc, 0, count)?;
    }
    Ok(())
}

impl Store {
    /// No blocks yet, each to have `size` words.
    pub(crate) fn new(alloc: Global, size: usize) -> Store
        ensures size { result.size ≡ size }
        ensures blocks { result.blocks ≡ [] }
    {
        Store {
            size,
            chunks: Vec::new(alloc),
            segments: Segments::new(),
            zeros: Vec::new(alloc),
            alloc,
        }
    }

    /// The number of words of a block.
    pub(crate) fn size(&self) -> usize
        ensures { result ≡ self.now.size }
    {
        self.size
    }

    /// The block at `at`.
    pub(crate) fn block(&self, at: usize) -> &[u64]
        requires { at < length self.now.blocks }
        ensures words { result.now ≡ get_or self.now.blocks at [] }
        ensures size { length result.now ≡ self.now.size }
    {
        let start = self.chunks[at / CHUNK].start;
        let from = at % CHUNK * self.size;
        self.segments.words(start, from, self.size, at)
    }

    /// The block at `at`, to be written.
    pub(crate) fn block_mut(&mut self, at: usize) -> &mut [u64]
        requires { at < length self.old.blocks }
        ensures* writes_back { sem 𝓛 (LendsBlock self.entry at result) }
        ensures words { result.now ≡ get_or self.old.blocks at [] }
        ensures size { length result.now ≡ self.old.size }
    {
        let start = self.chunks[at / CHUNK].start;
        let from = at % CHUNK * self.size;
        self.segments.words_mut(start, from, self.size, at)
    }

    /// The block at `kept`, and the one at `fresh`, to be written.
    pub(crate) fn pair(&mut self, kept: usize, fresh: usize) -> (&[u64], &mut [u64])
        requires apart { kept ≢ fresh }
        requires kept { kept < length self.old.blocks }
        requires fresh { fresh < length self.old.blocks }
        ensures* writes_back { sem 𝓛 (LendsBlock self.entry fresh result.1) }
        ensures kept { result.0.now ≡ get_or self.old.blocks kept [] }
        ensures fresh { result.1.now ≡ get_or self.old.blocks fresh [] }
    {
        let start = self.chunks[kept / CHUNK].start;
        let other = self.chunks[fresh / CHUNK].start;
        let from = kept % CHUNK * self.size;
        let to = fresh % CHUNK * self.size;
        self.segments
            .pair(start, from, kept, other, to, fresh, self.size)
    }

    /// The first word of the block at `at`.
    pub(crate) fn link(&self, at: usize) -> u64
        requires inside { at < length self.now.blocks }
        requires some { 0 < self.now.size }
        ensures { result ≡ get_or (get_or self.now.blocks at []) 0 0 }
    {
        self.block(at)[0]
    }

    /// Writes the first word of the block at `at`.
    pub(crate) fn set_link(&mut self, at: usize, next: u64)
        requires inside { at < length self.old.blocks }
        requires some { 0 < self.old.size }
        ensures { self.new
            ≡ with_block self.old at (slice_set (get_or self.old.blocks at []) 0 next) }
    {
        self.block_mut(at)[0] = next;
    }

    /// Appends a chunk of blocks of zeros.
    pub(crate) fn grow(&mut self) -> Result<(), Memory>
        ensures size { self.new.size ≡ self.old.size }
        ensures grown { OnOk result
            (self.new.blocks ≡ self.old.blocks ++ replicate CHUNK (replicate self.old.size 0)) }
        ensures refused { OnErr result (self.new ≡ self.old) }
    {
        if self.size > usize::MAX / 1024 {
            return Err(Memory);
        }
        self.chunks.reserve(1)?;
        fill(self.alloc, &mut self.zeros, CHUNK * self.size)?;
        let (mut words, lease) = unsafe { reserve(&self.alloc, self.zeros.as_slice()) }?;
        words.copy_in(0, self.zeros.as_slice());
        let start = self.segments.take_in(words, self.size, CHUNK);
        self.chunks.push_reserved(Chunk { start, lease });
        Ok(())
    }
}

impl Drop for Store {
    fn drop(self) {
        let Store {
            size,
            mut chunks,
            mut segments,
            zeros: _,
            alloc,
        } = self;
        while let Some(chunk) = chunks.pop() {
            free(&mut segments, chunk, size, &alloc);
        }
        chunks.destroy_empty();
    }
}

/// Gives the memory of the last chunk back.
fn free(segments: &mut Segments, chunk: Chunk, size: usize, alloc: &Global)
    requires ends { EndsAt segments.old.all chunk.start.ptr size CHUNK }
    requires chunk { IsChunk alloc.now size chunk }
    ensures { segments.new.all ≡ take (length segments.old.all - CHUNK) segments.old.all }
{
    let Chunk { start, lease } = chunk;
    let words = segments.take_out(start, CHUNK * size, size, CHUNK);
    release(alloc, words, lease);
}
