//! The words of all blocks, as segments of memory. What is lent of them is lent through a pointer.
ghost use Rattle.std.specs.Prelude.{◌≡◌, ◌≢◌, ℕ, ◌+◌, ◌-◌, ◌*◌, ◌<◌, ◌≤◌, ◌^◌, List, [], ◌++◌, length, take};
ghost use Rattle.std.specs.Borrow.{sem};
ghost use Rattle.core.specs.Mem.Slots.{slots_items, slots_ptr, slots_len, IsFull};
ghost use denote.RawPtr.{InBlock};
ghost use Rattle.graph_pool.specs.Segments.{Segment, IsSegment, EndsAt, segment_at, moved, segments_from, even_parts};
ghost use Rattle.graph_pool.specs.Ownership.{segments_own, segments_lent};

use core::slots::Slots;
use std::marker::{Model, PhantomData};
use std::slice;

/// Where the words of a chunk begin. It owns nothing.
#[derive(Clone, Copy, Drop)]
pub(crate) struct Start {
    ptr: *mut u64,
}

/// The owner of all segments: where each begins, and its words. It takes no space; its callers know
/// the pointers.
#[derive(Drop)]
pub(crate) struct Segments {
    mark: PhantomData<*const u64>,
    ghost all: { List Segment },
}

impl Model for Segments {
    ghost also_owns = { λ s. segments_own s.all };

    ghost also_shares = { λ s _ κ. segments_lent s.all κ };
}

impl Segments {
    ghost use Rattle.graph_pool.specs.SegmentLends.{LendsSegment};

    /// No segments.
    pub(crate) fn new() -> Segments
        ensures { result.all ≡ [] }
    {
        Segments { mark: PhantomData }
    }

    /// Makes `_count` segments of `_size` words of memory that is full of words, and tells where
    /// they begin.
    pub(crate) fn take_in(&mut self, words: Slots<u64>, _size: usize, _count: usize) -> Start
        requires { IsFull words × (slots_len words ≡ _count * _size) }
        ensures { (result.ptr ≡ slots_ptr words) × InBlock result.ptr
            × (self.new.all
            ≡ self.old.all
            ++ segments_from result.ptr (_size * 8) (even_parts _size _count (slots_items words))) }
    {
        let parts = unsafe { words.into_raw_parts() };
        Start { ptr: parts.0 }
    }

    /// Gives up the last `_count` segments, of `_size` words each and `len` in all, which lie side
    /// by side from the start on.
    pub(crate) fn take_out(
        &mut self,
        start: Start,
        len: usize,
        _size: usize,
        _count: usize,
    ) -> Slots<u64>
        requires { EndsAt self.old.all start.ptr _size _count × InBlock start.ptr
            × (len ≡ _count * _size) × (len * 8 < 2 ^ 63) }
        ensures { (slots_ptr result ≡ start.ptr) × (slots_len result ≡ len)
            × (self.new.all ≡ take (length self.old.all - _count) self.old.all) }
    {
        unsafe { Slots::from_raw_parts(start.ptr, len) }
    }

    /// The `size` words of the segment at `_place`, which begins `from` words after the start.
    pub(crate) fn words(&self, start: Start, from: usize, size: usize, _place: usize) -> &[u64]
        requires { IsSegment self.now.all _place (moved start.ptr (from * 8)) size
            × (from * 8 < 2 ^ 63) }
        ensures { result.now ≡ (segment_at self.now.all _place).1 }
    {
        unsafe { slice::from_raw_parts(start.ptr.add(from), size) }
    }

    /// The same, to be written.
    pub(crate) fn words_mut(
        &mut self,
        start: Start,
        from: usize,
        size: usize,
        _place: usize,
    ) -> &mut [u64]
        requires { IsSegment self.old.all _place (moved start.ptr (from * 8)) size
            × (from * 8 < 2 ^ 63) }
        ensures* writes_back { sem 𝓛 (LendsSegment self.entry _place result) }
        ensures words { result.now ≡ (segment_at self.old.all _place).1 }
    {
        unsafe { slice::from_raw_parts_mut(start.ptr.add(from), size) }
    }

    /// The words of two segments, the second to be written: the one at `_kept` begins `from` words
    /// after `start`, the one at
    /// `_fresh` begins `to` words after `other`.
    pub(crate) fn pair(
        &mut self,
        start: Start,
        from: usize,
        _kept: usize,
        other: Start,
        to: usize,
        _fresh: usize,
        size: usize,
    ) -> (&[u64], &mut [u64])
        requires { (_kept ≢ _fresh) × IsSegment self.old.all _kept (moved start.ptr (from * 8)) size
            × (from * 8 < 2 ^ 63) × IsSegment self.old.all _fresh (moved other.ptr (to * 8)) size
            × (to * 8 < 2 ^ 63) }
        ensures* writes_back { sem 𝓛 (LendsSegment self.entry _fresh result.1) }
        ensures value { (result.0.now ≡ (segment_at self.old.all _kept).1)
            × (result.1.now ≡ (segment_at self.old.all _fresh).1) }
    {
        unsafe {
            (
                slice::from_raw_parts(start.ptr.add(from), size),
                slice::from_raw_parts_mut(other.ptr.add(to), size),
            )
        }
    }
}
