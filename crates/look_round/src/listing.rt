//! Lists of the replies of each state are made and read.

ghost use Rattle.std.specs.Prelude.{◌≡◌, ◌+◌, ◌*◌, ◌/◌, ◌<◌, ◌≤◌, ◌↔◌, ℕ, true, length, slice_index, vec_len, All, Contains, IsTrue, IfOk};
ghost use Rattle.auto_core.specs.Rows.{HasBit};
ghost use Rattle.look_round.specs.Kinds.{AreKinds};
ghost use Rattle.look_round.specs.Replies.{IsReply};
ghost use Rattle.look_round.specs.ReplyLists.{list_at, list_number, IsListThere, AddsReplies, AreReplyLists, AreListedUpto};

use crate::kinds::{find_kinds, number_kinds};
use crate::moves::Move;
use crate::replies::{has_reply_in, is_reply};
use crate::reply_lists::{MOST_KINDS, MOST_LISTED_LETTERS, ReplyLists};
use crate::sides::Side;
use auto_core::{Auto, Memory, rows};
use std::alloc::Global;

/// Adds the states by which `q` answers a move by the letter to `p`.
fn add_list<S: Side>(
    side: &S,
    automaton: &Auto,
    label: u32,
    p: u32,
    q: u32,
    items: &mut Vec<u32>,
) -> Result<(), Memory>
    requires left { p < automaton.now.states }
    requires right { q < automaton.now.states }
    ensures { IfOk
        result (λ _.
        AddsReplies (S.goes side.now automaton.now) (S.matches side.now automaton.now)
        automaton.now.states label p q items.old.items items.new.items) }
{
    for at in 0..side.moves(automaton, q) {
        let reply = side.nth(automaton, q, at);
        if is_reply(side, automaton, Move { label, to: p }, reply) {
            items.push(reply.to)?;
        }
    }
    Ok(())
}

/// Adds the lists of all states for moves by the letters below `labels` to these states.
fn add_lists<S: Side>(
    side: &S,
    automaton: &Auto,
    labels: u32,
    kinds: &[u32],
    starts: &mut Vec<usize>,
    items: &mut Vec<u32>,
) -> Result<(), Memory>
    requires labels_from { 1 ≤ labels }
    requires labels_upto { labels ≤ MOST_LISTED_LETTERS }
    requires kinds_from { 1 ≤ length kinds.now }
    requires kinds_upto { length kinds.now ≤ MOST_KINDS }
    requires kinds { All (λ s. s < automaton.now.states) kinds.now }
    requires none { AreListedUpto (S.goes side.now automaton.now) (S.matches side.now automaton.now)
        automaton.now.states labels kinds.now starts.old.items items.old.items 0 }
    ensures { IfOk result (λ _. AreListedUpto (S.goes side.now automaton.now) (S.matches side.now automaton.now) automaton.now.states labels kinds.now starts.new.items items.new.items
        (automaton.now.states * labels * length kinds.now)) }
{
    for i in 0..automaton.states() as usize * labels as usize * kinds.len() {
        let row = i / kinds.len();
        let q = (row / labels as usize) as u32;
        let label = (row % labels as usize) as u32;
        add_list(side, automaton, label, kinds[i % kinds.len()], q, items)?;
        starts.push(items.len())?;
    }
    Ok(())
}

/// Tells whether one of these states has its bit.
fn one_has_bit(list: &[u32], row: &[u64]) -> bool
    requires below { All (λ r. r < length row.now * 64) list.now }
    ensures { IsTrue result ↔ ((r : ℕ) × Contains list.now r × HasBit row.now r) }
{
    for i in 0..list.len() {
        if rows::has_bit(row, list[i] as usize) {
            return true;
        }
    }
    false
}

impl ReplyLists {
    /// No lists.
    pub(crate) fn none(alloc: Global) -> ReplyLists
        ensures { result.labels ≡ 0 }
    {
        ReplyLists {
            labels: 0,
            kinds: 0,
            kind_of: Vec::new(alloc),
            starts: Vec::new(alloc),
            items: Vec::new(alloc),
        }
    }

    /// The lists of all states, if there are few letters.
    pub(crate) fn new<S: Side>(
        alloc: Global,
        side: &S,
        automaton: &Auto,
    ) -> Result<ReplyLists, Memory>
        ensures { IfOk result
            (AreReplyLists (S.goes side.now automaton.now) (S.matches side.now automaton.now)
            automaton.now.states) }
    {
        let labels = automaton.labels();
        if labels == 0 || labels > MOST_LISTED_LETTERS {
            return Ok(ReplyLists::none(alloc));
        }
        let kinds = find_kinds(alloc, side, automaton)?;
        if kinds.is_empty() {
            return Ok(ReplyLists::none(alloc));
        }
        let kind_of = number_kinds(alloc, side, automaton, &kinds)?;
        let mut starts = Vec::new(alloc);
        let mut items: Vec<u32> = Vec::new(alloc);
        starts.push(0)?;
        add_lists(side, automaton, labels, &kinds, &mut starts, &mut items)?;
        Ok(ReplyLists {
            labels,
            kinds: kinds.len(),
            kind_of,
            starts,
            items,
        })
    }

    /// Tells whether there is a list of each state for the step.
    pub(crate) fn has(&self, step: Move) -> bool
        requires { 0 < self.now.labels → step.to < vec_len self.now.kind_of }
        ensures { result ≡ true
            → (step.label < self.now.labels)
            × (slice_index self.now.kind_of.items step.to < self.now.kinds) }
    {
        step.label < self.labels && self.kind_of[step.to as usize] < self.kinds
    }

    /// The states by which `from` answers the step.
    pub(crate) fn list(&self, from: u32, step: Move) -> &[u32]
        requires label { step.label < self.now.labels }
        requires to { step.to < vec_len self.now.kind_of }
        requires kind { slice_index self.now.kind_of.items step.to < self.now.kinds }
        requires there { IsListThere self.now.starts.items self.now.items.items
            (list_number self.now step.label step.to from) }
        ensures { result.now
            ≡ list_at self.now.starts.items self.now.items.items
            (list_number self.now step.label step.to from) }
    {
        let row = from as usize * self.labels as usize + step.label as usize;
        let number = row * self.kinds + self.kind_of[step.to as usize];
        &self.items[self.starts[number]..self.starts[number + 1]]
    }

    /// Tells whether `from` answers the step by a state of the row.
    pub(crate) fn has_reply<S: Side>(
        &self,
        side: &S,
        automaton: &Auto,
        from: u32,
        step: Move,
        row: &[u64],
    ) -> bool
        requires lists { AreReplyLists (S.goes side.now automaton.now)
            (S.matches side.now automaton.now) automaton.now.states self.now }
        requires from { from < automaton.now.states }
        requires step { step.to < automaton.now.states }
        requires row { length row.now ≡ (automaton.now.states + 63) / 64 }
        ensures { IsTrue result
            ↔ ((r : ℕ) × IsReply (S.goes side.now automaton.now) (S.matches side.now automaton.now)
            step.label step.to from r × HasBit row.now r) }
    {
        if self.has(step) {
            return one_has_bit(self.list(from, step), row);
        }
        has_reply_in(side, automaton, from, step, row)
    }
}
