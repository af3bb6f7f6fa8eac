//! Rounds where Duplicator may be in few states at a time: a list of them is quicker than a row of
//! bits.

ghost use Rattle.std.specs.Prelude.{◌≡◌, ◌<◌, ◌≤◌, ◌↔◌, ℕ, length, All, Contains, IsTrue};
ghost use Rattle.auto_core.specs.Automaton.{IsAutomaton};
ghost use Rattle.auto_core.specs.Game.{Round, Holds};
ghost use Rattle.look_round.specs.Answering.{AreRowsOfAnswers};
ghost use Rattle.look_round.specs.Replies.{IsReply, HasReplyFrom, RoundFrom, RoundAfter};
ghost use Rattle.look_round.specs.ReplyLists.{AreReplyLists};
ghost use Rattle.look_round.specs.Listed.{IsListedWithin, KeepsListed, Lists};

use crate::answering::Answering;
use crate::moves::Move;
use crate::replies::{has_reply_in, is_reply};
use crate::reply_lists::ReplyLists;
use crate::sides::Side;
use auto_core::Auto;
use bit_rel::Rel;

/// So many states may be looked at in one round, or as many as there are.
const MOST_LOOKED_AT: usize = 32768;

/// What is known of a round.
#[derive(Clone, Copy, Debug, PartialEq, Eq)]
pub enum Told {
    /// It holds.
    Holds,
    /// It fails.
    Fails,
    /// Neither is known yet.
    Nothing,
}

/// Tells whether one of these states answers the step by a related one.
fn one_answers<S: Side>(side: &S, automaton: &Auto, rel: &Rel, step: Move, from: &[u32]) -> bool
    requires equal { rel.now.size ≡ automaton.now.states }
    requires step { step.to < automaton.now.states }
    requires from { All (λ q. q < automaton.now.states) from.now }
    ensures { IsTrue result
        ↔ ((r : ℕ) × HasReplyFrom (S.goes side.now automaton.now) (S.matches side.now automaton.now) step.label step.to (Contains from.now) r × Holds rel.now.pairs step.to r) }
{
    for i in 0..from.len() {
        if has_reply_in(side, automaton, from[i], step, rel.row(step.to)) {
            return true;
        }
    }
    false
}

/// Tells the same, by the rows where they know.
fn one_meets<S: Side>(
    side: &S,
    automaton: &Auto,
    rel: &Rel,
    answering: &Answering,
    step: Move,
    from: &[u32],
) -> bool
    requires equal { rel.now.size ≡ automaton.now.states }
    requires answers { AreRowsOfAnswers (S.goes side.now automaton.now)
        (S.matches side.now automaton.now) (Holds rel.now.pairs) automaton.now.states
        answering.now }
    requires step { step.to < automaton.now.states }
    requires from { All (λ q. q < automaton.now.states) from.now }
    ensures { IsTrue result
        ↔ ((r : ℕ) × HasReplyFrom (S.goes side.now automaton.now) (S.matches side.now automaton.now) step.label step.to (Contains from.now) r × Holds rel.now.pairs step.to r) }
{
    if answering.has_row(step) {
        return answering.has_one(step, from);
    }
    one_answers(side, automaton, rel, step, from)
}

/// Writes the states of the list from place `from` on, as far as there is room, and tells the place
/// after the last one.
fn write_list(list: &[u32], listed: &mut [u32], from: usize, n: u32) -> usize
    requires from { from ≤ length listed.old }
    requires below { All (λ r. r < n) list.now }
    ensures { Lists listed.old listed.new from result n (Contains list.now) }
{
    let mut end = from;
    for i in 0..list.len() {
        if end < listed.len() {
            listed[end] = list[i];
            end += 1;
        }
    }
    end
}

/// Writes the states by which `q` answers the step from place `from` on, as far as there is room,
/// and tells the place after the last one.
fn write_replies<S: Side>(
    side: &S,
    automaton: &Auto,
    q: u32,
    step: Move,
    listed: &mut [u32],
    from: usize,
) -> usize
    requires state { q < automaton.now.states }
    requires step { step.to < automaton.now.states }
    requires from { from ≤ length listed.old }
    ensures { Lists listed.old listed.new from result automaton.now.states
        (IsReply (S.goes side.now automaton.now) (S.matches side.now automaton.now) step.label
        step.to q) }
{
    let mut end = from;
    for at in 0..side.moves(automaton, q) {
        let reply = side.nth(automaton, q, at);
        if end < listed.len() && is_reply(side, automaton, step, reply) {
            listed[end] = reply.to;
            end += 1;
        }
    }
    end
}

/// The same, by the list of the replies where there is one.
fn copy_replies<S: Side>(
    side: &S,
    automaton: &Auto,
    lists: &ReplyLists,
    q: u32,
    step: Move,
    listed: &mut [u32],
    from: usize,
) -> usize
    requires lists { AreReplyLists (S.goes side.now automaton.now)
        (S.matches side.now automaton.now) automaton.now.states lists.now }
    requires state { q < automaton.now.states }
    requires step { step.to < automaton.now.states }
    requires from { from ≤ length listed.old }
    ensures { Lists listed.old listed.new from result automaton.now.states
        (IsReply (S.goes side.now automaton.now) (S.matches side.now automaton.now) step.label
        step.to q) }
{
    if lists.has(step) {
        return write_list(lists.list(q, step), listed, from, automaton.states());
    }
    write_replies(side, automaton, q, step, listed, from)
}

/// Writes from place `end` on the states by which one of those at the places from `at` on answers
/// the step, as far as there is room, and tells the place after the last one.
fn list_replies<S: Side>(
    side: &S,
    automaton: &Auto,
    lists: &ReplyLists,
    step: Move,
    listed: &mut [u32],
    at: usize,
    end: usize,
) -> usize
    requires lists { AreReplyLists (S.goes side.now automaton.now)
        (S.matches side.now automaton.now) automaton.now.states lists.now }
    requires step { step.to < automaton.now.states }
    requires order { at ≤ end }
    requires end { end ≤ length listed.old }
    requires states { (q : ℕ) → IsListedWithin listed.old at end q → q < automaton.now.states }
    ensures { Lists listed.old listed.new end result automaton.now.states
        (HasReplyFrom (S.goes side.now automaton.now) (S.matches side.now automaton.now) step.label step.to (IsListedWithin listed.old at end)) }
{
    let mut to = end;
    for i in at..end {
        to = copy_replies(side, automaton, lists, listed[i], step, listed, to);
    }
    to
}

/// Tells what is known of Spoiler's paths of `left` moves, or shorter ones to a dead end, whose
/// first move is `step`, where Duplicator may be in one of the states at the places from `at` on.
/// At most `room` more states are looked at.
#[cycle(list_rounds)]
fn told_after<S: Side>(
    side: &S,
    automaton: &Auto,
    rel: &Rel,
    answering: &Answering,
    left: u32,
    step: Move,
    listed: &mut [u32],
    at: usize,
    end: usize,
    room: &mut usize,
) -> Told
    requires valid { IsAutomaton automaton.now }
    requires left { 1 ≤ left }
    requires step { step.to < automaton.now.states }
    requires answers { AreRowsOfAnswers (S.goes side.now automaton.now)
        (S.matches side.now automaton.now) (Holds rel.now.pairs) automaton.now.states
        answering.now }
    requires equal { rel.now.size ≡ automaton.now.states }
    requires order { at ≤ end }
    requires end { end ≤ length listed.old }
    requires states { (q : ℕ) → IsListedWithin listed.old at end q → q < automaton.now.states }
    ensures kept { KeepsListed listed.old listed.new end }
    ensures holds { result ≡ Told.Holds
        → RoundAfter (S.goes side.now automaton.now) (S.matches side.now automaton.now) (Holds rel.now.pairs) left step.label step.to (IsListedWithin listed.old at end) }
    ensures fails { result ≡ Told.Fails
        → RoundAfter (S.goes side.now automaton.now) (S.matches side.now automaton.now) (Holds rel.now.pairs) left step.label step.to (IsListedWithin listed.old at end)
        → ⊥ }
{
    if one_meets(side, automaton, rel, answering, step, &listed[at..end]) {
        return Told::Holds;
    }
    if left == 1 {
        return Told::Fails;
    }
    if side.moves(automaton, step.to) == 0 {
        return Told::Fails;
    }
    let to = list_replies(side, automaton, &answering.lists, step, listed, at, end);
    if to == listed.len() {
        return Told::Nothing;
    }
    told_from(
        side,
        automaton,
        rel,
        answering,
        left - 1,
        step.to,
        listed,
        end,
        to,
        room,
    )
}

/// Tells what is known of Spoiler's paths of `left` moves from `p`, or shorter ones to a dead end,
/// where Duplicator may be in one of the states at the places from `at` on. At most `room` more
/// states are looked at.
#[cycle(list_rounds)]
fn told_from<S: Side>(
    side: &S,
    automaton: &Auto,
    rel: &Rel,
    answering: &Answering,
    left: u32,
    p: u32,
    listed: &mut [u32],
    at: usize,
    end: usize,
    room: &mut usize,
) -> Told
    requires valid { IsAutomaton automaton.now }
    requires left { 1 ≤ left }
    requires state { p < automaton.now.states }
    requires answers { AreRowsOfAnswers (S.goes side.now automaton.now)
        (S.matches side.now automaton.now) (Holds rel.now.pairs) automaton.now.states
        answering.now }
    requires equal { rel.now.size ≡ automaton.now.states }
    requires order { at ≤ end }
    requires end { end ≤ length listed.old }
    requires states { (q : ℕ) → IsListedWithin listed.old at end q → q < automaton.now.states }
    ensures kept { KeepsListed listed.old listed.new end }
    ensures holds { result ≡ Told.Holds
        → RoundFrom (S.goes side.now automaton.now) (S.matches side.now automaton.now) (Holds rel.now.pairs) left p (IsListedWithin listed.old at end) }
    ensures fails { result ≡ Told.Fails
        → RoundFrom (S.goes side.now automaton.now) (S.matches side.now automaton.now) (Holds rel.now.pairs) left p (IsListedWithin listed.old at end)
        → ⊥ }
{
    for number in 0..side.moves(automaton, p) {
        if *room < end - at {
            return Told::Nothing;
        }
        *room -= end - at;
        let step = side.nth(automaton, p, number);
        match told_after(
            side, automaton, rel, answering, left, step, listed, at, end, room,
        ) {
            Told::Holds => {}
            Told::Fails => return Told::Fails,
            Told::Nothing => return Told::Nothing,
        }
    }
    Told::Holds
}

/// Tells what is known of the round from `p` and `q`. `listed` is room for the states in which
/// Duplicator may be.
pub(crate) fn told_by_lists<S: Side>(
    side: &S,
    automaton: &Auto,
    rel: &Rel,
    answering: &Answering,
    look: u32,
    p: u32,
    q: u32,
    listed: &mut [u32],
) -> Told
    requires look { 1 ≤ look }
    requires answers { AreRowsOfAnswers (S.goes side.now automaton.now)
        (S.matches side.now automaton.now) (Holds rel.now.pairs) automaton.now.states
        answering.now }
    requires equal { rel.now.size ≡ automaton.now.states }
    requires left { p < automaton.now.states }
    requires right { q < automaton.now.states }
    requires listed { 1 ≤ length listed.old }
    ensures holds { result ≡ Told.Holds
        → Round (S.goes side.now automaton.now) (S.goes side.now automaton.now)
        (S.matches side.now automaton.now) look (Holds rel.now.pairs) p q }
    ensures fails { result ≡ Told.Fails
        → Round (S.goes side.now automaton.now) (S.goes side.now automaton.now)
        (S.matches side.now automaton.now) look (Holds rel.now.pairs) p q → ⊥ }
{
    let mut room = MOST_LOOKED_AT.max(automaton.states() as usize);
    listed[0] = q;
    told_from(
        side, automaton, rel, answering, look, p, listed, 0, 1, &mut room,
    )
}
