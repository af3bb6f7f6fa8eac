//! One round: Spoiler's paths one after another, each move followed by all of Duplicator's replies
//! at once.

ghost use Rattle.std.specs.Prelude.{◌≡◌, ◌+◌, ◌*◌, ◌/◌, ◌<◌, ◌≤◌, ◌↔◌, ℕ, length, IsTrue};
ghost use Rattle.auto_core.specs.Automaton.{IsAutomaton};
ghost use Rattle.auto_core.specs.Rows.{cell_of};
ghost use Rattle.auto_core.specs.Game.{Round, Holds};
ghost use Rattle.look_round.specs.Answering.{AreRowsOfAnswers};
ghost use Rattle.look_round.specs.Known.{AreKnown};
ghost use Rattle.look_round.specs.Replies.{HasReply, HasReplyFrom, RoundFrom, RoundAfter, HasRows, KeepsRows};

use crate::answering::Answering;
use crate::known::Known;
use crate::list_rounds::{Told, told_by_lists};
use crate::moves::Move;
use crate::scratch::Scratch;
use crate::sides::Side;
use auto_core::{Auto, rows};
use bit_rel::Rel;
use bit_rows::{clear_table_row, meets, next_bit, write_row};
use smallvec::SmallVec;

/// Tells whether it is known that a state of row `number` of the table answers the step by a
/// related one.
fn is_met<S: Side>(
    side: &S,
    automaton: &Auto,
    rel: &Rel,
    answering: &Answering,
    step: Move,
    table: &[u64],
    width: usize,
    number: usize,
) -> bool
    requires answers { AreRowsOfAnswers (S.goes side.now automaton.now)
        (S.matches side.now automaton.now) (Holds rel.now.pairs) automaton.now.states
        answering.now }
    requires here { number * width + width ≤ length table.now }
    requires width { width ≡ (automaton.now.states + 63) / 64 }
    ensures { IsTrue result
        → ((r : ℕ) × HasReplyFrom (S.goes side.now automaton.now) (S.matches side.now automaton.now) step.label step.to (HasReply table.now automaton.now.states width number) r × Holds rel.now.pairs step.to r) }
{
    if !answering.has_row(step) {
        return false;
    }
    let answers = answering.row_of(step);
    let mut at = 0;
    while let Some(q) = next_bit(rows::row_at(table, width, number), at) {
        if q >= automaton.states() as usize {
            return false;
        }
        let Some(next) = next_bit(answers, q) else {
            return false;
        };
        if next == q {
            return true;
        }
        at = next;
    }
    false
}

/// Writes into the row after `number` the states by which the states of row `number` answer the
/// step, and tells whether the step's state is related to one of them.
fn step_into<S: Side>(
    side: &S,
    automaton: &Auto,
    rel: &Rel,
    left: u32,
    step: Move,
    sets: &mut [u64],
    width: usize,
    number: usize,
    known: &mut Known,
) -> bool
    requires valid { IsAutomaton automaton.now }
    requires step { step.to < automaton.now.states }
    requires equal { rel.now.size ≡ automaton.now.states }
    requires here { number * width + width ≤ length sets.old }
    requires next { (number + 1) * width + width ≤ length sets.old }
    requires width { width ≡ (automaton.now.states + 63) / 64 }
    requires known { AreKnown (S.goes side.now automaton.now) (S.matches side.now automaton.now)
        (Holds rel.now.pairs) automaton.now.states known.old }
    ensures told { IsTrue result
        ↔ ((r : ℕ) × HasReplyFrom (S.goes side.now automaton.now) (S.matches side.now automaton.now) step.label step.to (HasReply sets.old automaton.now.states width number) r × Holds rel.now.pairs step.to r) }
    ensures next { (r : ℕ)
        → HasReply sets.new automaton.now.states width (number + 1) r
        ↔ HasReplyFrom (S.goes side.now automaton.now) (S.matches side.now automaton.now) step.label step.to (HasReply sets.old automaton.now.states width number) r }
    ensures others { (i r : ℕ) → r < width * 64 → ¬ (i ≡ number + 1)
        → cell_of sets.new width i r ≡ cell_of sets.old width i r }
    ensures known { AreKnown (S.goes side.now automaton.now) (S.matches side.now automaton.now)
        (Holds rel.now.pairs) automaton.now.states known.new }
{
    let row = rows::row_at(sets, width, number);
    let place = known.find(side, automaton, left, step, row);
    write_row(sets, width, number + 1, known.replies_at(place));
    meets(rel.row(step.to), rows::row_at(sets, width, number + 1))
}

/// Tells whether Spoiler's paths of `left` moves, or shorter ones to a dead end, are answered where
/// their first move is `step`. The path holds Spoiler's moves before, and row `path.len()` of
/// `sets` the states where Duplicator may be.
#[cycle(round)]
fn step_answered<S: Side>(
    side: &S,
    automaton: &Auto,
    rel: &Rel,
    answering: &Answering,
    left: u32,
    step: Move,
    path: &mut SmallVec<Move, 6>,
    sets: &mut [u64],
    width: usize,
    known: &mut Known,
) -> bool
    requires valid { IsAutomaton automaton.now }
    requires left { 1 ≤ left }
    requires step { step.to < automaton.now.states }
    requires answers { AreRowsOfAnswers (S.goes side.now automaton.now)
        (S.matches side.now automaton.now) (Holds rel.now.pairs) automaton.now.states
        answering.now }
    requires equal { rel.now.size ≡ automaton.now.states }
    requires width { width ≡ (automaton.now.states + 63) / 64 }
    requires path { length path.old.items + left ≤ path.old.capacity }
    requires sets { HasRows sets.old width (length path.old.items + left) }
    requires known { AreKnown (S.goes side.now automaton.now) (S.matches side.now automaton.now)
        (Holds rel.now.pairs) automaton.now.states known.old }
    ensures told { IsTrue result
        ↔ RoundAfter (S.goes side.now automaton.now) (S.matches side.now automaton.now) (Holds rel.now.pairs) left step.label step.to (HasReply sets.old automaton.now.states width (length path.old.items)) }
    ensures path { path.new.items ≡ path.old.items }
    ensures capacity { path.new.capacity ≡ path.old.capacity }
    ensures kept { KeepsRows sets.old sets.new width (length path.old.items) }
    ensures known { AreKnown (S.goes side.now automaton.now) (S.matches side.now automaton.now)
        (Holds rel.now.pairs) automaton.now.states known.new }
{
    let number = path.len();
    if is_met(side, automaton, rel, answering, step, sets, width, number) {
        return true;
    }
    if step_into(side, automaton, rel, left, step, sets, width, number, known) {
        return true;
    }
    if left == 1 {
        return false;
    }
    if side.moves(automaton, step.to) == 0 {
        return false;
    }
    if known.is_answered(
        side,
        automaton,
        left,
        step,
        rows::row_at(sets, width, number),
    ) {
        return true;
    }
    let fewer = left - 1;
    let to = step.to;
    path.push_reserved(step);
    let answered = round_from(
        side, automaton, rel, answering, fewer, to, path, sets, width, known,
    );
    path.pop();
    if !answered {
        return false;
    }
    known.note(
        side,
        automaton,
        left,
        step,
        rows::row_at(sets, width, number),
    );
    true
}

/// Tells whether Spoiler's paths of `left` moves from `p`, or shorter ones to a dead end, are
/// answered. The path holds Spoiler's moves before, and row `path.len()` of `sets` the states where
/// Duplicator may be.
#[cycle(round)]
fn round_from<S: Side>(
    side: &S,
    automaton: &Auto,
    rel: &Rel,
    answering: &Answering,
    left: u32,
    p: u32,
    path: &mut SmallVec<Move, 6>,
    sets: &mut [u64],
    width: usize,
    known: &mut Known,
) -> bool
    requires valid { IsAutomaton automaton.now }
    requires left { 1 ≤ left }
    requires state { p < automaton.now.states }
    requires answers { AreRowsOfAnswers (S.goes side.now automaton.now)
        (S.matches side.now automaton.now) (Holds rel.now.pairs) automaton.now.states
        answering.now }
    requires equal { rel.now.size ≡ automaton.now.states }
    requires width { width ≡ (automaton.now.states + 63) / 64 }
    requires path { length path.old.items + left ≤ path.old.capacity }
    requires sets { HasRows sets.old width (length path.old.items + left) }
    requires known { AreKnown (S.goes side.now automaton.now) (S.matches side.now automaton.now)
        (Holds rel.now.pairs) automaton.now.states known.old }
    ensures told { IsTrue result
        ↔ RoundFrom (S.goes side.now automaton.now) (S.matches side.now automaton.now) (Holds rel.now.pairs) left p (HasReply sets.old automaton.now.states width (length path.old.items)) }
    ensures path { path.new.items ≡ path.old.items }
    ensures capacity { path.new.capacity ≡ path.old.capacity }
    ensures kept { KeepsRows sets.old sets.new width (length path.old.items) }
    ensures known { AreKnown (S.goes side.now automaton.now) (S.matches side.now automaton.now)
        (Holds rel.now.pairs) automaton.now.states known.new }
{
    for at in 0..side.moves(automaton, p) {
        let step = side.nth(automaton, p, at);
        if !step_answered(
            side, automaton, rel, answering, left, step, path, sets, width, known,
        ) {
            return false;
        }
    }
    true
}

fn whole_round<S: Side>(
    side: &S,
    automaton: &Auto,
    rel: &Rel,
    answering: &Answering,
    look: u32,
    p: u32,
    q: u32,
    path: &mut SmallVec<Move, 6>,
    sets: &mut [u64],
    known: &mut Known,
) -> bool
    requires look { 1 ≤ look }
    requires answers { AreRowsOfAnswers (S.goes side.now automaton.now)
        (S.matches side.now automaton.now) (Holds rel.now.pairs) automaton.now.states
        answering.now }
    requires equal { rel.now.size ≡ automaton.now.states }
    requires left { p < automaton.now.states }
    requires right { q < automaton.now.states }
    requires path { look ≤ path.old.capacity }
    requires sets { length sets.old ≡ (look + 1) * ((automaton.now.states + 63) / 64) }
    requires known { known.old.width ≡ (automaton.now.states + 63) / 64 }
    ensures told { IsTrue result
        ↔ Round (S.goes side.now automaton.now) (S.goes side.now automaton.now) (S.matches side.now automaton.now) look (Holds rel.now.pairs) p q }
    ensures capacity { path.new.capacity ≡ path.old.capacity }
    ensures known { known.new.width ≡ known.old.width }
{
    let width = rows::words_for(automaton.states());
    path.clear();
    clear_table_row(sets, width, 0);
    rows::set_cell(sets, width, 0, q as usize);
    known.forget();
    round_from(
        side, automaton, rel, answering, look, p, path, sets, width, known,
    )
}

/// Tells whether the round from `p` and `q` holds: each path of `look` moves that Spoiler may show
/// from `p`, or shorter one to a dead end, Duplicator answers from `q`, at least one of its
/// letters, matched at each place, up to a pair of the relation. The scratch was made for this
/// automaton and lookahead. (Clemente and Mayr, lookahead simulation.)
pub fn round_holds<S: Side>(
    side: &S,
    automaton: &Auto,
    rel: &Rel,
    look: u32,
    p: u32,
    q: u32,
    scratch: &mut Scratch,
) -> bool
    requires look_from { 1 ≤ look }
    requires look_upto { look ≤ 6 }
    requires equal { rel.now.size ≡ automaton.now.states }
    requires made { scratch.old ≡ record { states = automaton.now.states; look = look } }
    requires left { p < automaton.now.states }
    requires right { q < automaton.now.states }
    ensures told { IsTrue result
        ↔ Round (S.goes side.now automaton.now) (S.goes side.now automaton.now) (S.matches side.now automaton.now) look (Holds rel.now.pairs) p q }
    ensures scratch { scratch.new ≡ scratch.old }
{
    let none = Answering::none(scratch.alloc, automaton);
    round_holds_by(side, automaton, rel, &none, look, p, q, scratch)
}

/// Tells the same, where rows are known that tell which states answer a move at once.
pub fn round_holds_by<S: Side>(
    side: &S,
    automaton: &Auto,
    rel: &Rel,
    answering: &Answering,
    look: u32,
    p: u32,
    q: u32,
    scratch: &mut Scratch,
) -> bool
    requires look_from { 1 ≤ look }
    requires look_upto { look ≤ 6 }
    requires equal { rel.now.size ≡ automaton.now.states }
    requires answers { AreRowsOfAnswers (S.goes side.now automaton.now)
        (S.matches side.now automaton.now) (Holds rel.now.pairs) automaton.now.states
        answering.now }
    requires made { scratch.old ≡ record { states = automaton.now.states; look = look } }
    requires left { p < automaton.now.states }
    requires right { q < automaton.now.states }
    ensures told { IsTrue result
        ↔ Round (S.goes side.now automaton.now) (S.goes side.now automaton.now) (S.matches side.now automaton.now) look (Holds rel.now.pairs) p q }
    ensures scratch { scratch.new ≡ scratch.old }
{
    match told_by_lists(
        side,
        automaton,
        rel,
        answering,
        look,
        p,
        q,
        &mut scratch.listed,
    ) {
        Told::Holds => true,
        Told::Fails => false,
        Told::Nothing => whole_round(
            side,
            automaton,
            rel,
            answering,
            look,
            p,
            q,
            &mut scratch.path,
            &mut scratch.sets,
            &mut scratch.known,
        ),
    }
}
