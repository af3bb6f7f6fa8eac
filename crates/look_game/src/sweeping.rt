//! A first search in which the rows come first that are far from the pair that is asked for: what
//! is lost there is known when nearer rows are visited, so that pair is lost early if it is.

ghost use Rattle.std.specs.Prelude.{◌≡◌, ◌+◌, ◌/◌, ◌^◌, ◌<◌, ◌≤◌, All, length, IfOk, IfSome};
ghost use Rattle.auto_core.specs.Game.{Holds};
ghost use Rattle.bit_rel.specs.Relation.{IsRelation};
ghost use Rattle.look_game.specs.Taking.{TakesAway};
ghost use Rattle.look_game.specs.Visiting.{IsRoomFor};

use crate::asked::{Pair, is_lost};
use crate::visiting::{Visits, visit_row};
use auto_core::{Auto, Memory, rows};
use bit_rel::Rel;
use look_round::{Scratch, Side};
use std::alloc::Global;

/// So many sweeps are made at most, and not more than there are states.
const MOST_SWEEPS: u32 = 8;

/// Adds the states that moves from `p` lead to, as far as they are not marked, and marks them.
fn add_next<S: Side>(
    side: &S,
    automaton: &Auto,
    p: u32,
    marks: &mut [u64],
    order: &mut Vec<u32>,
) -> Result<(), Memory>
    requires state { p < automaton.now.states }
    requires len { length marks.old ≡ (automaton.now.states + 63) / 64 }
    requires order { All (λ q. q < automaton.now.states) order.old.items }
    ensures { IfOk result (λ _. All (λ q. q < automaton.now.states) order.new.items) }
{
    for at in 0..side.moves(automaton, p) {
        let to = side.nth(automaton, p, at).to;
        if !rows::has_bit(marks, to as usize) {
            rows::set_bit(marks, to as usize);
            order.push(to)?;
        }
    }
    Ok(())
}

/// The states that are reached from this one, the nearer ones first. `marks` is room for one row.
fn nearest_first<S: Side>(
    alloc: Global,
    side: &S,
    automaton: &Auto,
    from: u32,
    marks: &mut [u64],
) -> Result<Vec<u32>, Memory>
    requires state { from < automaton.now.states }
    requires len { length marks.old ≡ (automaton.now.states + 63) / 64 }
    ensures { IfOk result (λ order. All (λ q. q < automaton.now.states) order.items) }
{
    rows::clear_row(marks);
    rows::set_bit(marks, from as usize);
    let mut order = Vec::new(alloc);
    order.push(from)?;
    for at in 0..automaton.states() as usize {
        if at < order.len() {
            let p = order[at];
            add_next(side, automaton, p, marks, &mut order)?;
        }
    }
    Ok(order)
}

/// The rows to sweep over, the nearer ones first: those reached from the left state of the pair
/// that is asked for; none where none is asked for.
pub fn rows_to_sweep<S: Side>(
    alloc: Global,
    side: &S,
    automaton: &Auto,
    asked: Option<Pair>,
    marks: &mut [u64],
) -> Result<Vec<u32>, Memory>
    requires asked_states { IfSome
        asked (λ pair. (pair.left < automaton.now.states) × (pair.right < automaton.now.states)) }
    requires len { length marks.old ≡ (automaton.now.states + 63) / 64 }
    ensures { IfOk result (λ order. All (λ q. q < automaton.now.states) order.items) }
{
    match asked {
        Some(pair) => nearest_first(alloc, side, automaton, pair.left, marks),
        None => Ok(Vec::new(alloc)),
    }
}

/// Takes away pairs of these rows that do not have their round, each pair being tried once and the
/// last row first, and tells whether there were any.
fn sweep<S: Side>(
    side: &S,
    automaton: &Auto,
    look: u32,
    order: &[u32],
    rel: &mut Rel,
    scratch: &mut Scratch,
    visits: &mut Visits,
) -> bool
    requires look_from { 1 ≤ look }
    requires look_upto { look ≤ 6 }
    requires equal { rel.old.size ≡ automaton.now.states }
    requires made { scratch.old ≡ record { states = automaton.now.states; look = look } }
    requires order { All (λ p. p < automaton.now.states) order.now }
    requires few { automaton.now.states < 2 ^ 32 }
    requires valid { IsRelation rel.old }
    requires ready { IsRoomFor (S.goes side.now automaton.now) (S.matches side.now automaton.now)
        (Holds rel.old.pairs) automaton.now.states visits.old }
    ensures takes { TakesAway (S.goes side.now automaton.now) (S.matches side.now automaton.now)
        look rel.old rel.new }
    ensures scratch { scratch.new ≡ scratch.old }
    ensures ready { IsRoomFor (S.goes side.now automaton.now) (S.matches side.now automaton.now)
        (Holds rel.new.pairs) automaton.now.states visits.new }
{
    let mut any = false;
    for i in (0..order.len()).rev() {
        if visit_row(side, automaton, look, rel, scratch, order[i], visits) {
            any = true;
        }
    }
    any
}

/// Sweeps over these rows until the pair that is asked for is lost, or no pair is taken away, or
/// that was done often.
pub fn sweep_often<S: Side>(
    side: &S,
    automaton: &Auto,
    look: u32,
    asked: Option<Pair>,
    order: &[u32],
    rel: &mut Rel,
    scratch: &mut Scratch,
    visits: &mut Visits,
)
    requires look_from { 1 ≤ look }
    requires look_upto { look ≤ 6 }
    requires asked_states { IfSome
        asked (λ pair. (pair.left < automaton.now.states) × (pair.right < automaton.now.states)) }
    requires equal { rel.old.size ≡ automaton.now.states }
    requires made { scratch.old ≡ record { states = automaton.now.states; look = look } }
    requires order { All (λ p. p < automaton.now.states) order.now }
    requires few { automaton.now.states < 2 ^ 32 }
    requires ready { IsRoomFor (S.goes side.now automaton.now) (S.matches side.now automaton.now)
        (Holds rel.old.pairs) automaton.now.states visits.old }
    ensures takes { TakesAway (S.goes side.now automaton.now) (S.matches side.now automaton.now)
        look rel.old rel.new }
    ensures scratch { scratch.new ≡ scratch.old }
    ensures ready { IsRoomFor (S.goes side.now automaton.now) (S.matches side.now automaton.now)
        (Holds rel.new.pairs) automaton.now.states visits.new }
{
    for _time in 0..rel.size().min(MOST_SWEEPS) {
        if is_lost(rel, asked) {
            return;
        }
        if !sweep(side, automaton, look, order, rel, scratch, visits) {
            return;
        }
    }
}
