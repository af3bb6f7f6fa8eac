//! Paths that spell a word.

ghost use Rattle.std.specs.Prelude.{◌≡◌, ◌+◌, ◌*◌, ◌^◌, ◌<◌, ◌≤◌, ℕ, List as Items, not, ◌&&◌, cond, length, IfOk};
ghost use Rattle.auto_core.specs.Automaton.{IsAutomaton, Moves, is_accepting};
ghost use Rattle.auto_core.specs.Rows.{HasBit, HasCell};
ghost use Rattle.lasso_accept.specs.Plane.{chosen};
ghost use Rattle.lasso_accept.specs.Guide.{IsGuide, LeadsToTarget, IsSpelled};

use crate::{guide, planes};
use auto_core::{Auto, List, Memory, rows};
use std::alloc::Global;

/// The first state that the state moves to with the label and that is in `marked`, if it is
/// accepting, or else in `plain`. There is one.
fn successor_in(automaton: &Auto, state: u32, label: u32, marked: &[u64], plain: &[u64]) -> u32
    requires is_state { state < automaton.now.states }
    requires marked_room { automaton.now.states ≤ length marked.now * 64 }
    requires plain_room { automaton.now.states ≤ length plain.now * 64 }
    requires some { (r : ℕ) × Moves automaton.now state label r
        × HasBit (chosen automaton.now marked.now plain.now r) r }
    ensures moves { Moves automaton.now state label result }
    ensures is_in { HasBit (chosen automaton.now marked.now plain.now result) result }
{
    let span = automaton.successors(state, label);
    let transitions = automaton.transitions();
    for t in span.begin..span.end {
        let target = transitions[t as usize].target;
        if rows::has_bit(
            planes::pick(automaton, target, marked, plain),
            target as usize,
        ) {
            return target;
        }
    }
    state
}

/// The second table where an accepting state is still asked for, else the first.
fn table_for<'a>(asked: bool, any: &'a [u64], flagged: &'a [u64]) -> &'a [u64]
    ensures { result.now ≡ cond asked flagged.now any.now }
{
    if asked { flagged } else { any }
}

/// Whether an accepting state is still asked for once the state is passed.
fn still_asked(automaton: &Auto, state: u32, asked: bool) -> bool
    requires { state < automaton.now.states }
    ensures { result ≡ (asked && not (is_accepting automaton.now state)) }
{
    if automaton.accepting(state) {
        false
    } else {
        asked
    }
}

/// Appends the states of a path on the word from the state `start`, as the guide shows the way, and
/// gives the last one.
fn walk(
    automaton: &Auto,
    word: &[u32],
    width: usize,
    any: &[u64],
    flagged: &[u64],
    start: u32,
    asked: bool,
    places: &mut List<u32>,
) -> Result<u32, Memory>
    requires valid { IsAutomaton automaton.now }
    requires room { automaton.now.states ≤ width * 64 }
    requires is_state { start < automaton.now.states }
    requires guided { (target : Items ℕ)
        × IsGuide automaton.now word.now target width any.now flagged.now }
    requires here { HasCell (cond asked flagged.now any.now) width 0 start }
    ensures { (target : Items ℕ)
        → IsGuide automaton.now word.now target width any.now flagged.now
        → IfOk result (λ end. IsSpelled automaton.now start word.now target asked places.old places.new end) }
{
    let mut state = start;
    let mut wanted = asked;
    for at in 0..word.len() {
        let marked = rows::row_at(any, width, at + 1);
        let plain = rows::row_at(table_for(wanted, any, flagged), width, at + 1);
        state = successor_in(automaton, state, word[at], marked, plain);
        wanted = still_asked(automaton, state, wanted);
        places.push(state)?;
    }
    Ok(state)
}

/// Appends the states of a path on the word from the state `start` into the target, past an
/// accepting state if that is asked for, and gives the last one. There is such a path.
pub fn spell(
    alloc: Global,
    automaton: &Auto,
    word: &[u32],
    width: usize,
    target: &[u64],
    start: u32,
    asked: bool,
    places: &mut List<u32>,
) -> Result<u32, Memory>
    requires valid { IsAutomaton automaton.now }
    requires room { automaton.now.states ≤ width * 64 }
    requires few { width < 2 ^ 32 }
    requires target_len { length target.now ≡ width }
    requires is_state { start < automaton.now.states }
    requires leads { LeadsToTarget automaton.now start word.now target.now asked }
    ensures { IfOk
        result (λ end.
        IsSpelled automaton.now start word.now target.now asked places.old places.new end) }
{
    let guide = guide::guide_of(alloc, automaton, word, width, target)?;
    walk(
        automaton,
        word,
        width,
        &guide.any,
        &guide.flagged,
        start,
        asked,
        places,
    )
}
