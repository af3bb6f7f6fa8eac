//! Whether a relation is stable.

ghost use Rattle.std.specs.Prelude.{◌≡◌, ◌<◌, ◌≤◌, ◌↔◌, IfOk, IsTrue};
ghost use Rattle.auto_core.specs.Game.{Holds, Stable};
ghost use Rattle.look_round.specs.Answering.{AreRowsOfAnswers};
ghost use Rattle.log_check.specs.Stability.{IsPairStable, IsRowStable};

use auto_core::{Auto, Memory};
use bit_rel::Rel;
use look_round::{Answering, Scratch, Side, round_holds_by};
use std::alloc::Global;

/// Rows are made for at most so many letters.
const MOST_LETTERS: u32 = 16;

/// Tells whether the pair, if the relation has it, has its round, and the second state what the
/// first asks of it.
fn is_pair_stable<S: Side>(
    side: &S,
    automaton: &Auto,
    rel: &Rel,
    answering: &Answering,
    look: u32,
    p: u32,
    q: u32,
    scratch: &mut Scratch,
) -> bool
    requires look_from { 1 ≤ look }
    requires look_upto { look ≤ 6 }
    requires equal { rel.now.size ≡ automaton.now.states }
    requires answers { AreRowsOfAnswers (S.goes side.now automaton.now)
        (S.matches side.now automaton.now) (Holds rel.now.pairs) automaton.now.states
        answering.now }
    requires made { scratch.old ≡ record { states = automaton.now.states; look = look } }
    requires left { p < automaton.now.states }
    requires right { q < automaton.now.states }
    ensures told { IsTrue result
        ↔ IsPairStable (S.goes side.now automaton.now) (S.matches side.now automaton.now) look
        (Holds rel.now.pairs) p q }
    ensures scratch { scratch.new ≡ scratch.old }
{
    if !rel.get(p, q) {
        return true;
    }
    side.matched(automaton, p, q)
        && round_holds_by(side, automaton, rel, answering, look, p, q, scratch)
}

/// Tells whether the state's pairs are stable.
fn is_row_stable<S: Side>(
    side: &S,
    automaton: &Auto,
    rel: &Rel,
    answering: &Answering,
    look: u32,
    p: u32,
    scratch: &mut Scratch,
) -> bool
    requires look_from { 1 ≤ look }
    requires look_upto { look ≤ 6 }
    requires equal { rel.now.size ≡ automaton.now.states }
    requires answers { AreRowsOfAnswers (S.goes side.now automaton.now)
        (S.matches side.now automaton.now) (Holds rel.now.pairs) automaton.now.states
        answering.now }
    requires made { scratch.old ≡ record { states = automaton.now.states; look = look } }
    requires left { p < automaton.now.states }
    ensures told { IsTrue result
        ↔ IsRowStable (S.goes side.now automaton.now) (S.matches side.now automaton.now) look
        (Holds rel.now.pairs) automaton.now.states p }
    ensures scratch { scratch.new ≡ scratch.old }
{
    for q in 0..automaton.states() {
        if !is_pair_stable(side, automaton, rel, answering, look, p, q, scratch) {
            return false;
        }
    }
    true
}

/// Rows of what is answered at once. There are none for rounds of one move, each of which looks at
/// the moves of a pair once, nor where there are many letters, since they take about as much memory
/// as a relation for each letter.
fn answered_at_once<S: Side>(
    alloc: Global,
    side: &S,
    automaton: &Auto,
    rel: &Rel,
    look: u32,
) -> Result<Answering, Memory>
    requires equal { rel.now.size ≡ automaton.now.states }
    ensures { IfOk result
        (AreRowsOfAnswers (S.goes side.now automaton.now) (S.matches side.now automaton.now)
        (Holds rel.now.pairs) automaton.now.states) }
{
    if look == 1 {
        return Ok(Answering::none(alloc, automaton));
    }
    if automaton.labels() > MOST_LETTERS {
        return Ok(Answering::none(alloc, automaton));
    }
    Answering::new(alloc, side, automaton, rel)
}

/// Tells whether the relation is stable on the side at the lookahead.
pub fn is_stable<S: Side>(
    alloc: Global,
    side: &S,
    automaton: &Auto,
    rel: &Rel,
    look: u32,
) -> Result<bool, Memory>
    requires look_from { 1 ≤ look }
    requires look_upto { look ≤ 6 }
    requires equal { rel.now.size ≡ automaton.now.states }
    ensures { IfOk result (λ told. IsTrue told
        ↔ Stable (S.goes side.now automaton.now) (S.goes side.now automaton.now) (S.matches side.now automaton.now) look (Holds rel.now.pairs)) }
{
    let answering = answered_at_once(alloc, side, automaton, rel, look)?;
    let mut scratch = Scratch::new(alloc, automaton, look)?;
    for p in 0..rel.size() {
        if !is_row_stable(side, automaton, rel, &answering, look, p, &mut scratch) {
            return Ok(false);
        }
    }
    Ok(true)
}
