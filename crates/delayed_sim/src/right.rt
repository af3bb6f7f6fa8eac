//! Whether a relation with ranks is right.

ghost use Rattle.std.specs.Prelude.{◌≡◌, ◌+◌, ◌<◌, ◌≤◌, ◌↔◌, ℕ, Option, [], ◌∷◌, ◌++◌, length, take, drop, slice_index, IsTrue};
ghost use Rattle.auto_core.specs.Automaton.{Moves, IsAccepting, trans_at};
ghost use Rattle.auto_core.specs.Delayed.{IsTripleWord, HasRank, IsRight};
ghost use Rattle.delayed_sim.specs.Rankings.{triple_at};
ghost use Rattle.delayed_sim.specs.Right.{Suits, HasAnswerBelow, IsAnsweredAhead, HasAnswers, IsTripleRight, IsTripleAnswered};

use crate::delayed::Delayed;
use auto_core::{Auto, Trans};

/// Tells whether the triple has a rank below this one.
fn is_below(delayed: &Delayed, p: u32, ahead: &[u32], q: u32, rank: u32) -> bool
    requires letters { IsTripleWord delayed.now.labels delayed.now.letters ahead.now }
    requires left { p < delayed.now.states }
    requires right { q < delayed.now.states }
    ensures { IsTrue result ↔ ((s : ℕ) × HasRank delayed.now.triples ahead.now p q s × (s < rank)) }
{
    match delayed.rank(p, ahead, q) {
        Some(other) => other < rank,
        None => false,
    }
}

/// Tells whether the relation holds the triple, with a rank below this one if one is given.
fn suits(delayed: &Delayed, p: u32, ahead: &[u32], q: u32, below: Option<u32>) -> bool
    requires letters { IsTripleWord delayed.now.labels delayed.now.letters ahead.now }
    requires left { p < delayed.now.states }
    requires right { q < delayed.now.states }
    ensures { IsTrue result ↔ Suits delayed.now.triples below ahead.now p q }
{
    match below {
        None => delayed.relates(p, ahead, q),
        Some(rank) => is_below(delayed, p, ahead, q, rank),
    }
}

/// Tells whether the state answers the move, after which the word is this one, with a triple of the
/// relation, of a rank below this one if one is given.
fn is_answered(
    automaton: &Auto,
    delayed: &Delayed,
    q: u32,
    step: Trans,
    ahead: &[u32],
    below: Option<u32>,
) -> bool
    requires equal { delayed.now.states ≡ automaton.now.states }
    requires state { q < automaton.now.states }
    requires target { step.target < automaton.now.states }
    requires letters { IsTripleWord delayed.now.labels delayed.now.letters ahead.now }
    ensures { IsTrue result
        ↔ HasAnswerBelow automaton.now delayed.now.triples below ahead.now q step.label
        step.target }
{
    let span = automaton.successors(q, step.label);
    for u in span.begin..span.end {
        let target = automaton.transitions()[u as usize].target;
        if suits(delayed, step.target, ahead, target, below) {
            return true;
        }
    }
    false
}

/// The letter behind the one with this number in the word, where `more` comes behind the word.
fn letter_after(ahead: &[u32], more: u32, at: usize) -> u32
    requires { at < length ahead.now }
    ensures { result ≡ slice_index (ahead.now ++ more ∷ []) (at + 1) }
{
    if at + 1 < ahead.len() {
        ahead[at + 1]
    } else {
        more
    }
}

/// The word after a move, where the further letter is `more`: the first ones of the three letters.
fn next_ahead(ahead: &[u32], more: u32) -> [u32; 3]
    requires { length ahead.now ≤ 3 }
    ensures { take (length ahead.now) result ≡ drop 1 (ahead.now ++ more ∷ []) }
{
    let mut next = [0; 3];
    for at in 0..ahead.len() {
        next[at] = letter_after(ahead, more, at);
    }
    next
}

/// Tells whether the state answers the move whatever further letter is announced, with triples of a
/// rank below this one if one is given.
fn is_answered_ahead(
    automaton: &Auto,
    delayed: &Delayed,
    q: u32,
    step: Trans,
    ahead: &[u32],
    below: Option<u32>,
) -> bool
    requires equal { delayed.now.states ≡ automaton.now.states }
    requires same { delayed.now.labels ≡ automaton.now.labels }
    requires state { q < automaton.now.states }
    requires target { step.target < automaton.now.states }
    requires label { step.label < automaton.now.labels }
    requires letters { IsTripleWord delayed.now.labels delayed.now.letters ahead.now }
    requires some { 0 < length ahead.now }
    requires short { length ahead.now ≤ 3 }
    requires first { slice_index ahead.now 0 ≡ step.label }
    ensures { IsTrue result
        ↔ IsAnsweredAhead automaton.now delayed.now.triples below ahead.now q step.label
        step.target }
{
    for more in 0..automaton.labels() {
        let next = next_ahead(ahead, more);
        if !is_answered(automaton, delayed, q, step, &next[..ahead.len()], below) {
            return false;
        }
    }
    true
}

/// Tells whether the state answers the move of another one with this word, if the word allows it:
/// at once where the word is empty, and otherwise whatever further letter is announced.
fn answers_move(
    automaton: &Auto,
    delayed: &Delayed,
    q: u32,
    step: Trans,
    ahead: &[u32],
    below: Option<u32>,
) -> bool
    requires equal { delayed.now.states ≡ automaton.now.states }
    requires same { delayed.now.labels ≡ automaton.now.labels }
    requires state { q < automaton.now.states }
    requires target { step.target < automaton.now.states }
    requires label { step.label < automaton.now.labels }
    requires letters { IsTripleWord delayed.now.labels delayed.now.letters ahead.now }
    requires short { length ahead.now ≤ 3 }
    ensures { IsTrue result
        ↔ IsAnsweredAhead automaton.now delayed.now.triples below ahead.now q step.label
        step.target }
{
    if ahead.is_empty() {
        return is_answered(automaton, delayed, q, step, ahead, below);
    }
    if ahead[0] != step.label {
        return true;
    }
    is_answered_ahead(automaton, delayed, q, step, ahead, below)
}

/// Tells whether the right state answers each move of the left one with this word, with triples of
/// a rank below this one if one is given.
fn has_answers(
    automaton: &Auto,
    delayed: &Delayed,
    p: u32,
    ahead: &[u32],
    q: u32,
    below: Option<u32>,
) -> bool
    requires equal { delayed.now.states ≡ automaton.now.states }
    requires same { delayed.now.labels ≡ automaton.now.labels }
    requires left { p < automaton.now.states }
    requires right { q < automaton.now.states }
    requires letters { IsTripleWord delayed.now.labels delayed.now.letters ahead.now }
    requires short { length ahead.now ≤ 3 }
    ensures { IsTrue result ↔ HasAnswers automaton.now delayed.now.triples below ahead.now p q }
{
    let span = automaton.outgoing(p);
    for t in span.begin..span.end {
        let step = automaton.transitions()[t as usize];
        if !answers_move(automaton, delayed, q, step, ahead, below) {
            return false;
        }
    }
    true
}

/// Tells whether the moves of the triple with this number are answered, by triples of a rank below
/// this one if one is given.
pub fn is_answered_at(automaton: &Auto, delayed: &Delayed, at: usize, below: Option<u32>) -> bool
    requires equal { delayed.now.states ≡ automaton.now.states }
    requires same { delayed.now.labels ≡ automaton.now.labels }
    requires inside { at < length delayed.now.triples }
    ensures { IsTrue result
        ↔ IsTripleAnswered automaton.now delayed.now.triples below
        (triple_at delayed.now.triples at) }
{
    has_answers(
        automaton,
        delayed,
        delayed.left(at),
        delayed.ahead(at),
        delayed.right(at),
        below,
    )
}

/// Tells whether the triple with this number is right.
fn is_right(automaton: &Auto, delayed: &Delayed, at: usize) -> bool
    requires equal { delayed.now.states ≡ automaton.now.states }
    requires same { delayed.now.labels ≡ automaton.now.labels }
    requires inside { at < length delayed.now.triples }
    ensures { IsTrue result
        ↔ IsTripleRight automaton.now delayed.now.triples (triple_at delayed.now.triples at) }
{
    let p = delayed.left(at);
    let q = delayed.right(at);
    match delayed.rank_at(at) {
        None => !automaton.accepting(p) && is_answered_at(automaton, delayed, at, None),
        Some(0) => automaton.accepting(q) && is_answered_at(automaton, delayed, at, None),
        Some(rank) => is_answered_at(automaton, delayed, at, Some(rank)),
    }
}

/// Tells whether the relation with its ranks is right on the automaton.
pub fn holds(automaton: &Auto, delayed: &Delayed) -> bool
    requires equal { delayed.now.states ≡ automaton.now.states }
    requires same { delayed.now.labels ≡ automaton.now.labels }
    ensures { IsTrue result ↔ IsRight automaton.now delayed.now.triples }
{
    for at in 0..delayed.count() {
        if !is_right(automaton, delayed, at) {
            return false;
        }
    }
    true
}
