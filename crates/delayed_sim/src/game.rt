//! The greatest delayed relation.

ghost use Rattle.std.specs.Prelude.{◌≡◌, ◌+◌, ◌-◌, ◌*◌, ◌/◌, ◌^◌, ◌<◌, ◌≤◌, ◌⊎◌, ◌↔◌, ℕ, IfOk};
ghost use Rattle.auto_core.specs.Automaton.{IsAutomaton};
ghost use Rattle.auto_core.specs.Game.{Holds};
ghost use Rattle.auto_core.specs.Delayed.{IsGreatestDelayed, letters_for};
ghost use Rattle.bit_rel.specs.Relation.{IsRelation};
ghost use Rattle.delayed_sim.specs.Rankings.{IsRanking};
ghost use Rattle.delayed_game.specs.Played.{HasEachRight};
ghost use Rattle.delayed_sim.specs.Words.{ArePlaces};

use crate::delayed::Delayed;
use crate::listing::entries_of;
use crate::places::places_of;
use crate::unasked::Unasked;
use crate::words::word_count;
use auto_core::{Auto, Memory};
use bit_rel::Rel;
use delayed_game::{Board, play};
use look_round::bound;
use std::alloc::Global;

/// Relates the state to each one.
fn fill_row(rel: &mut Rel, p: u32)
    requires left { p < rel.old.size }
    requires valid { IsRelation rel.old }
    ensures size { rel.new.size ≡ rel.old.size }
    ensures valid { IsRelation rel.new }
    ensures pairs { (r q : ℕ)
        → Holds rel.new.pairs r q ↔ (Holds rel.old.pairs r q ⊎ ((r ≡ p) × (q < rel.old.size))) }
{
    for q in 0..rel.size() {
        rel.set(p, q);
    }
}

/// The relation of all pairs of states below `n`.
fn all_pairs(alloc: Global, n: u32) -> Result<Rel, Memory>
    ensures size { IfOk result (λ r. r.size ≡ n) }
    ensures pairs { IfOk result (λ r. (p q : ℕ) → p < n → q < n → Holds r.pairs p q) }
{
    let mut rel = Rel::empty(alloc, n)?;
    for p in 0..n {
        fill_row(&mut rel, p);
    }
    Ok(rel)
}

/// What is left of the game of the places, which begins with the pairs of `first`, whatever the
/// word.
fn greatest_within(
    alloc: Global,
    places: &Auto,
    automaton: &Auto,
    first: &Rel,
    letters: u32,
) -> Result<Delayed, Memory>
    requires from { 1 ≤ letters }
    requires upto { letters ≤ 4 }
    requires valid { IsAutomaton automaton.now }
    requires places { ArePlaces automaton.now letters places.now }
    requires words { 0 < automaton.now.labels ^ (letters - 1) }
    requires word_count { automaton.now.labels ^ (letters - 1) < 2 ^ 32 }
    requires few { places.now.states * automaton.now.states + 2 < 2 ^ 32 }
    requires equal { first.now.size ≡ automaton.now.states }
    requires first { HasEachRight places.now
        automaton.now (λ x q. Holds first.now.pairs (x / automaton.now.labels ^ (letters - 1)) q) }
    ensures states { IfOk result (λ d. d.states ≡ automaton.now.states) }
    ensures labels { IfOk result (λ d. d.labels ≡ automaton.now.labels) }
    ensures letters { IfOk result (λ d. d.letters ≡ letters) }
    ensures valid { IfOk result IsRanking }
    ensures greatest { IfOk result (λ d. IsGreatestDelayed automaton.now letters d.triples) }
{
    let labels = automaton.labels();
    let mut board = Board::of_relation(alloc, first, word_count(labels, letters - 1))?;
    let ranks = play(alloc, places, automaton, &mut board)?;
    let entries = entries_of(alloc, &board, &ranks, labels, letters)?;
    Ok(Delayed {
        states: automaton.states(),
        labels,
        letters,
        entries,
    })
}

/// The greatest delayed relation with one announced letter. It is sought inside the bound by short
/// words.
fn greatest_by_pairs(alloc: Global, automaton: &Auto) -> Result<Delayed, Memory>
    requires few { automaton.now.states ≤ 65535 }
    requires valid { IsAutomaton automaton.now }
    ensures states { IfOk result (λ d. d.states ≡ automaton.now.states) }
    ensures labels { IfOk result (λ d. d.labels ≡ automaton.now.labels) }
    ensures letters { IfOk result (λ d. d.letters ≡ 1) }
    ensures valid { IfOk result IsRanking }
    ensures greatest { IfOk result (λ d. IsGreatestDelayed automaton.now 1 d.triples) }
{
    let first = bound(alloc, &Unasked, automaton)?;
    greatest_within(alloc, automaton, automaton, &first, 1)
}

/// The greatest delayed relation with more than one announced letter, by the game of the places.
fn greatest_ahead(alloc: Global, automaton: &Auto, letters: u32) -> Result<Delayed, Memory>
    requires from { 2 ≤ letters }
    requires upto { letters ≤ 4 }
    requires fitting { letters ≡ letters_for automaton.now letters }
    requires valid { IsAutomaton automaton.now }
    ensures states { IfOk result (λ d. d.states ≡ automaton.now.states) }
    ensures labels { IfOk result (λ d. d.labels ≡ automaton.now.labels) }
    ensures letters { IfOk result (λ d. d.letters ≡ letters) }
    ensures valid { IfOk result IsRanking }
    ensures greatest { IfOk result (λ d. IsGreatestDelayed automaton.now letters d.triples) }
{
    let places = places_of(alloc, automaton, letters)?;
    let first = all_pairs(alloc, automaton.states())?;
    greatest_within(alloc, &places, automaton, &first, letters)
}

/// The greatest delayed relation with so many announced letters on the automaton's states, with the
/// least ranks. (Clemente and Mayr, delayed simulation.)
pub fn greatest(alloc: Global, automaton: &Auto, letters: u32) -> Result<Delayed, Memory>
    requires from { 1 ≤ letters }
    requires upto { letters ≤ 4 }
    requires fitting { letters ≡ letters_for automaton.now letters }
    requires few { automaton.now.states ≤ 65535 }
    ensures states { IfOk result (λ d. d.states ≡ automaton.now.states) }
    ensures labels { IfOk result (λ d. d.labels ≡ automaton.now.labels) }
    ensures letters { IfOk result (λ d. d.letters ≡ letters) }
    ensures valid { IfOk result IsRanking }
    ensures greatest { IfOk result (λ d. IsGreatestDelayed automaton.now letters d.triples) }
{
    let _states = automaton.states();
    if letters == 1 {
        return greatest_by_pairs(alloc, automaton);
    }
    greatest_ahead(alloc, automaton, letters)
}
