//! The greatest delayed relation by a plain program: passes over all triples, which drop what
//! cannot be held and rank what can be ranked.

ghost use Rattle.std.specs.Prelude.{◌≡◌, ◌+◌, ◌-◌, ◌*◌, ◌^◌, ◌<◌, ◌≤◌, ◌↔◌, ℕ, List, Option, length, true, false, IsTrue, IfOk};
ghost use Rattle.auto_core.specs.Automaton.{IsAutomaton};
ghost use Rattle.auto_core.specs.Delayed.{IsTripleWord, HoldsTriple, IsGreatestDelayed, letters_for};
ghost use Rattle.delayed_sim.specs.Rankings.{IsRanking, triple_at};
ghost use Rattle.delayed_sim.specs.Right.{IsTripleAnswered};
ghost use Rattle.delayed_sim.specs.Rounds.{HasEachTriple, HasRanksUpto, IsShortened, Thins, IsReranked, HasSameTriples, AreRanksRight, GetsRankZero, GetsRank, unranked, AreAcceptingRanked, AreAllAnswered};

use crate::delayed::Delayed;
use crate::entries::Entry;
use crate::right::is_answered_at;
use crate::words::{letters_of, word_count};
use auto_core::{Auto, Memory};
use std::alloc::Global;

/// All triples of the automaton's states and labels, none with a rank.
fn all_triples(alloc: Global, automaton: &Auto, letters: u32) -> Result<Delayed, Memory>
    requires from { 1 ≤ letters }
    requires upto { letters ≤ 4 }
    requires words { 0 < automaton.now.labels ^ (letters - 1) }
    requires word_count { automaton.now.labels ^ (letters - 1) < 2 ^ 32 }
    requires places { automaton.now.states * automaton.now.labels ^ (letters - 1) < 2 ^ 32 }
    requires few { automaton.now.states * automaton.now.labels ^ (letters - 1)
        * automaton.now.states + 1 < 2 ^ 32 }
    ensures states { IfOk result (λ d. d.states ≡ automaton.now.states) }
    ensures labels { IfOk result (λ d. d.labels ≡ automaton.now.labels) }
    ensures letters { IfOk result (λ d. d.letters ≡ letters) }
    ensures valid { IfOk result IsRanking }
    ensures few { IfOk result (λ d. length d.triples + 1 < 2 ^ 32) }
    ensures all { IfOk
        result (λ d.
        (b : List ℕ) (p q : ℕ) → IsTripleWord automaton.now.labels letters b
        → p < automaton.now.states → q < automaton.now.states → HoldsTriple d.triples b p q) }
{
    let states = automaton.states();
    let labels = automaton.labels();
    let words = word_count(labels, letters - 1);
    let mut entries = Vec::new(alloc);
    for number in 0..states * words * states {
        let place = number / states;
        entries.push(Entry {
            left: place / words,
            ahead: letters_of(labels, letters - 1, place % words),
            right: number % states,
            rank: None,
        })?;
    }
    Ok(Delayed {
        states,
        labels,
        letters,
        entries,
    })
}

/// One pass: drops each triple with a move that is not answered, and tells whether there were any.
fn drop_unanswered(automaton: &Auto, delayed: &mut Delayed) -> bool
    requires equal { delayed.old.states ≡ automaton.now.states }
    requires same { delayed.old.labels ≡ automaton.now.labels }
    requires valid { IsRanking delayed.old }
    requires each { HasEachTriple automaton.now delayed.old.letters delayed.old.triples }
    ensures thins { Thins delayed.old delayed.new result }
    ensures each { HasEachTriple automaton.now delayed.new.letters delayed.new.triples }
    ensures answered { result ≡ false → AreAllAnswered automaton.now delayed.new.triples }
{
    let mut any = false;
    let mut at = 0;
    'triples: while at < delayed.count() {
        if is_answered_at(automaton, delayed, at, None) {
            at += 1;
        } else {
            delayed.take_out(at);
            any = true;
        }
    }
    any
}

/// Drops triples until each move of those that are left is answered by one of them.
fn settle(automaton: &Auto, delayed: &mut Delayed)
    requires equal { delayed.old.states ≡ automaton.now.states }
    requires same { delayed.old.labels ≡ automaton.now.labels }
    requires valid { IsRanking delayed.old }
    requires each { HasEachTriple automaton.now delayed.old.letters delayed.old.triples }
    ensures shortened { IsShortened delayed.old delayed.new }
    ensures each { HasEachTriple automaton.now delayed.new.letters delayed.new.triples }
    ensures answered { AreAllAnswered automaton.now delayed.new.triples }
{
    'passes: while drop_unanswered(automaton, delayed) {}
}

/// Gives rank 0 to each triple whose right state is accepting, and takes the ranks of the others.
fn rank_accepting(automaton: &Auto, delayed: &mut Delayed)
    requires equal { delayed.old.states ≡ automaton.now.states }
    requires valid { IsRanking delayed.old }
    ensures { IsReranked (GetsRankZero automaton.now) (length delayed.old.triples) delayed.old
        delayed.new }
{
    for at in 0..delayed.count() {
        if automaton.accepting(delayed.right(at)) {
            delayed.set_rank(at, Some(0));
        } else {
            delayed.set_rank(at, None);
        }
    }
}

/// One pass: gives the rank to each triple that has none and whose moves are answered by triples of
/// lesser rank, and tells whether there were any.
fn rank_next(automaton: &Auto, delayed: &mut Delayed, rank: u32) -> bool
    requires equal { delayed.old.states ≡ automaton.now.states }
    requires same { delayed.old.labels ≡ automaton.now.labels }
    requires valid { IsRanking delayed.old }
    ensures ranks { IsReranked (GetsRank automaton.now delayed.old.triples rank)
        (length delayed.old.triples) delayed.old delayed.new }
    ensures some { result ≡ true → unranked delayed.new.triples < unranked delayed.old.triples }
    ensures none { result ≡ false → delayed.new ≡ delayed.old }
{
    let mut any = false;
    for at in 0..delayed.count() {
        if delayed.rank_at(at).is_none() {
            if is_answered_at(automaton, delayed, at, Some(rank)) {
                delayed.set_rank(at, Some(rank));
                any = true;
            }
        }
    }
    any
}

/// Gives each triple the least rank that it can have, level by level, until a pass gives none.
fn rank_all(automaton: &Auto, delayed: &mut Delayed)
    requires equal { delayed.old.states ≡ automaton.now.states }
    requires same { delayed.old.labels ≡ automaton.now.labels }
    requires valid { IsRanking delayed.old }
    requires few { length delayed.old.triples + 1 < 2 ^ 32 }
    requires each { HasEachTriple automaton.now delayed.old.letters delayed.old.triples }
    ensures triples { HasSameTriples delayed.old delayed.new }
    ensures right { AreRanksRight automaton.now delayed.new.triples }
    ensures least { (r : ℕ) → HasRanksUpto automaton.now delayed.new.letters r delayed.new.triples }
{
    rank_accepting(automaton, delayed);
    let mut rank = 1;
    'levels: while rank_next(automaton, delayed, rank) {
        rank += 1;
    }
}

/// Drops each triple without a rank whose left state is accepting, and tells whether there were
/// any.
fn drop_unranked(automaton: &Auto, delayed: &mut Delayed) -> bool
    requires equal { delayed.old.states ≡ automaton.now.states }
    requires valid { IsRanking delayed.old }
    requires each { HasEachTriple automaton.now delayed.old.letters delayed.old.triples }
    requires least { (r : ℕ)
        → HasRanksUpto automaton.now delayed.old.letters r delayed.old.triples }
    ensures thins { Thins delayed.old delayed.new result }
    ensures each { HasEachTriple automaton.now delayed.new.letters delayed.new.triples }
    ensures ranked { result ≡ false → AreAcceptingRanked automaton.now delayed.new.triples }
{
    let mut any = false;
    let mut at = 0;
    'triples: while at < delayed.count() {
        if automaton.accepting(delayed.left(at)) && delayed.rank_at(at).is_none() {
            delayed.take_out(at);
            any = true;
        } else {
            at += 1;
        }
    }
    any
}

/// Drops triples until their moves are answered, ranks them, drops those that need a rank and have
/// none, and tells whether there were any.
fn settle_and_rank(automaton: &Auto, delayed: &mut Delayed) -> bool
    requires equal { delayed.old.states ≡ automaton.now.states }
    requires same { delayed.old.labels ≡ automaton.now.labels }
    requires valid { IsRanking delayed.old }
    requires few { length delayed.old.triples + 1 < 2 ^ 32 }
    requires each { HasEachTriple automaton.now delayed.old.letters delayed.old.triples }
    ensures shortened { IsShortened delayed.old delayed.new }
    ensures some { result ≡ true → length delayed.new.triples < length delayed.old.triples }
    ensures each { HasEachTriple automaton.now delayed.new.letters delayed.new.triples }
    ensures greatest { result ≡ false
        → IsGreatestDelayed automaton.now delayed.new.letters delayed.new.triples }
{
    settle(automaton, delayed);
    rank_all(automaton, delayed);
    drop_unranked(automaton, delayed)
}

/// The same relation as `greatest` by a plain program: passes over all triples until one drops
/// none.
pub fn greatest_by_rounds(alloc: Global, automaton: &Auto, letters: u32) -> Result<Delayed, Memory>
    requires from { 1 ≤ letters }
    requires upto { letters ≤ 4 }
    requires fitting { letters ≡ letters_for automaton.now letters }
    requires few { automaton.now.states ≤ 65535 }
    ensures states { IfOk result (λ d. d.states ≡ automaton.now.states) }
    ensures labels { IfOk result (λ d. d.labels ≡ automaton.now.labels) }
    ensures letters { IfOk result (λ d. d.letters ≡ letters) }
    ensures valid { IfOk result IsRanking }
    ensures greatest { IfOk result (λ d. IsGreatestDelayed automaton.now letters d.triples) }
{
    let _states = automaton.states();
    let mut left = all_triples(alloc, automaton, letters)?;
    'passes: while settle_and_rank(automaton, &mut left) {}
    Ok(left)
}
