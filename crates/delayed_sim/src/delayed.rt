//! A relation of triples some of which have a rank.

ghost use Rattle.std.specs.Prelude.{◌≡◌, ◌<◌, ◌≤◌, ◌↔◌, ℕ, length, IsTrue, None, IfOk, IfSome, IfNone};
ghost use Rattle.std.specs.Cmp.Lexicographic.{slice_cmp};
ghost use Rattle.std.specs.Ordering.{nat_cmp};
ghost use Rattle.std.specs.declared.cmp.Ordering.TheVariants.{Less};
ghost use Rattle.auto_core.specs.Game.{Holds};
ghost use Rattle.auto_core.specs.Delayed.{IsTripleWord, HoldsTriple, HasRank, AreStateRelated};
ghost use Rattle.delayed_sim.specs.Rounds.{without, reranked};
ghost use Rattle.delayed_sim.specs.Rankings.{IsRanking, AreTriplesGiven, DifferInTriples, HasJust, IsTripleFrom, row_key, triple_at};

use crate::entries::{self, Entry};
use crate::relating;
use auto_core::{Memory, Word};
use bit_rel::Rel;
use std::alloc::Global;
use std::marker::Model;

/// A triple of a left state, a word and a right state, with a rank or without one.
#[derive(Debug, Drop)]
pub struct RankedTriple {
    /// The left state.
    pub left: u32,
    /// The word: one letter fewer than are announced.
    pub ahead: Word,
    /// The right state.
    pub right: u32,
    /// The rank, if the triple has one.
    pub rank: Option<u32>,
}

/// A relation of triples some of which have a rank. Contracts see it as a `Ranking`: the numbers of
/// states, labels and announced letters, and the list of the triples with their ranks, in order. It
/// holds the listed triples alone.
#[derive(Debug, Drop)]
pub struct Delayed {
    pub(crate) states: u32,
    pub(crate) labels: u32,
    pub(crate) letters: u32,
    pub(crate) entries: Vec<Entry>,
}

impl Model for Delayed {
    ghost use Rattle.delayed_sim.specs.Rankings.{Ranking};

    ghost Value = { Ranking };

    ghost use Rattle.delayed_sim.specs.Stored.{ranking_of, IsStoredRanking};

    ghost view = { ranking_of };

    ghost invariant = { IsStoredRanking };
}

impl Delayed {
    /// The relation of just these triples and ranks.
    pub fn build(
        alloc: Global,
        states: u32,
        labels: u32,
        letters: u32,
        triples: &[RankedTriple],
    ) -> Result<Delayed, Memory>
        requires from { 1 ≤ letters }
        requires upto { letters ≤ 4 }
        requires in_range { AreTriplesGiven states labels letters triples.now }
        requires different { DifferInTriples triples.now }
        ensures states { IfOk result (λ d. d.states ≡ states) }
        ensures labels { IfOk result (λ d. d.labels ≡ labels) }
        ensures letters { IfOk result (λ d. d.letters ≡ letters) }
        ensures triples { IfOk result (λ d. HasJust d.triples triples.now) }
    {
        let mut held = Vec::with_capacity(alloc, triples.len())?;
        for i in 0..triples.len() {
            let triple = &triples[i];
            entries::put_in(
                &mut held,
                letters,
                Entry {
                    left: triple.left,
                    ahead: entries::padded(triple.ahead.as_slice()),
                    right: triple.right,
                    rank: triple.rank,
                },
            )?;
        }
        Ok(Delayed {
            states,
            labels,
            letters,
            entries: held,
        })
    }

    /// The number of states.
    pub fn states(&self) -> u32
        ensures count { result ≡ self.now.states }
        ensures valid { IsRanking self.now }
    {
        self.states
    }

    /// The number of labels.
    pub fn labels(&self) -> u32
        ensures count { result ≡ self.now.labels }
        ensures valid { IsRanking self.now }
    {
        self.labels
    }

    /// The number of announced letters.
    pub fn letters(&self) -> u32
        ensures count { result ≡ self.now.letters }
        ensures valid { IsRanking self.now }
    {
        self.letters
    }

    /// Tells whether the relation holds the triple.
    pub fn relates(&self, p: u32, ahead: &[u32], q: u32) -> bool
        requires letters { IsTripleWord self.now.labels self.now.letters ahead.now }
        requires left { p < self.now.states }
        requires right { q < self.now.states }
        ensures told { IsTrue result ↔ HoldsTriple self.now.triples ahead.now p q }
        ensures valid { IsRanking self.now }
    {
        match entries::find(&self.entries, self.letters, p, ahead, q) {
            Some(_at) => true,
            None => false,
        }
    }

    /// The rank of the triple; None where the triple is not held or has no rank.
    pub fn rank(&self, p: u32, ahead: &[u32], q: u32) -> Option<u32>
        requires letters { IsTripleWord self.now.labels self.now.letters ahead.now }
        requires left { p < self.now.states }
        requires right { q < self.now.states }
        ensures some { IfSome result (HasRank self.now.triples ahead.now p q) }
        ensures none { IfNone result ((r : ℕ) → HasRank self.now.triples ahead.now p q r → ⊥) }
        ensures valid { IsRanking self.now }
    {
        match entries::find(&self.entries, self.letters, p, ahead, q) {
            Some(at) => self.entries[at].rank,
            None => None,
        }
    }

    /// The state relation: the pairs of states whose triple with each word is held.
    pub fn relation(&self, alloc: Global) -> Result<Rel, Memory>
        ensures size { IfOk result (λ r. r.size ≡ self.now.states) }
        ensures pairs { IfOk result (λ r. (p q : ℕ) → Holds r.pairs p q
            ↔ ((p < self.now.states) × (q < self.now.states) × AreStateRelated self.now.labels self.now.letters self.now.triples p q)) }
    {
        relating::relation_of(alloc, self)
    }

    /// The number of triples.
    pub fn count(&self) -> usize
        ensures count { result ≡ length self.now.triples }
        ensures valid { IsRanking self.now }
    {
        self.entries.len()
    }

    /// The left state of the triple with this number.
    pub fn left(&self, at: usize) -> u32
        requires { at < length self.now.triples }
        ensures state { result ≡ (triple_at self.now.triples at).0 }
        ensures valid { IsRanking self.now }
    {
        self.entries[at].left
    }

    /// The word of the triple with this number: one letter fewer than are announced.
    pub fn ahead(&self, at: usize) -> &[u32]
        requires { at < length self.now.triples }
        ensures letters { result.now ≡ (triple_at self.now.triples at).1 }
        ensures valid { IsRanking self.now }
    {
        entries::ahead_of(&self.entries[at], self.letters)
    }

    /// The right state of the triple with this number.
    pub fn right(&self, at: usize) -> u32
        requires { at < length self.now.triples }
        ensures state { result ≡ (triple_at self.now.triples at).2 }
        ensures valid { IsRanking self.now }
    {
        self.entries[at].right
    }

    /// The rank of the triple with this number, if it has one.
    pub fn rank_at(&self, at: usize) -> Option<u32>
        requires { at < length self.now.triples }
        ensures rank { result ≡ (triple_at self.now.triples at).3 }
        ensures valid { IsRanking self.now }
    {
        self.entries[at].rank
    }

    /// The number of the first triple that does not stand before this one.
    pub(crate) fn first_from(&self, p: u32, ahead: &[u32], q: u32) -> usize
        ensures { IsTripleFrom self.now.triples (p, ahead.now, q, None) result }
    {
        entries::first_from(&self.entries, self.letters, p, ahead, q)
    }

    /// Takes the triple with this number out.
    pub(crate) fn take_out(&mut self, at: usize)
        requires { at < length self.old.triples }
        ensures left { self.new ≡ without self.old at }
        ensures valid { IsRanking self.new }
    {
        self.entries.remove(at);
    }

    /// Gives the triple with this number the rank, or takes the one that it has.
    pub(crate) fn set_rank(&mut self, at: usize, rank: Option<u32>)
        requires { at < length self.old.triples }
        ensures ranked { self.new ≡ reranked self.old at rank }
        ensures valid { IsRanking self.new }
    {
        let mut entry = self.entries[at];
        entry.rank = rank;
        self.entries[at] = entry;
    }

    /// The number past the last triple with the left state and the word of the triple with this
    /// number.
    pub fn row_end(&self, at: usize) -> usize
        requires { at < length self.now.triples }
        ensures onward { at < result }
        ensures within { result ≤ length self.now.triples }
        ensures same { (i : ℕ) → at ≤ i → i < result
            → row_key (triple_at self.now.triples i) ≡ row_key (triple_at self.now.triples at) }
        ensures next { result < length self.now.triples
            → slice_cmp nat_cmp (row_key (triple_at self.now.triples at))
            (row_key (triple_at self.now.triples result)) ≡ Less }
        ensures valid { IsRanking self.now }
    {
        entries::row_end(&self.entries, self.letters, at)
    }
}
