//! A search for pairs that are lost. It plays on from one pair: the pair is lost where Spoiler has
//! a path such that each pair to which Duplicator answers it is lost. All other pairs are taken to
//! stay, until the search comes to them.

ghost use Rattle.std.specs.Prelude.{◌≡◌, ◌<◌, ◌≤◌, All, IfOk, vec_len};
ghost use Rattle.bit_rel.specs.Relation.{IsRelation};
ghost use Rattle.look_game.specs.Taking.{TakesAway};

use crate::asked::Pair;
use auto_core::{Auto, Memory};
use bit_rel::Rel;
use look_round::{Move, Scratch, Side, is_reply, round_holds};
use std::alloc::Global;

/// At most one round is played for so many pairs of states.
const PAIRS_A_ROUND: usize = 1024;

/// So many rounds are played on from a pair.
const MOST_DEPTH: u32 = 8;

/// A path that Duplicator answers in more states is not followed.
const MOST_REPLIES: usize = 16;

/// At most so many pairs that were tried in vain are remembered.
const MOST_TRIED: usize = 16384;

/// A pair that was tried in vain, and how many rounds deep.
#[derive(Clone, Copy, Debug)]
struct Tried {
    pair: Pair,
    depth: u32,
}

/// A game that is played on from a relation, to find pairs of it that are lost.
#[derive(Drop)]
struct Play<'a, S: Side> {
    alloc: Global,
    side: &'a S,
    automaton: &'a Auto,
    look: u32,
    /// The pairs that are not known to be lost.
    rel: Rel,
    scratch: Scratch,
    /// What was tried in vain, each pair at its place.
    tried: Vec<Tried>,
    /// So many rounds are left to be played.
    rounds: usize,
    ghost look_from: { 1 ≤ look },
    ghost look_upto: { look ≤ 6 },
    ghost size: { rel.size ≡ automaton.now.states },
    ghost room_states: { scratch.states ≡ automaton.now.states },
    ghost room_look: { scratch.look ≡ look },
    ghost places: { 1 ≤ vec_len tried },
}

impl<'a, S: Side> Play<'a, S> {
    ghost use Rattle.look_game.specs.Playing.{PlaysOn};

    /// The game before its first round, where all pairs of the relation are taken to stay.
    fn new(
        alloc: Global,
        side: &'a S,
        automaton: &'a Auto,
        look: u32,
        rel: Rel,
    ) -> Result<Self, Memory>
        requires look_from { 1 ≤ look }
        requires look_upto { look ≤ 6 }
        requires size { rel.size ≡ automaton.now.states }
        ensures side { IfOk result (λ play. play.side.now ≡ side.now) }
        ensures automaton { IfOk result (λ play. play.automaton.now ≡ automaton.now) }
        ensures look { IfOk result (λ play. play.look ≡ look) }
        ensures rel { IfOk result (λ play. play.rel ≡ rel) }
        ensures valid { IfOk result (λ play. IsRelation play.rel) }
    {
        let scratch = Scratch::new(alloc, automaton, look)?;
        let nothing = Tried {
            pair: Pair { left: 0, right: 0 },
            depth: 0,
        };
        let states = rel.size() as usize;
        let rounds = states * states / PAIRS_A_ROUND;
        let tried = vec![in alloc; nothing; rounds.min(MOST_TRIED - 1) + 1]?;
        Ok(Play {
            alloc,
            side,
            automaton,
            look,
            rel,
            scratch,
            tried,
            rounds,
        })
    }

    /// Where a pair that was tried is remembered, until another comes there.
    fn place_of(&self, pair: Pair) -> usize
        ensures { result < vec_len self.now.tried }
    {
        (pair.left as usize * 31 + pair.right as usize) % self.tried.len()
    }

    /// Tells whether the pair is remembered as one that was tried at least so deep.
    fn was_tried(&self, pair: Pair, depth: u32) -> bool {
        let last = self.tried[self.place_of(pair)];
        last.pair.left == pair.left && last.pair.right == pair.right && depth <= last.depth
    }

    /// Adds the states in which Duplicator at `q` answers the step, as far as they are few.
    fn add_replies(&self, step: Move, q: u32, replies: &mut Vec<u32>) -> Result<(), Memory>
        requires step { step.to < self.now.automaton.now.states }
        requires state { q < self.now.automaton.now.states }
        requires replies { All (λ r. r < self.now.automaton.now.states) replies.old.items }
        ensures { IfOk
            result (λ _. All (λ r. r < self.now.automaton.now.states) replies.new.items) }
    {
        for at in 0..self.side.moves(self.automaton, q) {
            let reply = self.side.nth(self.automaton, q, at);
            if is_reply(self.side, self.automaton, step, reply)
                && replies.len() <= MOST_REPLIES
                && !replies.contains(&reply.to)
            {
                replies.push(reply.to)?;
            }
        }
        Ok(())
    }

    /// The states in which Duplicator, who is in one of these, answers the step, as far as they are
    /// few.
    fn replies_to(&self, step: Move, from: &[u32]) -> Result<Vec<u32>, Memory>
        requires step { step.to < self.now.automaton.now.states }
        requires from { All (λ q. q < self.now.automaton.now.states) from.now }
        ensures { IfOk result (λ v. All (λ r. r < self.now.automaton.now.states) v.items) }
    {
        let mut replies = Vec::new(self.alloc);
        for q in from {
            self.add_replies(step, *q, &mut replies)?;
        }
        Ok(replies)
    }

    /// Takes the pair away, if it does not have its round.
    fn try_pair(&mut self, pair: Pair)
        requires left { pair.left < self.old.automaton.now.states }
        requires right { pair.right < self.old.automaton.now.states }
        ensures { PlaysOn self.old self.new }
    {
        if self.rel.get(pair.left, pair.right) {
            if !round_holds(
                self.side,
                self.automaton,
                &self.rel,
                self.look,
                pair.left,
                pair.right,
                &mut self.scratch,
            ) {
                self.rel.clear(pair.left, pair.right);
            }
        }
    }

    /// Tells whether all pairs of Spoiler's state `p` with one of these are lost, where each is
    /// tried so deep.
    #[cycle(losing)]
    fn all_lose(&mut self, depth: u32, p: u32, replies: &[u32]) -> Result<bool, Memory>
        requires state { p < self.old.automaton.now.states }
        requires replies { All (λ r. r < self.old.automaton.now.states) replies.now }
        ensures { IfOk result (λ _. PlaysOn self.old self.new) }
    {
        for i in 0..replies.len() {
            let pair = Pair {
                left: p,
                right: replies[i],
            };
            if !self.loses(depth, pair)? {
                return Ok(false);
            }
        }
        Ok(true)
    }

    /// Tells whether Spoiler wins by this move, or by it and some after it, `left` in all, where
    /// Duplicator is in one of these states and each pair is tried so deep.
    #[cycle(losing)]
    fn move_wins(&mut self, depth: u32, left: u32, step: Move, from: &[u32]) -> Result<bool, Memory>
        requires left { 1 ≤ left }
        requires step { step.to < self.old.automaton.now.states }
        requires from { All (λ q. q < self.old.automaton.now.states) from.now }
        ensures { IfOk result (λ _. PlaysOn self.old self.new) }
    {
        let replies = self.replies_to(step, from)?;
        if replies.len() > MOST_REPLIES {
            return Ok(false);
        }
        if !self.all_lose(depth, step.to, &replies)? {
            return Ok(false);
        }
        if replies.is_empty() || left == 1 || self.side.moves(self.automaton, step.to) == 0 {
            return Ok(true);
        }
        self.path_wins(depth, left - 1, step.to, &replies)
    }

    /// Tells whether Spoiler wins by some moves from `p`, at most `left`, where Duplicator is in
    /// one of these states and each pair is tried so deep.
    #[cycle(losing)]
    fn path_wins(&mut self, depth: u32, left: u32, p: u32, from: &[u32]) -> Result<bool, Memory>
        requires left { 1 ≤ left }
        requires state { p < self.old.automaton.now.states }
        requires from { All (λ q. q < self.old.automaton.now.states) from.now }
        ensures { IfOk result (λ _. PlaysOn self.old self.new) }
    {
        for at in 0..self.side.moves(self.automaton, p) {
            let step = self.side.nth(self.automaton, p, at);
            if self.move_wins(depth, left, step, from)? {
                return Ok(true);
            }
        }
        Ok(false)
    }

    /// Tells whether the pair is lost. If it is not known to be, it is tried: so many rounds are
    /// played on from it, as long as there are some left in all, and what is lost by that is taken
    /// away.
    #[cycle(losing)]
    fn loses(&mut self, depth: u32, pair: Pair) -> Result<bool, Memory>
        requires left { pair.left < self.old.automaton.now.states }
        requires right { pair.right < self.old.automaton.now.states }
        ensures { IfOk result (λ _. PlaysOn self.old self.new) }
    {
        if !self.rel.get(pair.left, pair.right) {
            return Ok(true);
        }
        if depth == 0 || self.rounds == 0 || self.was_tried(pair, depth) {
            return Ok(false);
        }
        self.rounds -= 1;
        let mut from = Vec::new(self.alloc);
        from.push(pair.right)?;
        if self.path_wins(depth - 1, self.look, pair.left, &from)? {
            self.try_pair(pair);
        } else {
            let place = self.place_of(pair);
            self.tried[place] = Tried { pair, depth };
        }
        Ok(!self.rel.get(pair.left, pair.right))
    }

    /// Plays more and more rounds on from the pair, until it is lost or as many are played as may
    /// be.
    fn deepen(&mut self, pair: Pair) -> Result<(), Memory>
        requires left { pair.left < self.old.automaton.now.states }
        requires right { pair.right < self.old.automaton.now.states }
        ensures { IfOk result (λ _. PlaysOn self.old self.new) }
    {
        for depth in 1..=MOST_DEPTH {
            if self.loses(depth, pair)? {
                return Ok(());
            }
        }
        Ok(())
    }
}

/// What is left of the relation where the game is played on from the pair, and what is lost by that
/// is taken away.
pub fn played_on<S: Side>(
    alloc: Global,
    side: &S,
    automaton: &Auto,
    look: u32,
    pair: Pair,
    rel: Rel,
) -> Result<Rel, Memory>
    requires look_from { 1 ≤ look }
    requires look_upto { look ≤ 6 }
    requires left { pair.left < automaton.now.states }
    requires right { pair.right < automaton.now.states }
    requires size { rel.size ≡ automaton.now.states }
    ensures { IfOk result
        (TakesAway (S.goes side.now automaton.now) (S.matches side.now automaton.now) look rel) }
{
    let mut play = Play::new(alloc, side, automaton, look, rel)?;
    play.deepen(pair)?;
    Ok(play.rel)
}
