//! The sides from which the game is played: which moves a state has, and what one state asks of
//! another.

ghost use Rattle.std.specs.Prelude.{◌≡◌, ◌<◌, ◌↔◌, ℕ, List, length, Contains, slice_index_or, IsTrue};
ghost use Rattle.auto_core.specs.Automaton.{Automaton, IsAutomaton, Moves, trans, trans_at};
ghost use Rattle.auto_core.specs.Game.{BackwardMoves, MatchesForward, MatchesBackward};
ghost use Rattle.auto_core.specs.declared.parts.Trans.{Trans};
ghost use Rattle.look_round.specs.declared.moves.Move.{Move};
ghost use Rattle.look_round.specs.Sides.{move, forward_moves, backward_moves, turned_trans};
ghost use Rattle.auto_laws.proofs.MatchLemmas.{forward_trans, backward_trans};
ghost use Rattle.look_round.specs.SideLaws.{forward_lists, forward_stays, forward_sees, backward_lists, backward_stays, backward_sees};

use crate::moves::Move;
use auto_core::{Auto, Trans};

/// A side of the game.
pub trait Side {
    /// The moves of a state, each with its letter and the state that it leads to.
    ghost list: { Self → Automaton → ℕ → List Move };

    /// A move by the letter leads from the first state to the second.
    ghost goes: { Self → Automaton → ℕ → ℕ → ℕ → Type 0 };

    /// The second state has what the first asks of it.
    ghost matches: { Self → Automaton → ℕ → ℕ → Type 0 };

    /// A transition as a move of this side, with the state that the move leaves as the source.
    ghost seen: { Self → Trans → Trans };

    /// The moves that lead to a state, each with the state that it leaves in place of the one that
    /// it leads to.
    ghost arriving: { Self → Automaton → ℕ → List Move };

    /// The number of the state's moves.
    fn moves(&self, automaton: &Auto, state: u32) -> u32
        requires { state < automaton.now.states }
        ensures { result ≡ length (list self.now automaton.now state) };

    /// The state's move at this place.
    fn nth(&self, automaton: &Auto, state: u32, at: u32) -> Move
        requires state { state < automaton.now.states }
        requires place { at < length (list self.now automaton.now state) }
        ensures item { result ≡ slice_index_or (list self.now automaton.now state) at (move 0 0) }
        ensures in_range { result.to < automaton.now.states };

    /// The automaton's transition with this number as a move of this side, with the state that it
    /// leaves as the source.
    fn seen_at(&self, automaton: &Auto, number: usize) -> Trans
        requires { number < length automaton.now.transitions }
        ensures seen { result ≡ seen self.now (trans_at automaton.now number) }
        ensures source { result.source < automaton.now.states }
        ensures target { result.target < automaton.now.states };

    /// The number of the moves that lead to the state.
    fn arrivals(&self, automaton: &Auto, state: u32) -> u32
        requires { state < automaton.now.states }
        ensures { result ≡ length (arriving self.now automaton.now state) };

    /// The move at this place among those that lead to the state, with the state that it leaves in
    /// place of the one that it leads to.
    fn nth_arrival(&self, automaton: &Auto, state: u32, at: u32) -> Move
        requires state { state < automaton.now.states }
        requires place { at < length (arriving self.now automaton.now state) }
        ensures item { result
            ≡ slice_index_or (arriving self.now automaton.now state) at (move 0 0) }
        ensures in_range { result.to < automaton.now.states };

    /// Tells whether `q` has what Spoiler's `p` asks of it.
    fn matched(&self, automaton: &Auto, p: u32, q: u32) -> bool
        requires left { p < automaton.now.states }
        requires right { q < automaton.now.states }
        ensures { IsTrue result ↔ matches self.now automaton.now p q };

    /// A move leads to a state of the automaton.
    ghost stays: { (s : Self) (A : Automaton) → IsAutomaton A → (p a q : ℕ) → goes s A p a q
        → q < A.states };

    /// The list of a state has its moves.
    ghost lists: { (s : Self) (A : Automaton) (p a q : ℕ)
        → Contains (list s A p) (move a q) ↔ goes s A p a q };

    /// The moves are the transitions, seen from this side.
    ghost sees: { (s : Self) (A : Automaton) (p a q : ℕ)
        → goes s A p a q ↔ ((t : Trans) × Contains A.transitions t × (seen s t ≡ trans p a q)) };

    /// The list of what leads to a state has the moves to it.
    ghost arrives: { (s : Self) (A : Automaton) (p a q : ℕ)
        → Contains (arriving s A q) (move a p) ↔ goes s A p a q };

    /// What matches is transitive.
    ghost joins: { (s : Self) (A : Automaton) (p q r : ℕ) → matches s A p q → matches s A q r
        → matches s A p r };
}

/// Tells whether `q` is accepting if `p` is.
fn accepting_if(automaton: &Auto, p: u32, q: u32) -> bool
    requires left { p < automaton.now.states }
    requires right { q < automaton.now.states }
    ensures { IsTrue result ↔ MatchesForward automaton.now automaton.now p q }
{
    if automaton.accepting(p) {
        automaton.accepting(q)
    } else {
        true
    }
}

/// The side of the transitions as they are: moves go from source to target, and an accepting state
/// asks for an accepting one.
#[derive(Clone, Copy, Debug)]
pub struct Forward;

impl Side for Forward {
    ghost list = { λ _ A p. forward_moves A p };

    ghost goes = { λ _ A. Moves A };

    ghost matches = { λ _ A. MatchesForward A A };

    ghost seen = { λ _ t. t };

    ghost arriving = { λ _ A p. backward_moves A p };

    ghost stays = { λ _ A valid p a q m. forward_stays A valid p a q m };

    ghost lists = { λ _ A p a q. forward_lists A p a q };

    ghost sees = { λ _ A p a q. forward_sees A p a q };

    ghost arrives = { λ _ A p a q. backward_lists A q a p };

    ghost joins = { λ _ A p q r. forward_trans A A A p q r };

    fn moves(&self, automaton: &Auto, state: u32) -> u32 {
        let out = automaton.outgoing(state);
        out.end - out.begin
    }

    fn nth(&self, automaton: &Auto, state: u32, at: u32) -> Move {
        let t = automaton.transitions()[(automaton.outgoing(state).begin + at) as usize];
        Move {
            label: t.label,
            to: t.target,
        }
    }

    fn seen_at(&self, automaton: &Auto, number: usize) -> Trans {
        automaton.transitions()[number]
    }

    fn arrivals(&self, automaton: &Auto, state: u32) -> u32 {
        Backward.moves(automaton, state)
    }

    fn nth_arrival(&self, automaton: &Auto, state: u32, at: u32) -> Move {
        Backward.nth(automaton, state, at)
    }

    fn matched(&self, automaton: &Auto, p: u32, q: u32) -> bool {
        accepting_if(automaton, p, q)
    }
}

/// The side of the transitions turned round: moves go from target to source, and an initial state
/// asks for an initial one besides.
#[derive(Clone, Copy, Debug)]
pub struct Backward;

impl Side for Backward {
    ghost list = { λ _ A p. backward_moves A p };

    ghost goes = { λ _ A. BackwardMoves A };

    ghost matches = { λ _ A. MatchesBackward A A };

    ghost seen = { λ _ t. turned_trans t };

    ghost arriving = { λ _ A p. forward_moves A p };

    ghost stays = { λ _ A valid p a q m. backward_stays A valid p a q m };

    ghost lists = { λ _ A p a q. backward_lists A p a q };

    ghost sees = { λ _ A p a q. backward_sees A p a q };

    ghost arrives = { λ _ A p a q. forward_lists A q a p };

    ghost joins = { λ _ A p q r. backward_trans A A A p q r };

    fn moves(&self, automaton: &Auto, state: u32) -> u32 {
        automaton.predecessors(state).len() as u32
    }

    fn nth(&self, automaton: &Auto, state: u32, at: u32) -> Move {
        let number = automaton.predecessors(state)[at as usize];
        let t = automaton.transitions()[number as usize];
        Move {
            label: t.label,
            to: t.source,
        }
    }

    fn seen_at(&self, automaton: &Auto, number: usize) -> Trans {
        let step = automaton.transitions()[number];
        Trans {
            source: step.target,
            label: step.label,
            target: step.source,
        }
    }

    fn arrivals(&self, automaton: &Auto, state: u32) -> u32 {
        Forward.moves(automaton, state)
    }

    fn nth_arrival(&self, automaton: &Auto, state: u32, at: u32) -> Move {
        Forward.nth(automaton, state, at)
    }

    fn matched(&self, automaton: &Auto, p: u32, q: u32) -> bool {
        if p == automaton.initial() && q != automaton.initial() {
            return false;
        }
        accepting_if(automaton, p, q)
    }
}
