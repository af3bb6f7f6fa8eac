//! The side of a game across two automata that stand side by side in one.

ghost use Rattle.std.specs.Prelude.{◌≡◌, ◌<◌, ◌↔◌, length, slice_index_or, IsTrue};
ghost use Rattle.auto_core.specs.Automaton.{Moves};
ghost use Rattle.look_round.specs.Sides.{move, forward_moves, backward_moves};
ghost use Rattle.look_round.specs.SideLaws.{forward_lists, forward_stays, forward_sees, backward_lists};
ghost use Rattle.cross_sim.specs.Sides.{MatchesAcross, across_joins};

use auto_core::{Auto, Trans};
use look_round::{Forward, Move, Side};

/// The side where Spoiler moves in the first automaton: moves go from source to target, states of
/// the first alone are matched by any, and an accepting state asks for an accepting one. Where
/// Duplicator begins in the second automaton he stays there. States of the first match each other
/// too: so the short words of one tell which states of the second can be above it.
#[derive(Clone, Copy, Debug)]
pub struct Across {
    /// The number of the first automaton's states; the second's follow them.
    pub first_states: u32,
}

impl Side for Across {
    ghost list = { λ _ A p. forward_moves A p };

    ghost goes = { λ _ A. Moves A };

    ghost matches = { λ s A. MatchesAcross s.first_states A };

    ghost seen = { λ _ t. t };

    ghost arriving = { λ _ A p. backward_moves A p };

    ghost stays = { λ _ A valid p a q m. forward_stays A valid p a q m };

    ghost lists = { λ _ A p a q. forward_lists A p a q };

    ghost sees = { λ _ A p a q. forward_sees A p a q };

    ghost arrives = { λ _ A p a q. backward_lists A q a p };

    ghost joins = { λ s A p q r. across_joins s.first_states A p q r };

    fn moves(&self, automaton: &Auto, state: u32) -> u32 {
        Forward.moves(automaton, state)
    }

    fn nth(&self, automaton: &Auto, state: u32, at: u32) -> Move {
        Forward.nth(automaton, state, at)
    }

    fn seen_at(&self, automaton: &Auto, number: usize) -> Trans {
        Forward.seen_at(automaton, number)
    }

    fn arrivals(&self, automaton: &Auto, state: u32) -> u32 {
        Forward.arrivals(automaton, state)
    }

    fn nth_arrival(&self, automaton: &Auto, state: u32, at: u32) -> Move {
        Forward.nth_arrival(automaton, state, at)
    }

    fn matched(&self, automaton: &Auto, p: u32, q: u32) -> bool {
        if p >= self.first_states {
            return false;
        }
        Forward.matched(automaton, p, q)
    }
}
