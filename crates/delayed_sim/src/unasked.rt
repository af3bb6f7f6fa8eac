//! The side from which delayed simulation moves: no state asks anything of another at once.

ghost use Rattle.auto_core.specs.Automaton.{Moves};
ghost use Rattle.look_round.specs.Sides.{forward_moves, backward_moves};
ghost use Rattle.look_round.specs.SideLaws.{forward_lists, forward_stays, forward_sees, backward_lists};
ghost use Rattle.delayed_sim.specs.Unasked.{AsksNothing};

use auto_core::{Auto, Trans};
use look_round::{Forward, Move, Side};

/// The side of the transitions as they are, where each state matches each.
#[derive(Clone, Copy, Debug)]
pub(crate) struct Unasked;

impl Side for Unasked {
    ghost list = { λ _ A p. forward_moves A p };

    ghost goes = { λ _ A. Moves A };

    ghost matches = { λ _ _. AsksNothing };

    ghost seen = { λ _ t. t };

    ghost arriving = { λ _ A p. backward_moves A p };

    ghost stays = { λ _ A valid p a q m. forward_stays A valid p a q m };

    ghost lists = { λ _ A p a q. forward_lists A p a q };

    ghost sees = { λ _ A p a q. forward_sees A p a q };

    ghost arrives = { λ _ A p a q. backward_lists A q a p };

    ghost joins = { λ _ _ p q r _ _. tt };

    fn moves(&self, automaton: &Auto, state: u32) -> u32 {
        Forward.moves(automaton, state)
    }

    fn nth(&self, automaton: &Auto, state: u32, at: u32) -> Move {
        Forward.nth(automaton, state, at)
    }

    fn seen_at(&self, automaton: &Auto, number: usize) -> Trans {
        Forward.seen_at(automaton, number)
    }

    fn arrivals(&self, automaton: &Auto, state: u32) -> u32 {
        Forward.arrivals(automaton, state)
    }

    fn nth_arrival(&self, automaton: &Auto, state: u32, at: u32) -> Move {
        Forward.nth_arrival(automaton, state, at)
    }

    fn matched(&self, _automaton: &Auto, _p: u32, _q: u32) -> bool {
        true
    }
}
