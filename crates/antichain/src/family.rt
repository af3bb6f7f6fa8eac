//! The elements that have entered.

ghost use Rattle.std.specs.Prelude.{◌≡◌, ◌^◌, ◌<◌, ℕ, [], length, MatchOption, IfOk, OnOk};
ghost use Rattle.evidence.specs.Tables.{numbers_at};
ghost use Rattle.antichain.specs.Kept.{FitsTogether, IsPrepared, HasEntered, NoneSubsumes, IsFirstSubsumer, held_pair};

use crate::meeting::{drop_subsumed, least_subsumer, still_live};
use crate::parts::Held;
use auto_core::Memory;
use bit_rel::Rel;
use std::alloc::Global;

/// The elements in the order in which they entered, whether each is live, and for each state of the
/// first automaton the numbers of the live elements that have it.
#[derive(Debug, Drop)]
pub(crate) struct Family {
    pub(crate) held: Vec<Held>,
    pub(crate) live: Vec<bool>,
    pub(crate) by_state: Vec<Vec<u32>>,
}

impl Family {
    /// No element, for so many states.
    pub(crate) fn new(alloc: Global, states: u32) -> Result<Family, Memory>
        ensures held { IfOk result (λ f. f.held.items ≡ []) }
        ensures live { IfOk result (λ f. f.live.items ≡ []) }
        ensures table_size { IfOk result (λ f. length f.by_state.items ≡ states) }
        ensures table { IfOk result (λ f. (k : ℕ) → numbers_at f.by_state.items k ≡ []) }
    {
        let mut by_state = Vec::new(alloc);
        for _state in 0..states {
            by_state.push(Vec::new(alloc))?;
        }
        Ok(Family {
            held: Vec::new(alloc),
            live: Vec::new(alloc),
            by_state,
        })
    }

    /// The least live element that subsumes the new one.
    pub(crate) fn least(&self, order: &Rel, new: &Held) -> Option<u32>
        requires state { new.now.state < length self.now.by_state.items }
        requires fits { FitsTogether order.now.size order.now.pairs self.now }
        requires prepared { IsPrepared order.now.size order.now.pairs new.now }
        ensures { let numbers = numbers_at self.now.by_state.items new.now.state in
            MatchOption result (NoneSubsumes order.now.pairs self.now.held.items numbers (held_pair new.now)) (IsFirstSubsumer order.now.pairs self.now.held.items numbers (held_pair new.now)) }
    {
        least_subsumer(order, &self.held, &self.by_state[new.state as usize], new)
    }

    /// The element enters and is live; those that it subsumes are dropped.
    pub(crate) fn enter(&mut self, alloc: Global, order: &Rel, new: Held) -> Result<(), Memory>
        requires state { new.state < length self.old.by_state.items }
        requires fits { FitsTogether order.now.size order.now.pairs self.old }
        requires prepared { IsPrepared order.now.size order.now.pairs new }
        requires few { length self.old.held.items < 2 ^ 32 }
        ensures { OnOk result (HasEntered order.now.pairs new self.old self.new) }
    {
        let place = new.state as usize;
        let number = self.held.len() as u32;
        drop_subsumed(
            order,
            &self.held,
            &self.by_state[place],
            &new,
            &mut self.live,
        );
        let mut kept = still_live(alloc, &self.by_state[place], &self.live)?;
        kept.push(number)?;
        self.by_state[place] = kept;
        self.held.push(new)?;
        self.live.push(true)?;
        Ok(())
    }
}
