//! States that are gathered by a search: the set of them, and the list in the order in which they
//! came.

ghost use Rattle.std.specs.Prelude.{◌≡◌, ◌<◌, IfOk, OnOk};
ghost use Rattle.useful_states.specs.Gathering.{MovesAlong, IsReachedFrom, ListsMembers, HasGained, HoldsJust};

use crate::direction::Direction;
use auto_core::{Auto, Memory, StateSet};
use std::alloc::Global;

/// The states that were gathered.
#[derive(Drop)]
pub struct Gathered {
    /// The set of them.
    pub set: StateSet,
    /// Each of them once, in the order in which they came.
    pub list: Vec<u32>,
}

impl Gathered {
    /// None of so many states.
    pub fn new(alloc: Global, states: u32) -> Result<Gathered, Memory>
        ensures { IfOk result (HoldsJust states (λ q. ⊥)) }
    {
        Ok(Gathered {
            set: StateSet::new(alloc, states)?,
            list: Vec::new(alloc),
        })
    }

    /// Adds the state, unless it is there.
    pub fn add(&mut self, state: u32) -> Result<(), Memory>
        requires listed { ListsMembers self.old }
        requires state { state < self.old.set.states }
        ensures { OnOk result (HasGained (λ q. q ≡ state) self.old self.new) }
    {
        if self.set.has(state) {
            return Ok(());
        }
        self.list.push(state)?;
        self.set.add(state);
        Ok(())
    }

    /// Adds the states to which the moves from the state lead.
    fn add_targets(&mut self, automaton: &Auto, state: u32) -> Result<(), Memory>
        requires listed { ListsMembers self.old }
        requires states { self.old.set.states ≡ automaton.now.states }
        requires state { state < automaton.now.states }
        ensures { OnOk result
            (HasGained (MovesAlong automaton.now Direction.Forward state) self.old self.new) }
    {
        let span = automaton.outgoing(state);
        for t in span.begin..span.end {
            self.add(automaton.transitions()[t as usize].target)?;
        }
        Ok(())
    }

    /// Adds the states from which moves lead to the state.
    fn add_sources(&mut self, automaton: &Auto, state: u32) -> Result<(), Memory>
        requires listed { ListsMembers self.old }
        requires states { self.old.set.states ≡ automaton.now.states }
        requires state { state < automaton.now.states }
        ensures { OnOk result
            (HasGained (MovesAlong automaton.now Direction.Backward state) self.old self.new) }
    {
        let numbers = automaton.predecessors(state);
        for k in 0..numbers.len() {
            self.add(automaton.transitions()[numbers[k] as usize].source)?;
        }
        Ok(())
    }

    /// Adds the states that one move from the state leads to.
    fn add_next(&mut self, automaton: &Auto, direction: Direction, state: u32) -> Result<(), Memory>
        requires listed { ListsMembers self.old }
        requires states { self.old.set.states ≡ automaton.now.states }
        requires state { state < automaton.now.states }
        ensures { OnOk result
            (HasGained (MovesAlong automaton.now direction state) self.old self.new) }
    {
        match direction {
            Direction::Forward => self.add_targets(automaton, state)?,
            Direction::Backward => self.add_sources(automaton, state)?,
        }
        Ok(())
    }

    /// Adds all states that any number of moves lead to from those that are there.
    pub fn close(&mut self, automaton: &Auto, direction: Direction) -> Result<(), Memory>
        requires listed { ListsMembers self.old }
        requires states { self.old.set.states ≡ automaton.now.states }
        ensures { OnOk result
            (HasGained (IsReachedFrom automaton.now direction self.old.set.members) self.old
            self.new) }
    {
        let mut at = 0;
        while at < self.list.len() {
            let state = self.list.as_slice()[at];
            self.add_next(automaton, direction, state)?;
            at = at + 1;
        }
        Ok(())
    }
}
