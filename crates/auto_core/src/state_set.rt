//! Sets of states.

ghost use Rattle.std.specs.Prelude.{◌≡◌, ◌<◌, ◌↔◌, ◌==◌, [], Contains, IsTrue, IfOk};
ghost use Rattle.std.specs.List.{list_any};
ghost use Rattle.auto_core.specs.Members.{IsSet, Gains};

use crate::parts::Memory;
use std::alloc::Global;
use std::marker::Model;

/// A set of the states below a number. Contracts see it as `Members`: that number and the list of
/// the members, ascending.
#[derive(Debug, Drop)]
pub struct StateSet {
    states: u32,
    flags: Vec<bool>,
}

impl Model for StateSet {
    ghost use Rattle.auto_core.specs.Members.{Members};

    ghost Value = { Members };

    ghost use Rattle.auto_core.specs.MembersStored.{members_of, HasFlags};

    ghost view = { members_of };

    ghost invariant = { HasFlags };
}

impl StateSet {
    /// The set of so many states that has no member.
    pub fn new(alloc: Global, states: u32) -> Result<StateSet, Memory>
        ensures { IfOk result (λ s. s ≡ record { states = states; members = [] }) }
    {
        let flags = vec![in alloc; false; states as usize]?;
        Ok(StateSet { states, flags })
    }

    /// Tells whether the state is a member.
    pub fn has(&self, state: u32) -> bool
        requires { state < self.now.states }
        ensures told { IsTrue result ↔ Contains self.now.members state }
        ensures test { result ≡ list_any (λ x. x == state) self.now.members }
        ensures valid { IsSet self.now }
    {
        self.flags[state as usize]
    }

    /// Makes the state a member, and changes nothing else.
    pub fn add(&mut self, state: u32)
        requires { state < self.old.states }
        ensures members { Gains self.old self.new state }
        ensures valid { IsSet self.new }
    {
        self.flags[state as usize] = true;
    }
}
