//! Automata that keep listed states.

ghost use Rattle.std.specs.Prelude.{◌≡◌, ◌<◌, ◌↔◌, ℕ, Contains, IfOk, IsTrue};
ghost use Rattle.auto_core.specs.Useful.{IsUseful, IsKeptPart};
ghost use Rattle.log_check.specs.Parts.{AreStates};

use auto_core::{Auto, Memory, Mode, StateSet};
use std::alloc::Global;
use useful_states::{keep, useful};

/// The set of the listed states.
fn set_of(alloc: Global, automaton: &Auto, kept: &[u32]) -> Result<StateSet, Memory>
    requires { AreStates automaton.now kept.now }
    ensures states { IfOk result (λ set. set.states ≡ automaton.now.states) }
    ensures members { IfOk result (λ set. (q : ℕ) → Contains set.members q ↔ Contains kept.now q) }
{
    let mut set = StateSet::new(alloc, automaton.states())?;
    for state in kept {
        set.add(*state);
    }
    Ok(set)
}

/// Tells whether the second set has each member of the first.
fn is_within(one: &StateSet, other: &StateSet, states: u32) -> bool
    requires first { one.now.states ≡ states }
    requires second { other.now.states ≡ states }
    ensures { IsTrue result
        ↔ ((q : ℕ) → q < states → Contains one.now.members q → Contains other.now.members q) }
{
    for state in 0..states {
        if one.has(state) && !other.has(state) {
            return false;
        }
    }
    true
}

/// Tells whether each useful state is listed.
pub(crate) fn lists_useful(
    alloc: Global,
    automaton: &Auto,
    mode: Mode,
    kept: &[u32],
) -> Result<bool, Memory>
    requires { AreStates automaton.now kept.now }
    ensures { IfOk
        result (λ told.
        IsTrue told ↔ ((q : ℕ) → IsUseful automaton.now mode q → Contains kept.now q)) }
{
    let set = set_of(alloc, automaton, kept)?;
    let needed = useful(alloc, automaton, mode)?;
    Ok(is_within(&needed, &set, automaton.states()))
}

/// The automaton of the listed states.
pub(crate) fn keep_listed(alloc: Global, automaton: &Auto, kept: &[u32]) -> Result<Auto, Memory>
    requires { AreStates automaton.now kept.now }
    ensures { IfOk result (IsKeptPart automaton.now kept.now) }
{
    let set = set_of(alloc, automaton, kept)?;
    keep(alloc, automaton, &set)
}
