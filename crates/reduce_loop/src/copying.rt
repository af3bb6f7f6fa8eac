//! Copies of automata, and whether two are the same.

ghost use Rattle.std.specs.Prelude.{◌≡◌, ◌<◌, ◌↔◌, ℕ, IsTrue, IfOk};
ghost use Rattle.auto_core.specs.Automaton.{IsAutomaton, is_accepting};

use auto_core::{Auto, Memory, Trans, of_parts};
use prune_pairs::accepting_states;
use std::alloc::Global;

/// The same automaton once more.
pub(crate) fn copied(alloc: Global, automaton: &Auto) -> Result<Auto, Memory>
    ensures same { IfOk result (λ made. made ≡ automaton.now) }
    ensures valid { IfOk result (λ _. IsAutomaton automaton.now) }
{
    let accepting = accepting_states(alloc, automaton)?;
    of_parts(
        alloc,
        automaton.states(),
        automaton.labels(),
        automaton.initial(),
        automaton.transitions(),
        &accepting,
    )
}

/// Tells whether the first has just the transitions of the second.
fn has_moves(one: &[Trans], other: &[Trans]) -> bool
    ensures { IsTrue result ↔ one.now ≡ other.now }
{
    one == other
}

/// Tells whether the same states are accepting in both.
fn has_accepting(one: &Auto, other: &Auto) -> bool
    requires { one.now.states ≡ other.now.states }
    ensures { IsTrue result
        ↔ ((q : ℕ) → q < one.now.states → is_accepting one.now q ≡ is_accepting other.now q) }
{
    for state in 0..one.states() {
        if one.accepting(state) != other.accepting(state) {
            return false;
        }
    }
    true
}

/// Tells whether both are the same automaton.
pub fn is_same_automaton(one: &Auto, other: &Auto) -> bool
    ensures { IsTrue result ↔ one.now ≡ other.now }
{
    if one.states() != other.states() {
        return false;
    }
    if one.labels() != other.labels() {
        return false;
    }
    if one.initial() != other.initial() {
        return false;
    }
    if !has_moves(one.transitions(), other.transitions()) {
        return false;
    }
    has_accepting(one, other)
}
