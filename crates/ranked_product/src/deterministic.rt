//! Deterministic automata.

ghost use Rattle.std.specs.Prelude.{◌≡◌, ◌<◌, ◌↔◌, IsTrue, IfSome, IfNone};
ghost use Rattle.auto_core.specs.Automaton.{Moves};
ghost use Rattle.product_laws.specs.Ranked.{IsDeterministic};
ghost use Rattle.product_laws.specs.Reached.{HasNoMove};
ghost use Rattle.ranked_product.specs.Alike.{AreAlike};

use auto_core::{Auto, Trans};

/// Tells whether both transitions leave one state by one letter.
fn leave_alike(step: Trans, other: Trans) -> bool
    ensures { IsTrue result ↔ AreAlike step other }
{
    step.source == other.source && step.label == other.label
}

/// Tells whether the automaton has at most one move from each state by each letter.
pub fn is_deterministic(automaton: &Auto) -> bool
    ensures { IsTrue result ↔ IsDeterministic automaton.now }
{
    let transitions = automaton.transitions();
    for at in 1..transitions.len() {
        if leave_alike(transitions[at - 1], transitions[at]) {
            return false;
        }
    }
    true
}

/// A state that the state leads to by the letter, if there is one.
pub(crate) fn next_state(automaton: &Auto, state: u32, letter: u32) -> Option<u32>
    requires { state < automaton.now.states }
    ensures some { IfSome result (Moves automaton.now state letter) }
    ensures below { IfSome result (λ next. next < automaton.now.states) }
    ensures none { IfNone result (HasNoMove automaton.now state letter) }
{
    let span = automaton.successors(state, letter);
    if span.begin == span.end {
        return None;
    }
    Some(automaton.transitions()[span.begin as usize].target)
}
