//! Whether an automaton has a move.

ghost use Rattle.std.specs.Prelude.{◌≡◌, ◌<◌, ◌≤◌, ◌↔◌, ℕ, length, IsTrue};
ghost use Rattle.auto_core.specs.Automaton.{Moves, trans_at};
ghost use Rattle.state_map.specs.Faults.{HasTarget};

use auto_core::{Auto, Span, Trans};

/// Tells whether one of the transitions in the span, whose targets rise, has this target. It halves
/// the span until one is found.
fn has_target(automaton: &Auto, span: Span, target: u32) -> bool
    requires range { span.begin ≤ span.end }
    requires within { span.end ≤ length automaton.now.transitions }
    requires rising { (i j : ℕ) → span.begin ≤ i → i < j → j < span.end
        → (trans_at automaton.now i).target < (trans_at automaton.now j).target }
    ensures { IsTrue result ↔ HasTarget automaton.now span.begin span.end target }
{
    let transitions = automaton.transitions();
    let mut low = span.begin;
    let mut high = span.end;
    while low < high {
        let middle = low + (high - low) / 2;
        let found = transitions[middle as usize].target;
        if found == target {
            return true;
        }
        if found < target {
            low = middle + 1;
        } else {
            high = middle;
        }
    }
    false
}

/// Tells whether the automaton has the transition.
pub fn has_move(automaton: &Auto, step: Trans) -> bool
    requires { step.source < automaton.now.states }
    ensures { IsTrue result ↔ Moves automaton.now step.source step.label step.target }
{
    let span = automaton.successors(step.source, step.label);
    has_target(automaton, span, step.target)
}
