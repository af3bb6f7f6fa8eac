//! Where a deterministic automaton goes.

ghost use Rattle.std.specs.Prelude.{◌≡◌, ◌≤◌};
ghost use Rattle.auto_core.specs.Automaton.{is_accepting};
ghost use Rattle.product_laws.specs.Reached.{GoesTo};

use auto_core::Auto;

/// Where the automaton goes from the state by the letter; the number of its states stands for none.
pub(crate) fn goes_to(second: &Auto, state: u32, letter: u32) -> u32
    requires { state ≤ second.now.states }
    ensures goes { GoesTo second.now state letter result }
    ensures state { result ≤ second.now.states }
{
    if state >= second.states() {
        return state;
    }
    let span = second.successors(state, letter);
    if span.begin == span.end {
        return second.states();
    }
    second.transitions()[span.begin as usize].target
}

/// Tells whether the number is that of an accepting state.
pub(crate) fn accepts(second: &Auto, state: u32) -> bool
    requires { state ≤ second.now.states }
    ensures { result ≡ is_accepting second.now state }
{
    if state >= second.states() {
        return false;
    }
    second.accepting(state)
}
