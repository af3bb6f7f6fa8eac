//! How many letters are announced.

ghost use Rattle.std.specs.Prelude.{◌≡◌, ◌<◌, ◌≤◌};
ghost use Rattle.auto_core.specs.Automaton.{IsAutomaton};
ghost use Rattle.auto_core.specs.Delayed.{are_few_triples_with_a_letter, letters_for};

use auto_core::{Auto, MOST_TRIPLES_WITH_A_LETTER};

/// Tells whether with so many announced letters there are at most as many triples, each with one
/// further letter, as a game with more than one letter may have.
fn are_few_triples_with_a_letter(automaton: &Auto, letters: u32) -> bool
    requires { 0 < automaton.now.labels }
    ensures { result ≡ are_few_triples_with_a_letter automaton.now letters }
{
    let states = u64::from(automaton.states());
    let labels = u64::from(automaton.labels());
    let mut count = states * states;
    for _ in 0..letters {
        if count > MOST_TRIPLES_WITH_A_LETTER {
            return false;
        }
        count *= labels;
    }
    count <= MOST_TRIPLES_WITH_A_LETTER
}

/// How many letters are announced on the automaton where `asked` are asked for: fewer where there
/// would be too many triples.
pub fn letters_for(automaton: &Auto, asked: u32) -> u32
    requires from { 1 ≤ asked }
    requires upto { asked ≤ 4 }
    ensures letters { result ≡ letters_for automaton.now asked }
    ensures from { 1 ≤ result }
    ensures upto { result ≤ asked }
{
    if automaton.labels() == 0 {
        return 1;
    }
    let mut letters = asked;
    'fewer: while letters > 1 {
        if are_few_triples_with_a_letter(automaton, letters) {
            return letters;
        }
        letters -= 1;
    }
    letters
}
