//! Words of elements that are given by their origins.

ghost use Rattle.std.specs.Prelude.{◌≡◌, ◌<◌, IfOk, length, reverse};
ghost use Rattle.auto_core.specs.Automaton.{trans_at};
ghost use Rattle.supergraph.specs.Words.{NameWhatIsThere, word_at};

use auto_core::{Auto, List, Memory, Origin, Word};
use std::alloc::Global;

/// The letter of the transition.
fn letter_of(automaton: &Auto, t: u32) -> u32
    requires { t < length automaton.now.transitions }
    ensures { result ≡ (trans_at automaton.now t).label }
{
    automaton.transitions()[t as usize].label
}

/// The letters of the element's word, from the last to the first.
fn letters_back(
    alloc: Global,
    automaton: &Auto,
    origins: &[Origin],
    element: u32,
) -> Result<Vec<u32>, Memory>
    requires is_there { element < length origins.now }
    requires names { NameWhatIsThere automaton.now origins.now }
    ensures { IfOk
        result (λ letters. reverse letters.items ≡ word_at automaton.now origins.now element) }
{
    let mut letters = Vec::new(alloc);
    let mut at = element;
    while let Origin::Next(before, t) = origins[at as usize] {
        letters.push(letter_of(automaton, t))?;
        at = before;
    }
    if let Origin::Base(t) = origins[at as usize] {
        letters.push(letter_of(automaton, t))?;
    }
    Ok(letters)
}

/// The letters as a word.
fn word_from(alloc: Global, letters: &[u32]) -> Result<Word, Memory>
    ensures { IfOk result (λ word. word ≡ letters.now) }
{
    let mut word = List::new(alloc);
    for letter in letters {
        word.push(*letter)?;
    }
    Ok(word)
}

/// The word of the element: the letters of its transition and of those of the elements that it goes
/// on from, from the first on. Each origin names transitions of the automaton and lesser elements.
pub fn word_of(
    alloc: Global,
    automaton: &Auto,
    origins: &[Origin],
    element: u32,
) -> Result<Word, Memory>
    requires is_there { element < length origins.now }
    requires names { NameWhatIsThere automaton.now origins.now }
    ensures { IfOk result (λ word. word ≡ word_at automaton.now origins.now element) }
{
    let mut letters = letters_back(alloc, automaton, origins, element)?;
    letters.reverse();
    Ok(word_from(alloc, &letters)?)
}
