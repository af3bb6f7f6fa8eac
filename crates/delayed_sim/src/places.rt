//! The automaton of the places: left states with words.

ghost use Rattle.std.specs.Prelude.{◌≡◌, ◌+◌, ◌-◌, ◌*◌, ◌/◌, ◌%◌, ◌^◌, ◌<◌, ◌≤◌, length, true, IfOk};
ghost use Rattle.auto_core.specs.Automaton.{IsAutomaton};
ghost use Rattle.auto_core.specs.Delayed.{letters_for};
ghost use Rattle.delayed_sim.specs.Words.{ArePlaces};
ghost use Rattle.delayed_sim.specs.Steps.{step_announcing, AreSteps, AreAcceptingPlaces};

use crate::words::word_count;
use auto_core::{Auto, Memory, Trans, of_parts};
use std::alloc::Global;

/// The move of places by the transition, after which the word is that with this number.
fn step_of(step: Trans, labels: u32, words: u32, next: u32) -> Trans
    requires label { step.label < labels }
    requires next { next < words }
    requires source { step.source * words + words < 2 ^ 32 }
    requires target { step.target * words + words < 2 ^ 32 }
    requires letters { labels * words < 2 ^ 32 }
    ensures { result ≡ step_announcing labels words step next }
{
    let ahead = step.label * words + next;
    Trans {
        source: step.source * words + ahead / labels,
        label: step.label,
        target: step.target * words + next,
    }
}

/// The moves of places, those of a transition together.
fn steps_of(alloc: Global, automaton: &Auto, words: u32) -> Result<Vec<Trans>, Memory>
    requires some { 0 < words }
    requires places { automaton.now.states * words < 2 ^ 32 }
    requires letters { automaton.now.labels * words < 2 ^ 32 }
    requires few { length automaton.now.transitions * words < 2 ^ 32 }
    ensures steps { IfOk
        result (λ v.
        AreSteps automaton.now words v.items (length automaton.now.transitions * words)) }
{
    let labels = automaton.labels();
    let per = words as usize;
    let mut steps = Vec::new(alloc);
    for number in 0..automaton.transitions().len() * per {
        let step = automaton.transitions()[number / per];
        steps.push(step_of(step, labels, words, (number % per) as u32))?;
    }
    Ok(steps)
}

/// The accepting places.
fn accepting_places(alloc: Global, automaton: &Auto, words: u32) -> Result<Vec<u32>, Memory>
    requires some { 0 < words }
    requires places { automaton.now.states * words < 2 ^ 32 }
    ensures { IfOk
        result (λ v.
        AreAcceptingPlaces automaton.now words v.items (automaton.now.states * words)) }
{
    let mut accepting = Vec::new(alloc);
    for x in 0..automaton.states() * words {
        if automaton.accepting(x / words) {
            accepting.push(x)?;
        }
    }
    Ok(accepting)
}

/// The automaton of the places in the game with more than one announced letter.
pub fn places_of(alloc: Global, automaton: &Auto, letters: u32) -> Result<Auto, Memory>
    requires from { 2 ≤ letters }
    requires fitting { letters ≡ letters_for automaton.now letters }
    requires valid { IsAutomaton automaton.now }
    ensures { IfOk result (ArePlaces automaton.now letters) }
{
    let words = word_count(automaton.labels(), letters - 1);
    let steps = steps_of(alloc, automaton, words)?;
    let accepting = accepting_places(alloc, automaton, words)?;
    let places = of_parts(
        alloc,
        automaton.states() * words,
        automaton.labels(),
        automaton.initial() * words,
        &steps,
        &accepting,
    )?;
    Ok(places)
}
