//! The laws of fronts: each is the contract of a function that does nothing.

ghost use Rattle.proof_front.specs.Laws.{KeptFrontCarriesOver, KeptFrontMakesAutomata, FrontHasOneOutcome};

/// Where the front keeps its rules, inclusion of what it makes is inclusion of the two automata.
pub fn kept_front_carries_over()
    ensures { KeptFrontCarriesOver }
{}

/// What it makes are two automata over the same labels.
pub fn kept_front_makes_automata()
    ensures { KeptFrontMakesAutomata }
{}

/// A front makes at most one thing and breaks at most one rule first, and never both.
pub fn front_has_one_outcome()
    ensures { FrontHasOneOutcome }
{}
