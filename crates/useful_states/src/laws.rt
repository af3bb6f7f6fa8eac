//! The laws of keeping states: each is the contract of a function that does nothing.

ghost use Rattle.useful_states.specs.Laws.{KeptAcceptsNoMore, KeptAcceptsTheSame, TrimmedAcceptsTheSame, KeptIsOne, TrimmedIsOne};

/// Keeping some states accepts no more, in both modes.
pub fn kept_accepts_no_more()
    ensures { KeptAcceptsNoMore }
{}

/// Keeping all useful states accepts the same, in the mode in which they are useful.
pub fn kept_accepts_the_same()
    ensures { KeptAcceptsTheSame }
{}

/// Trimming accepts the same.
pub fn trimmed_accepts_the_same()
    ensures { TrimmedAcceptsTheSame }
{}

/// Keeping these states gives one automaton.
pub fn kept_is_one()
    ensures { KeptIsOne }
{}

/// Trimming gives one automaton.
pub fn trimmed_is_one()
    ensures { TrimmedIsOne }
{}
