//! The laws of the logs: each is the contract of a function that does nothing.

ghost use Rattle.log_check.specs.Laws.{FirstLogGrows, SecondLogShrinks, EndsAreOne, BreakIsOne, NoneBreaksWithEnds};

/// What a first log leads to accepts all that the automaton before it accepts.
pub fn first_log_grows()
    ensures { FirstLogGrows }
{}

/// What a second log leads to accepts no more than the automaton before it.
pub fn second_log_shrinks()
    ensures { SecondLogShrinks }
{}

/// Two logs lead to one pair of automata at most.
pub fn ends_are_one()
    ensures { EndsAreOne }
{}

/// Two logs break one rule first, at most.
pub fn break_is_one()
    ensures { BreakIsOne }
{}

/// Where two logs lead to two automata, they break no rule.
pub fn none_breaks_with_ends()
    ensures { NoneBreaksWithEnds }
{}
