//! The laws of reduced automata: each is the contract of a function that does nothing.

ghost use Rattle.reduce_loop.specs.Laws.{ReducedAcceptsTheSame, ReducedIsNoLarger, ReducedIsSettled, ReducedIsOne, LogIsOne, LogIsOfReduced};

/// A reduced automaton accepts the same lassos, in finite mode the same words.
pub fn reduced_accepts_the_same()
    ensures { ReducedAcceptsTheSame }
{}

/// A reduced automaton has the same labels, and no more states and transitions.
pub fn reduced_is_no_larger()
    ensures { ReducedIsNoLarger }
{}

/// In a reduced automaton no step has anything to do.
pub fn reduced_is_settled()
    ensures { ReducedIsSettled }
{}

/// The reduced automaton is one.
pub fn reduced_is_one()
    ensures { ReducedIsOne }
{}

/// The log is one.
pub fn log_is_one()
    ensures { LogIsOne }
{}

/// A log leads to the reduced automaton.
pub fn log_is_of_reduced()
    ensures { LogIsOfReduced }
{}
