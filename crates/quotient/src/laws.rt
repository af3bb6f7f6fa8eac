//! The laws of quotients: each is the contract of a function that does nothing.

ghost use Rattle.quotient.specs.Laws.{QuotientAcceptsMore, ForwardQuotientIsSame, BackwardQuotientIsSame, DelayedQuotientIsSame, QuotientIsOne};

/// A quotient by any classes accepts what the automaton accepts.
pub fn quotient_accepts_more()
    ensures { QuotientAcceptsMore }
{}

/// It accepts the same, in both modes, if the closure of one relation that is stable forward
/// relates the members of each class.
pub fn forward_quotient_is_same()
    ensures { ForwardQuotientIsSame }
{}

/// It accepts the same, in both modes, if the closure of one relation that is stable backward
/// relates the members of each class.
pub fn backward_quotient_is_same()
    ensures { BackwardQuotientIsSame }
{}

/// It accepts the same lassos if the closure of the state relation of one right list of triples
/// relates the members of each class.
pub fn delayed_quotient_is_same()
    ensures { DelayedQuotientIsSame }
{}

/// The quotient by these classes is one automaton.
pub fn quotient_is_one()
    ensures { QuotientIsOne }
{}
