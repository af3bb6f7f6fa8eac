//! The laws of accepting more: each is the contract of a function that does nothing.

ghost use Rattle.more_accepting.specs.Laws.{MoreAcceptingIsSame, MoreAcceptingIsOne, MoreAcceptingStays};

/// What accepts more states accepts the same lassos.
pub fn more_accepting_is_same()
    ensures { MoreAcceptingIsSame }
{}

/// There is one such automaton at most.
pub fn more_accepting_is_one()
    ensures { MoreAcceptingIsOne }
{}

/// Making it again changes nothing more.
pub fn more_accepting_stays()
    ensures { MoreAcceptingStays }
{}
