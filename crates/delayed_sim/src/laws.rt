//! The law of the greatest delayed relation: the contract of a function that does nothing.

ghost use Rattle.delayed_sim.specs.Laws.{GreatestDelayedIsOne};

/// The greatest delayed relation is one, and so are its ranks.
pub fn greatest_is_one()
    ensures { GreatestDelayedIsOne }
{}
