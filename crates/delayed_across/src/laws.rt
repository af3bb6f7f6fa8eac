//! The laws of refusals and of what is reached: each is the contract of a function that does
//! nothing.

ghost use Rattle.delayed_across.specs.Laws.{RefusalIsOne, SimulationIsNotRefused, ReachedPartIsSimulation};

/// One rule at most is the first that pairs break.
pub fn refusal_is_one()
    ensures { RefusalIsOne }
{}

/// A delayed simulation breaks none.
pub fn simulation_is_not_refused()
    ensures { SimulationIsNotRefused }
{}

/// The part of a delayed simulation that is reached is one.
pub fn reached_part_is_simulation()
    ensures { ReachedPartIsSimulation }
{}
